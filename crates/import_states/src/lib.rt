//! Leaves of a migration's destination that bring states in: of a TD's virtual processors, of what
//! doesn't change of a TD, and of the TD itself.
//!
//! Each leaf is made with the bundle in its slot, if there is one, and means its row of that bundle. Its
//! tree mirrors the row. Two are a `Plan` of `leaf_engine`; the one of a TD's state makes more writes
//! than a plan does, and is a `Leaf` itself. What these rows ask of a bundle stands in `import_parts`.
#![tactic(auto)]

mod sessions;
mod tds;
mod vps;

pub use sessions::ImportImmutable;
pub use tds::ImportTd;
pub use vps::ImportVp;
