//! The leaves that build a TD's secure EPT, add its first pages and measure them: MEM.SEPT.ADD,
//! MEM.SEPT.RD, MEM.PAGE.ADD, MEM.PAGE.AUG and MR.EXTEND.
//!
//! Stands on `leaf_parts` and `sept_parts`, whose beginnings and walk its leaves share. A layer above
//! may use that each leaf is made for its call's row, and means that row.
#![tactic(auto)]

mod extensions;
mod page_additions;
mod page_augmentations;
mod sept_additions;
mod sept_reads;

pub use extensions::{Chunk, Extend};
pub use page_additions::PageAdd;
pub use page_augmentations::PageAug;
pub use sept_additions::SeptAdd;
pub use sept_reads::SeptRd;
