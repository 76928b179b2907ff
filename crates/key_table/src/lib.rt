//! Leaves of the key table: the caches are written back, and a TD's life ends, its HKID and then
//! its pages given back.
//!
//! Each leaf is a `Plan` of `leaf_engine`, whose tree mirrors its row, with the proof that it means
//! that row.
#![tactic(auto)]

mod cache_write_backs;
mod flush_ends;
mod hkid_releases;
mod page_reclaims;
mod words;

pub use cache_write_backs::CacheWb;
pub use flush_ends::FlushDone;
pub use hkid_releases::FreeId;
pub use page_reclaims::Reclaim;
