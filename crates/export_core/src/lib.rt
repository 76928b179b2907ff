//! Leaves of a migration's source: the creation of a stream, the block of a page for writing and its
//! end, the pause and abort of an export, and the restore of an entry.
//!
//! Each leaf is a `Plan` of `leaf_engine`, whose tree mirrors its row, with the proof that it means
//! that row. All begin with the beginning of a TD's rows, which is `leaf_parts`'s; walks are
//! `sept_parts`'s, the change of an operation state is `stream_parts`'s, and `mem_remove` has what an
//! entry names. A layer above may use the parts of the beginning that shares the map.
#![tactic(auto)]

mod opened_entries;
mod pauses;
mod restores;
mod shared_entries;
mod stream_creations;
mod write_blocks;

pub use opened_entries::entry_of;
pub use pauses::{Abort, Pause};
pub use restores::Restore;
pub use shared_entries::{held_entry, page_of, shared_walk};
pub use stream_creations::StreamCreate;
pub use write_blocks::{BlockW, UnblockW};
