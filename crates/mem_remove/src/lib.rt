//! Leaves on pages that are in use: the look at a page's metadata, blocking, tracking and unblocking,
//! and the removal of a private page and of a secure EPT page.
//!
//! Each leaf's tree mirrors its row, with the proof that it means that row. All are `Plan`s of
//! `leaf_engine` but the removal of a secure EPT page, which is told 512 entries and has a `Leaf` of
//! its own. Those on an entry begin alike, by `find_named`; and whether a block is tracked is judged
//! once, by `tracked`.
#![tactic(auto)]

mod blocks;
mod metadata_reads;
mod named_entries;
mod removals;
mod sept_removals;
mod tracked_blocks;
mod trackings;

pub use blocks::{RangeBlock, RangeUnblock, entry_of, unblocked_state};
pub use metadata_reads::Rdmd;
pub use named_entries::{Named, epoch_lock, find_named, taken};
pub use removals::{PageRemove, REMOVED};
pub use sept_removals::SeptRemove;
pub use tracked_blocks::{tracked, tracked_block};
pub use trackings::Track;
