//! MEM.PAGE.RELOCATE as a decision over the words that it is told, and that it means its row.
//!
//! A private page moves to a host page while its TD runs: the beginning and the tracked block are those
//! of `mem_remove`, the host page that of `leaf_parts`. The words of the page that moves are copied
//! before the act, once all conditions have held. No lock keeps guests off them: the page is blocked,
//! and that is tracked.
#![tactic(auto)]

mod relocations;

pub use relocations::PageRelocate;
