//! Epochs of TLB tracking, and the translations that a logical processor has cached.
//!
//! Whether a block is tracked is told by the count of the virtual processors in guest that entered at
//! the epoch before TD_EPOCH. Contracts see a `Tlb` as its list of cached translations, oldest first.
//! A layer above may use `is_tracked` in the flat machine's terms where the count is the flat one
//! (`counts_tell`), and the exact list that each change of a `Tlb` leaves.
#![tactic(auto)]

mod epochs;
mod laws;
mod translations;

pub use epochs::{count_at, is_tracked};
pub use laws::counts_tell;
pub use translations::{Cached, Tlb};
