//! Leaves that access words: the host's plain memory accesses, and the operations of guests.
//!
//! Each leaf is a `Plan` of `leaf_engine`, or, as `report`, a `Leaf` of its own, whose tree mirrors its
//! row, with the proof that it means that row.
#![tactic(auto)]

mod accepts;
mod guest_operations;
mod guest_words;
mod host_accesses;
mod laws;
mod private_accesses;
mod reports;
mod rtmrs;
mod shared_accesses;
mod walk_loads;

pub use accepts::Accept;
pub use guest_operations::{Add, Set, Vmcall};
pub use guest_words::{register_address, shared_page, word_of_gpa};
pub use host_accesses::{HostRead, HostWrite};
pub use laws::{operations_mean, pending_is_unreached};
pub use private_accesses::{PrivateLoad, PrivateStore};
pub use reports::Report;
pub use rtmrs::Rtmr;
pub use shared_accesses::{SharedLoad, SharedStore};
pub use walk_loads::{WalkLoad, entry_address, rights_told};
