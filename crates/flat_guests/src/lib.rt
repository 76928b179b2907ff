//! Guest memory and told words, event by event.
//!
//! Which events change what guests know of their private pages, and which tell the host a word. A
//! layer above may use the laws as contracts of the functions of `laws`.
#![tactic(auto)]

mod laws;

pub use laws::{list_memories, memory_events, told_events};
