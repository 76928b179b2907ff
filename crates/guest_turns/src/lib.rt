//! Turns of a guest's steps that need no run of their leaf: a walk's load, an access to a private word by a
//! cached translation, `set`, `secret` and `add`, which are one event each; and loads and stores of shared words,
//! event by event: the try of the page's lock, the act, and the lock's release.
//!
//! Each is the turn of its leaf's run, by the leaf's tree (`MadeAtOnce`, `SharedTurned`), and makes the word
//! steps of that turn alone. What is kept of a shared access between two events is a small record.
//! `host_turns` shares what any short way has that tries a page's lock alone: `load` and `try_page`, and that
//! its first event and its last one are turns (`ShortTurned`).
#![tactic(auto)]

mod acts;
mod operations;
mod private_accesses;
mod runs;
mod shared_accesses;
mod walks;
mod words;

pub use acts::held_of;
pub use operations::{add_registers, set_register};
pub use private_accesses::{load_private, store_private};
pub use runs::{LeafTurn, SharedRun, SharedStage};
pub use shared_accesses::{begin_shared, try_page, turn_shared};
pub use walks::load_entry;
pub use words::load;
