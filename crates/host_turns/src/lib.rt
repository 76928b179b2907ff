//! Turns of HOST.READ and HOST.WRITE that need no run of their leaf, event by event: the try of the page's
//! lock, the act, and the lock's release.
//!
//! Each is the turn of its leaf's run, by the leaf's tree (`HostTurned`), and makes the word steps of that
//! turn alone. What is kept of an access between two events is a small record.
#![tactic(auto)]

mod acts;
mod host_accesses;
mod runs;

pub use acts::held_of;
pub use host_accesses::{begin_host, turn_host};
pub use runs::{HostAccess, HostEnd, HostRun, HostStage};
