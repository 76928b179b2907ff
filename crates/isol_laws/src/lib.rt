//! What the host can learn: nothing that a run prints depends on a private word but through what
//! guests tell.
//!
//! Stands on flat_core, which says it beside each row, operation and event, of two states side by side;
//! here it is said of two runs: event by event, whatever bundles have come in, and under every schedule.
//! Nothing that is run uses this crate. A layer above may use `two_world_law`.
#![tactic(auto)]

mod laws;

pub use laws::two_world_law;
