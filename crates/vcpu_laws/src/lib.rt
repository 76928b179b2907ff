//! Virtual processors, and what is noted of TDs, event by event.
//!
//! Which events change a register, a position or a state of a virtual processor, and to what; and which
//! note a TD as it is, at its pause and at its commit. It stands on the flat machine, and on what td_laws
//! says of all that acts of calls alone change; nothing that is run uses it. A layer above may use the laws
//! as contracts of the functions of `laws`.
#![tactic(auto)]

mod laws;

pub use laws::{note_events, vcpu_events};
