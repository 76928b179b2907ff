//! The trace of a run, told by the turns of its processors over words.
//!
//! It stands on `leaf_engine`, whose turns these are, on `merge_laws`, by which they are the events of
//! the flat machine's run, and on `trace_lines`, whose trace that run has; nothing that is run uses it. A
//! layer above may use `turns_told`: a loop that makes turns, one at a time, tells by each of them the
//! next event of the trace.
#![tactic(auto)]

mod laws;

pub use laws::turns_told;
