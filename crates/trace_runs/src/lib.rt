//! The trace of a script's run: its processors make their turns under the schedule, and each turn tells
//! its event.
//!
//! Stands on `run_texts`, which makes the run before an onlooker, and on `trace_laws`, by which a turn
//! tells the next event of the flat machine's trace. A layer above may use that `traced_run` gives the
//! trace of the flat machine's run under the script's schedule, from the opening that has what the run
//! is given.
#![tactic(auto)]

mod runs;
mod turns;

pub use runs::traced_run;
