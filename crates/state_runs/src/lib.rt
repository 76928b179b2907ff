//! The state of a script's run after its first events: its processors make their turns under the schedule
//! until so many events are made, and what they leave is read.
//!
//! Stands on `run_texts`, which makes the run before an onlooker, and on `state_lines`, by which words and
//! processors tell a state. A layer above may use that `state_lines_after` gives the text, in a form, of
//! the flat machine's state after that many events of the run under the script's schedule, from the
//! opening that has what the run is given.
#![tactic(auto)]

mod reading;
mod runs;
mod turns;

pub use runs::state_lines_after;
