//! The trace of a run: what each of its events was, whose, and at which call line.
//!
//! The crate stands on `td_words`, and by its definitions on the flat machine of `flat_core`. A layer
//! above may use that `specs/Traces.antt` defines the trace of a run under a schedule, that it tells the
//! run's replies (`traces_tell`), and `traces_go_on` where it makes a trace event by event.
#![tactic(auto)]

mod laws;
mod traces;

pub use laws::{traces_go_on, traces_tell, worked_traces};
pub use traces::{Traced, What};
