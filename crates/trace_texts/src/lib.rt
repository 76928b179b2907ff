//! The trace of a run as lines: for reading, and as JSON for programs.
//!
//! The crate stands on `trace_lines`, whose events it tells, on `field_lines`, whose fields give both
//! forms, and on `line_words`, by which it finds the call lines in a script's text. A layer above may use
//! that `call_lists` gives the call lines of each processor that `specs/CallLines.antt` defines, and
//! `trace_text` the bytes that `specs/Lines.antt` defines, unless memory wasn't found; and that in a text
//! that `script_text` reads the name on a call's line is that of its call (`lines_name_calls`). Other
//! lines that begin with a call's have `line_of` and `push_column`.
#![tactic(auto)]

mod call_lines;
mod events;
mod laws;
mod lines;

pub use call_lines::{CallLine, call_lists, line_of};
pub use laws::lines_name_calls;
pub use lines::{push_column, trace_text};
