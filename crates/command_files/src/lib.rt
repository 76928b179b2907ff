//! The words of a command, and the input files that its options name.
//!
//! A layer above may use that `read_command` is `asked_in`: the first word is the command, and the rest
//! is what the defined reading of the library `clap` makes of that command's line. `take_inputs` makes
//! just the loads that are due and answers the first fault of what they handed out, or the bundles of
//! the container, in the order of their slots, the keys, the secret words and the report key
//! (`TakesInputs`); where keys or a report key are needed it has them (`IsThere`). Only memory can keep either from its answer, and `read_command`
//! only where the first word is a command. Another command's line is made and read in the same way by
//! `empty_line`, `with_word`, `with_option`, `read_line` and `value_of`.
#![tactic(auto)]

mod commands;
mod inputs;
mod lines;

pub use commands::{Asked, Command, Named, ReportFiles, read_command};
pub use inputs::{Input, InputFault, Inputs, KeyBytes, Needs, take_inputs};
pub use lines::{empty_line, read_line, value_of, with_option, with_word};
