//! Logs of replies: what a module, or a run, answered to call lines of a script.
//!
//! A log has a line for each reply, as a run prints it: the number of the processor, a dot, that of its call
//! line, and the reply. Lines may be left out, and stand in any order. A layer above may use that `read_log` is
//! `log_of`, or the first bad line with the first reason that holds; want of memory alone keeps it from its
//! answer.
#![tactic(auto)]

mod faults;
mod logs;

pub use faults::{LogFault, LogReason};
pub use logs::{LogLine, read_log};
