//! Scripts: from bytes to a machine, a schedule and calls, or to the first bad line and its reason.
//!
//! A script is lines of words, which `line_words` cuts; this crate says what each line means and
//! which reason counts where several hold. A layer above may use that `read_script` gives exactly what
//! `specs/Reading.antt` defines, unless memory wasn't found, and four laws: what is read is in form
//! (`scripts_are_in_form`), a script in form that is written out is read again
//! (`scripts_read_again`), a fault names the first bad line (`faults_are_first`), and the first reason
//! that holds of it (`reasons_in_order`). In form no two calls name one output slot, and
//! `proofs/Slots.antt` says it of any two places of calls. `needs_keys` says whether a script seals
//! or opens bundles.
#![tactic(auto)]

mod accesses;
mod code_blocks;
mod drafts;
mod faults;
mod fields;
mod laws;
mod lines;
mod operations;
mod schedules;
mod scripts;

pub use faults::{Reason, ScriptFault};
pub use fields::slot_place;
pub use laws::{faults_are_first, reasons_in_order, scripts_are_in_form, scripts_read_again};
pub use scripts::{Script, needs_keys, needs_report_key, read_script};
