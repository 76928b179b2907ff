//! The check of a report's file under a key file: what is loaded, and the line that tells what it comes to.
//!
//! Stands on `report_core`, which checks the bytes, on `bundle_store`, whose files it loads, and on
//! `command_files`, which names them. A layer above may use that `check_files` loads the report's file
//! and then the key file, and nothing else, and says just what these say (`ChecksFiles`), and that
//! `verdict_line` gives `verdict_text`, unless memory lacks.
#![tactic(auto)]

mod checked;
mod lines;

pub use checked::{CheckFault, check_files};
pub use lines::verdict_line;
