//! The line of a soak: its source is run, and then its destination with the bundles of the source.
//!
//! Stands on `soak_scripts`, which makes the two scripts, and on `run_texts`, which runs a script over
//! words, and seals bundles and opens them. A layer above may use that `soak_line` gives `soak_text`,
//! which speaks of two runs of the flat machine, unless memory lacks.
#![tactic(auto)]

mod soaked;

pub use soaked::soak_line;
