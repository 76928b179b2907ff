//! The scripts of a soak: a TD of many pages is exported by the one and imported by the other.
//!
//! A layer above may use that `source` and `destination` make the scripts that `specs/Soak.antt`
//! defines, unless memory lacks, and that both are in form (`soaks_are_in_form`).
#![tactic(auto)]

mod laws;
mod soaks;

pub use laws::soaks_are_in_form;
pub use soaks::{destination, source};
