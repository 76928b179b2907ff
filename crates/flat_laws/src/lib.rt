//! What an auditor asks of pages, in an auditor's terms.
//!
//! Who owns which page, that each private access of a guest reaches a page of its own TD, that a
//! page which moved to another owner isn't reached through an old translation, and when no guest
//! reaches, or changes, a page. It stands on the laws of flat_core, and nothing that is run uses it.
//! A layer above may use the laws as contracts of the functions of `laws`.
#![tactic(auto)]

mod laws;

pub use laws::{access_law, move_law, ownership_law, reach_law, relocation_law, worked_removal};
