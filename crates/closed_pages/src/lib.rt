//! Pages that no guest reaches, or writes, as the grips of locks have it.
//!
//! What a grip takes on trust of other guests is told by the world: flat_laws says when no guest reaches
//! the page of an entry, and this crate that the page is then clear in the sense of lock_words. A layer
//! above may use `clear_law`, whose `at_once` is of one state, as a leaf knows it at an instant.
#![tactic(auto)]

mod laws;

pub use laws::clear_law;
