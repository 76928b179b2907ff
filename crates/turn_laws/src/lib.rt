//! One turn of a logical processor among others that stand still, whatever bundles have come in by then.
//!
//! `merge_laws` says of a whole run over words that it is one of the flat machine, where all bundles are there
//! from the start. This crate says it turn by turn, and of bundles that come in between turns: where the words
//! show a state, and all processors stand where it has them, they do so after a turn of one of them, and still
//! do once more bundles are there. A layer above may use `turn_law`.
#![tactic(auto)]

mod laws;

pub use laws::turn_law;
