//! A chain of modules over words: where the processors of each module stand, turn by turn, while its neighbours
//! hand it bundles.
//!
//! `chain_laws` has the chain on the flat machine, and `turn_laws` one turn of a processor, whatever bundles
//! have come in by then. This crate says the turn of a chain. A layer above may use `chain_turn_law`.
#![tactic(auto)]

mod laws;

pub use laws::chain_turn_law;
