//! Chains of modules: the run of modules in a row, each with a flat state of its own, where what one makes
//! comes in at its neighbours, and its laws. A pair is a chain of two.
//!
//! It stands on the laws of a migration that one event keeps, whatever bundles have come in by then, and
//! says them of each module at every moment of every run of a chain. No law has a premise on keys or on
//! forging: a chain gives a module nothing but what its neighbours made. Nothing that is run uses it. A
//! layer above may use the laws as contracts of the functions of `laws` and `handed`.
#![tactic(auto)]

mod handed;
mod laws;

pub use handed::{chain_input_law, chain_key_law, chain_sealing_law, chain_secret_law};
pub use laws::{chain_end_law, chain_examples, chain_image_law, chain_memory_law, lineage_law};
