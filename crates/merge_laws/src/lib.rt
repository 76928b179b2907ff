//! Merges of the word steps of logical processors are runs of the flat machine.
//!
//! Stands on `leaf_engine`, whose one law of a leaf it takes for any table of leaves, and on the
//! permissions of `word_rules`, `lock_words` and `act_rules`. A layer above may use `merge_law`: in
//! whatever order the processors' word steps were made, the replies are those of the flat machine,
//! run in the order in which their events stand there; and though a merge allows a swap to miss
//! where another processor has one on its slot under way, none does.
#![tactic(auto)]

mod laws;

pub use laws::merge_law;
