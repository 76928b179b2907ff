//! Leaves that were made up, so that each part of the law of a leaf is asked of one: a call that
//! enters a guest and drops the translations of its TD, a call that makes a bundle, and a guest's
//! operation that notes and tells a word.
//!
//! Stands on `leaf_engine`. No layer stands on it: no call of the machine is one of these.
#![tactic(auto)]

mod laws;

pub use laws::trials_mean;
