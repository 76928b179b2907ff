//! Worked merges: two processors that make word steps inside one another's turns.
//!
//! Stands on `merge_laws` and `leaf_table`. No layer stands on it: it shows that there are merges
//! which the law of merges speaks of, and what they come to.
#![tactic(auto)]

mod laws;

pub use laws::worked_merges;
