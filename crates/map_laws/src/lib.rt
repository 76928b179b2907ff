//! What words that show the flat machine tell of it: the maps of its TDs, and TLB epochs.
//!
//! Stands on `word_rules` for what words show, on `sept_parts` for how leaves read an entry's word,
//! on `sept_walk` for walks, on `merge_laws` for the tables that word steps lead to, and on `tlb_epochs`,
//! `mem_remove` and `vcpu_control` for epochs. A layer above may use `maps_are_held`: over words that show
//! a lawful state, memory holds the map of each TD that is alive and has its root, so a walk of such memory
//! ends as the flat machine's map says. By `leaves_walk` that is the walk of the calls, by `tracked_by` these
//! decide on a block as `is_tracked` does, and by `count_of` entries and exits are counted as `count_at` says.
#![tactic(auto)]

mod epochs;
mod laws;

pub use epochs::{count_of, tracked_by};
pub use laws::{leaves_walk, maps_are_held};
