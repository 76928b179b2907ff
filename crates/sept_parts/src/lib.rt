//! The walk of the secure EPT, as a part that leaves share.
//!
//! As in `leaf_parts` each part is a function of the words that it is told, a tree with a place for
//! what comes after it (specs/SeptTrees.antt), and a lemma that takes the meaning of what comes
//! after it to the meaning of the whole (proofs/SeptBegun.antt). A leaf begins with `td_find`, which is
//! `td_head` of `leaf_parts`, `tree_lock` and `find`, and has the entry of its GPA and level, with
//! the secure EPT page in which that stands: `row-find-means` is the lemma for it. What may be loaded
//! and stored there is in proofs/SeptLocks.antt.
//!
//! A call that maps a page has its end in specs/MapTrees.antt: an entry that is FREE comes to name a
//! page of the host's, of whatever kind and filled with whatever words. `td_map` decides it, `map_write`
//! makes its stores, and proofs/Maps.antt has its meaning, in three steps: the page's words are replaced
//! (proofs/Filled.antt), the word of the entry that names it is stored (proofs/SeptPut.antt), and it is
//! taken as the node there (proofs/Nodes.antt).
#![tactic(auto)]

mod arguments;
mod entries;
mod finds;
mod mappings;

pub use arguments::{GPAS, TOP, is_aligned, is_upper};
pub use entries::{entry, entry_told, is_mapped_on, is_state_among, root_page, tree_lock};
pub use finds::{Found, Modes, find, found_in, td_find, walk};
pub use mappings::{Mapping, map_write, td_map};
