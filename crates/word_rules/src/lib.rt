//! What the words of memory show of the flat machine, and who may change which of them.
//!
//! The table of rules is data: for each class of words the locks under which a word is stable to
//! read, safe to see, allowed to store, owed, filled, and allowed to become another. A layer above
//! may use that no two processors conflict at a word where their grips are apart
//! (`words_never_conflict`), that a processor that has what a list of locks names meets each rule
//! that the list meets, and that a call's row gets the locks that are listed for it
//! (`leaf_table_fits`).
#![tactic(auto)]

mod laws;

pub use laws::{
    leaf_table_fits, respects_compose, rules_clash, start_is_shown, views_are_kept,
    words_never_conflict,
};
