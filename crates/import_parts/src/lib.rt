//! Parts that the calls of a migration's destination share: the bundle that a call takes with the fields
//! of its header that are due, the beginning of rows that hold a TD's map alone behind it, and the words
//! of its payload, stored one after another.
//!
//! Each part is a function of the words that it is told, a tree with a place for what comes after
//! it, and a lemma that takes the meaning of what comes after it to the meaning of the whole. A
//! bundle is what rows see of it (`input_in`), whether there is one or not.
#![tactic(auto)]

mod dues;
mod heads;
mod inputs;
mod payloads;

pub use dues::{counter_due, epoch_same, is_due, session_same};
pub use heads::input_alone;
pub use inputs::{header_of, input_of, tag_holds};
pub use payloads::{Run, word_given};
