//! Lock words follow the states of locks.
//!
//! Stands on `word_rules`, which says what words show and who may change what. A layer above may
//! use that the grips of two processors are apart in every run (`grips_are_apart`), that each try,
//! undo and release is one step on the word of its lock, after which the words show the state
//! again, that the lock words of a TD stay where they are while its TDR page is held, and that in
//! every state of a run it is held below each lock of the TD, which stands (`reached_locks_stand`).
#![tactic(auto)]

mod laws;

pub use laws::{
    grips_are_apart, lock_steps_shown, lock_words_follow, reached_locks_stand, td_locks_stay,
};
