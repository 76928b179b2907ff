//! What acts leave: of the words that another processor was told, and of what words are.
//!
//! Stands on `word_rules` and `lock_words`. A layer above may use that stores of others leave what
//! a processor reads as stable (`stores_keep_reads`), that each word that acts are written in and each
//! event of a guest change what words are only under the locks that the rules ask for
//! (`acts_respect`, `guests_respect`), as do all events of every run (`events_respect`), and that a
//! guest stores to words of pages only as they say (`guests_store`).
#![tactic(auto)]

mod laws;

pub use laws::{acts_respect, events_respect, guests_respect, guests_store, stores_keep_reads};
