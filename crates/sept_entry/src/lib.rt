//! Secure EPT entries as words: state, page and mark, packed into 64 bits and read back.
//!
//! Contracts see an `Entry` as td_words' record `Entry`. A layer above may use that `pack` is
//! `entry_word` and `unpack` is `entry_in`, and with td_words' law on packings that each undoes the
//! other on lawful values and that `unpack` is None exactly for a word that packs none.
#![tactic(auto)]

mod entries;
#[cfg(test)]
mod tests;

pub use entries::Entry;
