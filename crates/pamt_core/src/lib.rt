//! PAMT words: what the PAMT says of a page, packed into 64 bits and read back.
//!
//! Contracts see a `PamtWord` as td_words' record `Pamt`. A layer above may use that `pack` is
//! `pamt_word` and `unpack` is `pamt_in`, and with td_words' law on packings that each undoes the
//! other on lawful values and that `unpack` is None exactly for a word that packs none.
#![tactic(auto)]

mod pamt_words;
#[cfg(test)]
mod tests;

pub use pamt_words::PamtWord;
