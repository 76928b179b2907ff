//! The words of a script's lines: where a line and a word end, which number a word is, and which call
//! it names.
//!
//! What a line means is `script_text`'s; this crate stands on no other. A layer above may use that
//! `first_line`, `next_line`, which judges a line's bytes too, and `next_word` cut a text as
//! `specs/Words.antt` says, that `number`, `next_number` and `first_numbers` read the numbers of
//! `specs/Number.antt`, and that `mnemonic_at` finds the names of `specs/Mnemonics.antt`; `is_comment`
//! judges a first word, and `is_skipped` a line. How a line is written out stands in
//! `specs/Lines.antt`, and that its words and numbers are then read again in `proofs/Texts.antt`.
#![tactic(auto)]

mod mnemonics;
mod numbers;
mod words;

pub use mnemonics::{CallName, Mnemonic, behind_name, is, mnemonic_at};
pub use numbers::{first_numbers, next_number, number};
pub use words::{
    Line, first_line, is_comment, is_skipped, next_line, next_word, place_of, without_front_spaces,
};
