//! The leaf of EXPORT.TRACK: the tokens of an export.
//!
//! The leaf is a `Plan` of `leaf_engine`, whose tree mirrors its row, with the proof that it means
//! that row; and it gives the bundle that the row makes, from the words that it was told. The beginning
//! of its rows, streams and header words are `stream_parts`'s.
#![tactic(auto)]

mod tokens;

pub use tokens::Token;
