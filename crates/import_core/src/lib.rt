//! Leaves of a migration's destination: the tokens of an import, its commit, its end, and its abort,
//! which makes the token for the source; and the end of a source's export by that token.
//!
//! Each leaf is a `Plan` of `leaf_engine`, whose tree mirrors its row, with the proof that it means
//! that row; and one that makes a bundle gives it, from the words that it was told. One that takes a
//! bundle is made with it. What they share stands in `import_parts` and `stream_parts`.
#![tactic(auto)]

mod aborts;
mod commits;
mod token_aborts;
mod tokens;

pub use aborts::ImportAbort;
pub use commits::{Commit, ImportEnd};
pub use token_aborts::AbortByToken;
pub use tokens::ImportToken;
