//! AES-256 in Galois counter mode (SP 800-38D), with an IV of 12 bytes and a tag of 16.
//!
//! The key stream is made of eight counter blocks at a time. The hash multiplies by tables of the hash
//! key's products with each four bits, 8 KB on the stack, which each call makes anew. A layer above may
//! use that `seal_in_place` gives the standard's text and tag, that `open_in_place` is false exactly
//! where the tag isn't that of the additional bytes and the sealed text, and then leaves the text as it
//! came, and that opening undoes sealing (`gcm_standard_met`). No call takes memory. Nothing is claimed of
//! the time that a call takes.
#![tactic(auto)]

mod fields;
mod hashes;
mod keys;
mod laws;
mod seals;
mod streams;

pub use keys::Keys;
pub use laws::gcm_standard_met;
pub use seals::{open_in_place, seal_in_place};
