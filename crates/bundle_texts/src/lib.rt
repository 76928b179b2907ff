//! The container of the bundles that a run made, each sealed.
//!
//! Contracts see a bundle before it is sealed as the flat machine's `Made`: its slot, its header without
//! a tag, and the words of its payload. A layer above may use that `container_of` gives
//! `container_text`, whatever the order in which the bundles were made, and that a container is read
//! again as the bundles, sealed, and each of these opens to its payload (`bundles_read_again`). Only
//! memory can keep a call from its answer.
#![tactic(auto)]

mod containers;
mod laws;
mod seals;

pub use containers::container_of;
pub use laws::bundles_read_again;
pub use seals::{iv_of, key_of, seal};
