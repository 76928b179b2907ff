//! Of two hosts that both hold a TD, at most one runs it: from its pause on its source doesn't where the
//! import is committed, and before the commit its destination doesn't.
//!
//! It stands on the flat machine and on the laws of a migration, and joins a run of the source with a
//! run of the destination; nothing that is run uses it. A layer above may use the law as the contract of
//! the functions of `laws`.
#![tactic(auto)]

mod laws;

pub use laws::{one_event_law, one_runner_law};
