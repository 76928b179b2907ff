//! The leaf of the call that begins a session of a TD's export and makes the session's first bundle,
//! which has what doesn't change of the TD any more.
//!
//! It is a `Plan` of `leaf_engine`, whose tree mirrors its row, with the proof that it means that
//! row. Its streams are those of `stream_parts`. What it stores depends on all that it was told, so
//! each of its writes goes through the words again.
#![tactic(auto)]

mod changes;
mod sessions;

pub use sessions::Immutable;
