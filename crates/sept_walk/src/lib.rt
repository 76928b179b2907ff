//! Walks of the secure EPT: from the root's level down to the entry of a wanted level.
//!
//! A `Walk` says the address of the entry that it needs, and is told what stands there: a walk is
//! at most four loads, and this crate makes none itself. Contracts see a `Walk` as a record of its
//! page, its level, its GPA and the wanted level. A layer above may use the exact steps, that told
//! entry by entry what memory has, a walk ends with what the secure EPT there says (`walks_find`),
//! that this is what a TD's map says where memory holds it (`walks_meet_maps`), and how an entry's
//! index and number go together (`numbers_split`).
#![tactic(auto)]

mod laws;
#[cfg(test)]
mod tests;
mod walks;

pub use laws::{numbers_split, walks_find, walks_meet_maps};
pub use walks::{Walk, Walked, index};
