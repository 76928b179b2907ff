//! The leaf of EXPORT.MEM: a page of an export.
//!
//! The leaf's tree mirrors its row, with the proof that it means that row. Once the conditions have
//! shown which page it is, its 512 words are told one by one, into `PageWords` whose room was taken
//! beforehand; the bundle borrows them. Stands on `export_core` for the beginning that shares the map,
//! on `mem_remove` for the tracked test and on `stream_parts` for the stream that counts the bundle. A
//! layer above may use what `Leaf` says of it, and that `bundle` gives the bundle that its tree ends
//! with.
#![tactic(auto)]

mod page_conditions;
mod page_exports;
mod page_words;

pub use page_exports::{Exporting, PageExport};
pub use page_words::PageWords;
