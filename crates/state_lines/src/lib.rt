//! The lines of a machine's state, in either form: its pages with what they have, and its logical
//! processors.
//!
//! Stands on `flat_core`, whose states these are, on `word_rules`, by which words show a state, on
//! `pamt_core` and `leaf_parts`, which take words apart, and on `field_lines`, whose fields make lines. A
//! layer above may use that `push_pages` reads the lines of a state's pages from words that show it
//! (`words_tell_pages`), and what each other call adds to a text.
#![tactic(auto)]

mod laws;
mod lines;
mod lps;
mod pages;
mod seen;
mod words;

pub use laws::{lps_tell, states_go_on, words_tell_pages};
pub use lines::{push_done, push_guest};
pub use lps::{push_locks, push_translations};
pub use pages::push_pages;
pub use seen::{Content, Holder, StreamSeen, TdSeen, TdcsSeen, VcpuSeen};
pub use words::owner_of;
