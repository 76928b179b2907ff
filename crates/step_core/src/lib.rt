//! Word steps, the bench that they are made on, and the lock and page work that is made of them.
//!
//! Nothing here knows what a word means. A `Bench` is told by a relation: `did b items c` says that
//! these steps and swaps, with their answers and in this order, led from bench `b` to bench `c`. So
//! one contract serves `PlainBench`, where it says that playing the items on `b`'s words and slots
//! gives `c`'s, and a table that several processors share. A layer above may use that each call
//! made exactly the items that its clause lists, that a try is granted exactly as the word seen
//! says, and the laws on what clearing and copying a page change.
#![tactic(auto)]

mod benches;
mod items;
mod laws;
mod locks;
mod pages;
mod plain;
mod steps;
#[cfg(test)]
mod tests;

pub use benches::Bench;
pub use items::Taken;
pub use laws::{pages_change_alone, steps_make_words, tries_taken_back};
pub use locks::{Tried, free, try_exclusive, try_shared, undo};
pub use pages::{copy_page, zero_page};
pub use plain::PlainBench;
pub use steps::WordStep;
