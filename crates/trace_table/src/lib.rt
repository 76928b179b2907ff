//! The words of a machine that several logical processors share, with a list of steps for each.
//!
//! Stands on `step_core`, whose `Bench` a `SharedBench` is, and on the kit's `atomic_table`. A
//! `SharedTable` owns the words and the slots of hashers. Of a bench contracts see its lists: its own,
//! to which `perform` and `swap` add just the step that was made, with the answer that the table gave,
//! and behind it, at the first bench, those of the benches that it took in. No contract tells in which
//! order the steps of several benches came. `close`, which no bench may be missing at, tells that there
//! is one: the words that it gives are those that a merge of all lists leaves (`specs/Merges`). A layer
//! above may use that, and what each call says of a bench's lists.
#![tactic(auto)]

mod benches;
mod closing;
mod passes;
mod plays;
mod tables;
mod told;

pub use benches::SharedBench;
pub use passes::Pass;
pub use tables::{SharedTable, Words};
