//! A thread for each logical processor.
//!
//! Stands on `leaf_engine`, whose `Processor` makes the turns and whose `Gate` is asked before each of
//! them, and on `trace_table`, whose `SharedBench` is each processor's own way to the words that all of
//! them share. `run_all` halves its lanes until it has one in each thread. A layer above may use that
//! each lane is then ended, by turns of its own processor alone, and that its bench's own list has just
//! the items of these turns more (`specs/Running`). It isn't said in which order the turns of several
//! lanes came: what their lists have in common is told by the close of their table.
#![tactic(auto)]

mod lanes;
mod runs;
#[cfg(test)]
mod tests;

pub use lanes::Lane;
pub use runs::run_all;
