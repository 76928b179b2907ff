//! Logical processors in threads are a run of the flat machine.
//!
//! Stands on `lp_threads`, which leaves each lane at its processor's end, on `trace_table`, whose close tells
//! that the lists of a table's benches merge, and on the laws of `merge_laws` and `leaf_table`. A layer
//! above may use `threads_are_runs`: whatever the threads did, it is what the flat machine does under some
//! schedule.
#![tactic(auto)]

mod laws;

pub use laws::threads_are_runs;
