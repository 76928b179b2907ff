//! A logical processor at its bench.

use trace_table::SharedBench;

/// A logical processor, its number, and its way to the words of a table.
#[derive(Drop)]
pub struct Lane<'t, P> {
    pub lp: u8,
    pub processor: P,
    pub bench: SharedBench<'t>,
}
