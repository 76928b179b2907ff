//! A bench while it is at no table.

ghost use Rattle.trace_table.specs.Views.{IsAtRest};

use crate::told::Place;

/// What a bench takes along from one table reference to the next: its lists, and how many benches it
/// has out. It has no bytes.
#[derive(Drop)]
pub struct Pass {
    pub(crate) seat: Place,
    ghost rest: { IsAtRest seat },
}
