//! Runs without a schedule: each processor runs to its end before the next one begins.
//!
//! Then nobody holds a lock that another one tries, so that each call is as good as done at once,
//! where none enters a guest. A layer above may use `in_number_order` to tell what such a run prints
//! and where it ends.
#![tactic(auto)]

ghost use Rattle.flat_alone.specs.Whole.{EachCallAtOnce, EndsInTheirWorld};

/// A run without a schedule whose calls enter no guest prints the replies of its calls, each done at
/// once, one after another, and ends in the world after them.
pub fn in_number_order()
    ensures prints { EachCallAtOnce }
    ensures world { EndsInTheirWorld }
{
    flat_core::end_laws();
}
