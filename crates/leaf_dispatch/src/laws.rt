//! What the layers above may rest on, as the contract of a function that does nothing.

ghost use Rattle.leaf_dispatch.specs.Follows.{LpStatesFollow};
ghost use Rattle.leaf_dispatch.specs.Paused.{PausedStay};

/// A paused processor that can go on can do so with whatever bundles have come in besides, and then stands
/// where it stood.
pub fn paused_stay()
    ensures { PausedStay }
{}

/// Over words that show a state of the flat machine, the turn of an `LpState` that stands where that
/// state has its processor is the processor's next event, and its `Event` is the shown form of that one:
/// the words then show the state after it, and the `LpState` stands where that state has it. It has ended
/// exactly where no line is left. So it is in every state of a run, with whatever bundles have come in by
/// then, of scripts whose lists of operations are within the limits; and from the start on in every state
/// that a schedule of at most eight processors leads to.
pub fn lp_states_follow()
    ensures { LpStatesFollow }
{
    leaf_engine::processors_follow();
    trace_laws::turns_told();
    leaf_table::calls_have_leaves();
}
