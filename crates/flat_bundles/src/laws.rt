//! The laws of the bundles of a run's lines, as the contracts of functions that do nothing.

ghost use Rattle.flat_bundles.specs.Bundles.{CallsAddTheirOwn, LinesAreKept, BundlesAreOfLines};
ghost use Rattle.flat_bundles.specs.Ended.{OwnHaveEnded, EndedStay, AllHaveEnded, OthersHaveEnded};
ghost use Rattle.flat_bundles.specs.Taken.{CallsTakeTheirOwn, CallsNeedTheirOwn, RunsTakeTheirOwn, RunsGoOnAlike};
ghost use Rattle.flat_bundles.specs.Counters.{CountersAreKept, CountersDiffer};
ghost use Rattle.flat_bundles.specs.Formed.{EveryBundleIsFormed, FormsAreKept};

/// The act of a call that names an output slot adds one bundle in that slot, of at most 512 words,
/// behind those before; the act of any other call adds none. So in every state of every run each
/// bundle is in a slot that a line names, where no two lines name one slot no two bundles are in one,
/// and none has more than 512 words. A run without such lines makes none. One event keeps it, whatever
/// bundles have come in: those that were made and the calls that are still to act name no slot oftener
/// than all calls do.
pub fn bundle_law()
    ensures calls { CallsAddTheirOwn }
    ensures kept { LinesAreKept }
    ensures runs { BundlesAreOfLines }
{}

/// A bundle is out from the last event of its call on: no line that isn't done names its slot. An event
/// takes none back, whatever has come in, and at the end of a run all are out. Where no two lines name
/// one slot, those of one processor go by its own lines alone, and no bundle is kept back but while its
/// call, which has acted, still holds a lock.
pub fn ended_law()
    ensures own { OwnHaveEnded }
    ensures stay { EndedStay }
    ensures end { AllHaveEnded }
    ensures others { OthersHaveEnded }
{}

/// A call takes the bundle in the input slot that it names, and no other. Where that bundle is the same
/// its row is the same, whatever is in the other slots, and so the row of a call that names no input slot
/// always is; where there is none its conditions never all hold. So a run goes by the bundles in the
/// slots that its lines name alone: where none names one, by nothing that comes in. And two runs under
/// one schedule, with other lines and other bundles, are the same up to the first line that differs, or
/// that takes another bundle. So a source that runs once more, with further lines and the token that came
/// back, makes the same bundles up to the line that takes it.
pub fn input_law()
    ensures calls { CallsTakeTheirOwn }
    ensures needs { CallsNeedTheirOwn }
    ensures runs { RunsTakeTheirOwn }
    ensures alike { RunsGoOnAlike }
{}

/// Where no guest's code has more than 256 operations, each bundle that a run makes has the form of its
/// type: its header is lawful, with whatever tag, and its payload has the length that its kind wants.
/// So what a run seals is read again as it was made. One event keeps it, whatever bundles have come in.
pub fn form_law()
    ensures kept { FormsAreKept }
    ensures runs { EveryBundleIsFormed }
{}

/// A stream counts one bundle a call at most. In a run of fewer than 2^32 - 1 lines no stream's counter has
/// its last value, at which its row takes no bundle whatever the bundle's counter is; so no call is refused
/// with BUNDLE_COUNTER and two equal numbers. One event keeps it, whatever bundles have come in.
pub fn counter_law()
    ensures kept { CountersAreKept }
    ensures runs { CountersDiffer }
{}
