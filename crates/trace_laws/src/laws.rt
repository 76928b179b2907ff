//! The law of traces, as a contract of a function that does nothing.

ghost use Rattle.trace_laws.specs.Laws.{TurnsAreTold};

use leaf_engine::{leaves_follow, processors_follow};
use merge_laws::merge_law;

/// Each turn of a processor over words that show a state tells its next event there: its try with what
/// came of it, its undo, or its release, by the lock's name; and its act, which in a guest is the access,
/// the load of an entry or the count step that its guest's next step is. So in a run each turn that is
/// made at one go, where turns before it have led, tells the next event of the trace. The call line is the
/// one behind those that it has answered, and the reply is the one that its turn has put behind them. A
/// processor without a line left has no event in the trace.
pub fn turns_told()
    ensures { TurnsAreTold }
{
    leaves_follow();
    processors_follow();
    merge_law();
}
