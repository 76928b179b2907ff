//! The law of threads, as a contract of a function that does nothing.

ghost use Rattle.thread_runs.specs.Threads.{ThreadsAreRuns};

use leaf_table::calls_have_leaves;
use merge_laws::merge_law;

/// Where each of a script's processors ran in a thread to the end of its calls, and the lists of their
/// benches merge to the words that their table was closed with, their pieces merge too. So there is a
/// schedule under which the flat machine's run ends where each processor is, with its replies, notes and
/// told words, in a state that the words show.
pub fn threads_are_runs()
    ensures { ThreadsAreRuns }
{
    merge_law();
    calls_have_leaves();
}
