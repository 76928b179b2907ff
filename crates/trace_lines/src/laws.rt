//! Laws of traces, as contracts of functions that do nothing.

ghost use Rattle.trace_lines.specs.Laws.{TracesGoOn, TracesTell};
ghost use Rattle.trace_lines.specs.Worked.{Examples};

/// The trace of a run numbers its events from 1, and tells just the replies that the run gives: those of
/// each processor, in its order.
pub fn traces_tell()
    ensures { TracesTell }
{
    flat_core::event_laws();
    flat_core::end_laws();
}

/// The trace of events one after another is made of the traces of each. An item of a processor that has
/// ended changes nothing, and neither does one more of a processor before which all have ended, where the
/// run goes on to its end; and where all have ended nothing is left.
pub fn traces_go_on()
    ensures { TracesGoOn }
{
    flat_core::event_laws();
    flat_core::end_laws();
}

/// Two traces are written out, and compute: of three processors that meet at a page's lock, where one is
/// denied a shared try and another an exclusive one; and of an entry whose guest loads a word, from the
/// tries of VP.ENTER over the walk to the releases behind the count step.
pub fn worked_traces()
    ensures { Examples }
{}
