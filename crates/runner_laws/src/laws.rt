//! The law of the one host that runs a TD, as the contract of a function that does nothing.

ghost use Rattle.runner_laws.specs.Runner.{SentTdsRest, CommitsAreKept, NoneGivenBack, CommitsAreStarted, SourcesRest, PausedSourcesStay, DestinationsWait, AtMostOneRuns};
ghost use Rattle.runner_laws.specs.Kept.{SentIsKept, SentRests, DueIsKept, DueWaits, CommitsHaveStarts, TwoAreKept};

/// Of two hosts that both hold a TD, at most one runs it. Take any two runs, where each bundle of types 0
/// to 5 that comes into the destination and opens, of whatever session, is made by the source in its run,
/// and each of type 6 that comes into the source and opens is made by the destination in its run, soon or
/// late: so it is unless a tag was forged, a third run had the same key file, or one of them both exported
/// and imported under it. A TD that the source paused under a session, and one that the destination imported
/// under it, neither torn down since, don't both have a guest on a processor, wherever the two runs stand.
///
/// A TD with a start token rests: after one event of any processor it still does, or it is torn down, or
/// the processor's call was EXPORT.ABORT with the slot of a bundle that opens, of type 6 and of its
/// session. The run that committed a session makes no such bundle of it, which one event keeps, whatever
/// bundles have come in: its import was the only one under that number, and is over. And it has a start
/// token. So where the destination commits the import, the source's TD stays paused until it is torn
/// down, and rests from its start token on. Before the commit the destination's doesn't run, nor does it
/// ever where the import was given up.
pub fn one_runner_law()
    ensures rests { SentTdsRest }
    ensures kept { CommitsAreKept }
    ensures tokens { NoneGivenBack }
    ensures commits { CommitsAreStarted }
    ensures sources { SourcesRest }
    ensures paused { PausedSourcesStay }
    ensures destinations { DestinationsWait }
    ensures one { AtMostOneRuns }
{}

/// The same by one event, whatever bundles have come in, so of two hosts that run at the same time. A TD
/// that is exported under a session stays so, and paused where it was, unless it is torn down or a token
/// back of its session has come in; or its session has ended and never gets a start token. With a start
/// token it rests, and doesn't run. A TD that is imported waits, and doesn't run, until its session is
/// committed, which has its start token from the source. Of two hosts that both hold a TD, the source's
/// paused, each event of either keeps what that rests on, where each token back that has come into the
/// source was made by the destination: so at most one of the two runs.
pub fn one_event_law()
    ensures sent { SentIsKept }
    ensures rests { SentRests }
    ensures due { DueIsKept }
    ensures waits { DueWaits }
    ensures starts { CommitsHaveStarts }
    ensures two { TwoAreKept }
{}
