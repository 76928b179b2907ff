//! What the leaves of guest operations mean, as a contract of a function that does nothing.

ghost use Rattle.access_core.specs.OperationTrees.{AddMeans, SetMeans, SharedLoadMeans, SharedStoreMeans, VmcallMeans};
ghost use Rattle.access_core.specs.RtmrTrees.{RtmrMeans};
ghost use Rattle.access_core.specs.ReportTrees.{ReportMeans};
ghost use Rattle.access_core.specs.AcceptTrees.{AcceptMeans};
ghost use Rattle.access_core.specs.WalkTrees.{WalksMean, WalksAreTold};
ghost use Rattle.access_core.specs.ReachTrees.{AccessesMean};
ghost use Rattle.access_core.specs.AcceptReach.{PendingIsUnreached, PendingMayBeFilled};

/// The leaves of `set`, `add`, `vmcall`, `rtmr`, `report` and `accept`, and of loads and stores of shared
/// words, mean their rows. The leaf that loads an entry in a guest's walk (`walk`) means that
/// event, and its answer tells how the walk goes on (`told`). The leaf of an access to a private
/// word through a cached translation means that event (`access`).
pub fn operations_mean()
    ensures set { SetMeans }
    ensures add { AddMeans }
    ensures vmcall { VmcallMeans }
    ensures load { SharedLoadMeans }
    ensures store { SharedStoreMeans }
    ensures rtmr { RtmrMeans }
    ensures report { ReportMeans }
    ensures accept { AcceptMeans }
    ensures walk { WalksMean }
    ensures access { AccessesMean }
    ensures told { WalksAreTold }
{}

/// Nobody reaches the page of an entry whose guest hasn't accepted it (`reach`), so the rules let
/// whoever holds P of it alone, with the locks of its TD's guest, store its zeros before the act
/// (`fill`).
pub fn pending_is_unreached()
    ensures reach { PendingIsUnreached }
    ensures fill { PendingMayBeFilled }
{}
