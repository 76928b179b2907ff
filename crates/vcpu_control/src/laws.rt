//! What the layers above may rest on, as a contract of a function that does nothing.

ghost use Rattle.vcpu_control.specs.EnterTrees.{EntryMeans};
ghost use Rattle.vcpu_control.specs.ExitTrees.{ExitMeans};

/// The leaf of VP.ENTER means its row: its one addition to the count of TD_EPOCH's parity is the act,
/// behind which the association and the last epoch are still to be stored, its guest begins, and the
/// TD's translations are dropped where they may be stale.
pub fn entry_means()
    ensures { EntryMeans }
{}

/// The leaf of an exit's count step means that step: under the locks of its VP.ENTER alone, its one
/// addition of 2^64 - 1 is the act, which takes one off the count of the parity of the epoch at which
/// the virtual processor entered, and nothing is still to be stored behind it.
pub fn exit_means()
    ensures { ExitMeans }
{}
