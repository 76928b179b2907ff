//! What calls answer.

use crate::names::{Access, EntryState, LifeState, LockName, OpState, PageKind};
use crate::refusals::Status;

/// What a call that succeeded answers.
#[derive(Clone, Copy, PartialEq, Eq)]
pub enum Value {
    Nothing,
    Number(u64),
    Life(LifeState),
    Op(OpState),
    /// A SHA-384 digest, MRTD's bytes in their order.
    Digest([u8; 48]),
    /// What the PAMT says of a page: its kind, the TDR page of its owner, and BEPOCH.
    Page {
        kind: PageKind,
        owner: u16,
        epoch: u32,
    },
    /// A secure EPT entry, and the page that it names where it isn't FREE.
    Entry {
        state: EntryState,
        page: Option<u16>,
    },
    /// What the act of VP.ENTER tells the logical processor that makes it: whether the translations
    /// that it has cached for the TD are dropped, the virtual processor's index, its position in its list
    /// of operations, and the root page of the TD's secure EPT. No line of a script is answered with
    /// it, since VP.ENTER is answered at the exit.
    Entered {
        stale: bool,
        index: u64,
        position: u64,
        root: u16,
    },
}

/// Why a virtual processor came back from the guest.
#[derive(Clone, Copy, PartialEq, Eq)]
pub enum Outcome {
    /// Its list of operations has come to its end.
    Stop,
    /// As many operations were completed as VP.ENTER asked for.
    Max,
    /// The guest told that word.
    Vmcall(u64),
    /// The access to that guest physical address isn't allowed.
    EptViolation { gpa: u64, access: Access },
    /// The operation's try of that lock was denied.
    Busy(LockName),
}

/// The answer to a call line.
#[derive(Clone, Copy, PartialEq, Eq)]
pub enum Reply {
    Done(Value),
    Refused(Status),
    Exited(Outcome),
}
