//! Events, and what a run knows between them.

use td_words::{LockName, Mode, Reply};

/// An event of a processor: of a call or an operation its tries, undos, act and releases; of a
/// guest's private access the load of an entry of that level in its walk, and the word at that
/// address; and the step that takes a virtual processor off an epoch count, by its parity.
#[derive(Clone, Copy, Debug, PartialEq, Eq)]
pub enum Event {
    Try {
        lock: LockName,
        mode: Mode,
        granted: bool,
    },
    Undo(LockName),
    Act,
    Free(LockName),
    Walk(u8),
    Word(u32),
    Count(u8),
}

/// A turn's event, and the reply at the last one.
#[derive(Clone, Copy, Debug, PartialEq, Eq)]
pub struct RunTurn {
    pub event: Event,
    pub reply: Option<Reply>,
}

/// A lock that a leaf holds, by its name, the address of its word, and how.
#[derive(Clone, Copy, Debug, PartialEq, Eq)]
pub struct HeldLock {
    pub name: LockName,
    pub at: u32,
    pub mode: Mode,
}

impl Default for HeldLock {
    fn default() -> HeldLock {
        HeldLock {
            name: LockName::Keys,
            at: 0,
            mode: Mode::Shared,
        }
    }
}

/// How far a leaf is: on its way, before the undo of a shared try that was denied, or answered.
#[derive(Clone, Copy, Debug, PartialEq, Eq)]
pub enum Stage {
    Trying,
    Undoing { name: LockName, at: u32 },
    Answered(Reply),
}
