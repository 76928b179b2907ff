//! Events as they are told.

use td_words::{Access, LockName, Mode, Reply};

/// What an event was: the try of a lock; the undo of a shared try that was denied; an act, or a refusal
/// by a condition; the load of the entry of that level in a guest's walk for that guest physical
/// address; a guest's access to the word at that address, in that page; the count step with which a
/// guest is left; and the release of a lock.
#[derive(Clone, Copy, PartialEq, Eq)]
pub enum What {
    Tries {
        lock: LockName,
        mode: Mode,
        granted: bool,
    },
    Undoes(LockName),
    Acts,
    Walks {
        gpa: u64,
        level: u8,
    },
    Accesses {
        access: Access,
        gpa: u64,
        page: u16,
    },
    Counts,
    Releases(LockName),
}

/// An event of a run: its number, from 1; its processor; the call line that the processor is at, from 1;
/// what it was; and the reply of that line, if the call ended with it.
#[derive(Clone, Copy, PartialEq, Eq)]
pub struct Traced {
    pub number: u64,
    pub lp: u8,
    pub line: u32,
    pub what: What,
    pub reply: Option<Reply>,
}
