//! Why a script can't be read.

ghost use Rattle.std.specs.Prelude.{◌≡◌};
ghost use Rattle.script_text.specs.declared.faults.ScriptFault.TheVariants.{OutOfMemory};

use std::alloc::{AllocError, AllocFailed};
use std::fmt;

/// What is wrong with a line. Where several reasons hold, the first in this order counts.
#[derive(Clone, Copy, Debug, PartialEq, Eq)]
pub enum Reason {
    /// The script is longer than 2^24 bytes.
    Length,
    /// The last line has no newline.
    Unterminated,
    /// A byte stands there that isn't printable ASCII.
    Byte,
    /// `machine` isn't the first line, or comes again.
    Machine,
    /// `end` outside a block, or `schedule`, `code` or `lp` inside one.
    Place,
    /// The first word is none that may stand there.
    Word,
    /// There are too few or too many words.
    Count,
    /// A word that must be a number isn't one.
    Number,
    /// A field has no such name.
    Name,
    /// A number that the grammar judges is out of range.
    Range,
    /// A second block for the same processor or list.
    Repeated,
    /// More calls, operations or schedule items than there may be.
    Full,
    /// An output slot that an earlier line named.
    Slot,
    /// The script ends inside a block.
    Endless,
}

/// Why a script can't be read: its first bad line, numbered from 1 (0 where the whole script is
/// too long), or memory wasn't found.
#[derive(Clone, Copy, Debug, PartialEq, Eq)]
pub enum ScriptFault {
    Bad { line: u64, reason: Reason },
    OutOfMemory,
}

/// What comes of taking in a line, or a part of one.
pub type Taken = Result<(), ScriptFault>;

/// The fault of a line.
pub fn bad(line: u64, reason: Reason) -> ScriptFault
    ensures { result ≡ ScriptFault.Bad line reason }
{
    ScriptFault::Bad { line, reason }
}

impl From<AllocError> for ScriptFault {
    ghost from_gives = { λ _ e. e ≡ OutOfMemory };

    fn from(_e: AllocError) -> ScriptFault {
        ScriptFault::OutOfMemory
    }
}

impl<T: Drop> From<AllocFailed<T>> for ScriptFault {
    ghost from_gives = { λ _ e. e ≡ OutOfMemory };

    fn from(_e: AllocFailed<T>) -> ScriptFault {
        ScriptFault::OutOfMemory
    }
}

impl fmt::Display for Reason {
    ghost use Rattle.std.specs.Prelude.{Some};
    ghost use Rattle.script_text.specs.ReasonText.{reason_text};

    ghost output = { λ r. Some (reason_text r) };

    fn fmt<W: fmt::Write>(&self, f: &mut fmt::Formatter<W>) -> fmt::Result {
        match self {
            Reason::Length => write!(f, "LENGTH"),
            Reason::Unterminated => write!(f, "UNTERMINATED"),
            Reason::Byte => write!(f, "BYTE"),
            Reason::Machine => write!(f, "MACHINE"),
            Reason::Place => write!(f, "PLACE"),
            Reason::Word => write!(f, "WORD"),
            Reason::Count => write!(f, "COUNT"),
            Reason::Number => write!(f, "NUMBER"),
            Reason::Name => write!(f, "NAME"),
            Reason::Range => write!(f, "RANGE"),
            Reason::Repeated => write!(f, "REPEATED"),
            Reason::Full => write!(f, "FULL"),
            Reason::Slot => write!(f, "SLOT"),
            Reason::Endless => write!(f, "ENDLESS"),
        }
    }
}
