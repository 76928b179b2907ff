//! Why a log can't be read.

ghost use Rattle.std.specs.Prelude.{◌≡◌};
ghost use Rattle.reply_logs.specs.declared.faults.LogFault.TheVariants.{Bad, OutOfMemory};

use std::alloc::{AllocError, AllocFailed};
use std::fmt;

/// What is wrong with a line. Where several reasons hold, the first in this order counts.
#[derive(Clone, Copy, Debug, PartialEq, Eq)]
pub enum LogReason {
    /// The log is longer than 2^24 bytes.
    Length,
    /// The last line has no newline.
    Unterminated,
    /// A byte stands there that isn't printable ASCII.
    Byte,
    /// The first word is the number of no call line of the script.
    Place,
    /// No reply stands behind it.
    Reply,
    /// An earlier line has a reply of that call line.
    Twice,
}

/// Why a log can't be read: its first bad line, numbered from 1 (0 where the whole log is too long), or
/// memory wasn't found.
#[derive(Clone, Copy, Debug, PartialEq, Eq)]
pub enum LogFault {
    Bad { line: u64, reason: LogReason },
    OutOfMemory,
}

/// The fault of a line.
pub fn bad(line: u64, reason: LogReason) -> LogFault
    ensures { result ≡ Bad line reason }
{
    LogFault::Bad { line, reason }
}

impl From<AllocError> for LogFault {
    ghost from_gives = { λ _ e. e ≡ OutOfMemory };

    fn from(_e: AllocError) -> LogFault {
        LogFault::OutOfMemory
    }
}

impl<T: Drop> From<AllocFailed<T>> for LogFault {
    ghost from_gives = { λ _ e. e ≡ OutOfMemory };

    fn from(_e: AllocFailed<T>) -> LogFault {
        LogFault::OutOfMemory
    }
}

impl fmt::Display for LogReason {
    ghost use Rattle.std.specs.Prelude.{Some};
    ghost use Rattle.reply_logs.specs.Logs.{reason_text};

    ghost output = { λ r. Some (reason_text r) };

    fn fmt<W: fmt::Write>(&self, f: &mut fmt::Formatter<W>) -> fmt::Result {
        let text = match self {
            LogReason::Length => "LENGTH",
            LogReason::Unterminated => "UNTERMINATED",
            LogReason::Byte => "BYTE",
            LogReason::Place => "PLACE",
            LogReason::Reply => "REPLY",
            LogReason::Twice => "TWICE",
        };
        f.write_str(text)
    }
}
