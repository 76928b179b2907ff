//! What a leaf asks for, and what it writes.

use mrtd_measure::Measure;
use step_core::WordStep;
use td_words::{LockName, Machine, Mode, Reply};

/// The machine and the logical processor that a leaf is made for.
#[derive(Clone, Copy, Debug, PartialEq, Eq)]
pub struct Place {
    pub machine: Machine,
    pub lp: u8,
}

/// What a leaf needs next: a lock, whose word stands at that address; the word at an address; or
/// nothing more, since it has come to its reply.
#[derive(Clone, Copy, Debug, PartialEq, Eq)]
pub enum Need {
    Lock { name: LockName, at: u32, mode: Mode },
    Load(u32),
    Verdict(Reply),
}

/// A write of a leaf's act: a word step; a page that is cleared, or copied; or an exchange of the
/// hasher in a slot with the one in hand.
#[derive(Clone, Copy, Debug, PartialEq, Eq)]
pub enum Write {
    Word(WordStep),
    Zero(u16),
    Copy { from: u16, to: u16 },
    Swap(u8),
}

/// The hasher in a leaf's hand.
pub type Hand = Option<Measure>;

ghost use Rattle.std.specs.Prelude.{◌≡◌};

impl Write {
    /// The store of a word.
    pub fn store(at: u32, word: u64) -> Write
        ensures { result ≡ Write.Word (WordStep.Store at word) }
    {
        Write::Word(WordStep::Store(at, word))
    }
}

impl Default for Write {
    fn default() -> Write {
        Write::Zero(0)
    }
}
