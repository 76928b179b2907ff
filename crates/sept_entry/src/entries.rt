//! Secure EPT entries as words.

ghost use Rattle.std.specs.Prelude.{◌≡◌};
ghost use Rattle.td_words.specs.Packing.{entry_word, entry_in, is_lawful_entry, entry_state_of, is_exported};

use std::marker::Model;
use td_words::EntryState;

/// What a secure EPT entry says (Base Architecture, "Secure EPT Entry"): its state, the page that
/// it names, and in an exported state the migration epoch of the last export.
#[derive(Clone, Copy, Debug, PartialEq, Eq)]
pub struct Entry {
    pub state: EntryState,
    pub page: u16,
    pub mark: u32,
}

impl Model for Entry {
    ghost use Rattle.td_words.specs.Packing.{Entry as EntrySeen};

    ghost Value = { EntrySeen };

    ghost view = { λ e. record { state = e.state; page = e.page; mark = e.mark } };

    ghost inverse = { λ e. record { state = e.state; page = e.page; mark = e.mark } };
}

impl Entry {
    /// Whether the page is one that a machine may have, and 0 in FREE, and the mark differs from 0
    /// exactly in the exported states.
    pub fn is_lawful(&self) -> bool
        ensures { result ≡ is_lawful_entry self.now }
    {
        let Entry { state, page, mark } = *self;
        let is_free = state as u8 == EntryState::Free as u8;
        page < 1024 && (!is_free || page == 0) && has_mark(state) == (mark != 0)
    }

    /// The word: bits 0 to 3 the state's number, 4 to 19 the page, 32 to 63 the mark.
    pub fn pack(&self) -> u64
        ensures { result ≡ entry_word self.now }
    {
        self.state as u64 + 16 * self.page as u64 + ((self.mark as u64) << 32)
    }

    /// What a word says. None exactly where it is the packing of no lawful entry.
    pub fn unpack(word: u64) -> Option<Entry>
        ensures { result ≡ entry_in word }
    {
        let state = entry_state((word % 16) as u8)?;
        let read = Entry {
            state,
            page: (word / 16 % 65536) as u16,
            mark: (word >> 32) as u32,
        };
        if read.is_lawful() && read.pack() == word {
            Some(read)
        } else {
            None
        }
    }
}

/// Whether a state comes after an export, and so keeps a mark.
fn has_mark(state: EntryState) -> bool
    ensures { result ≡ is_exported state }
{
    match state {
        EntryState::ExportedBlockedW
        | EntryState::ExportedDirty
        | EntryState::ExportedDirtyBlockedW => true,
        _ => false,
    }
}

/// The state that has this number.
fn entry_state(number: u8) -> Option<EntryState>
    ensures { result ≡ entry_state_of number }
{
    match number {
        0 => Some(EntryState::Free),
        1 => Some(EntryState::Mapped),
        2 => Some(EntryState::Blocked),
        3 => Some(EntryState::Pending),
        4 => Some(EntryState::PendingBlocked),
        5 => Some(EntryState::NlMapped),
        6 => Some(EntryState::NlBlocked),
        7 => Some(EntryState::BlockedW),
        8 => Some(EntryState::ExportedBlockedW),
        9 => Some(EntryState::ExportedDirty),
        10 => Some(EntryState::ExportedDirtyBlockedW),
        _ => None,
    }
}
