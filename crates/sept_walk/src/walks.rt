//! A walk of the secure EPT, told entry by entry (Base Architecture, "Secure EPT Walk").

ghost use Rattle.std.specs.Prelude.{◌≡◌, ◌<◌, ◌≤◌, ◌^◌};
ghost use Rattle.sept_walk.specs.SecureEpt.{index_at};
ghost use Rattle.sept_walk.specs.Steps.{walk_from, address_of, answer_to, walk_after};

use sept_entry::Entry;
use std::marker::Model;
use td_words::{EntryState, word_address};

/// A walk to the secure EPT entry of a level that maps a GPA.
#[derive(Clone, Copy, Debug, PartialEq, Eq)]
pub struct Walk {
    page: u16,
    level: u8,
    gpa: u64,
    wanted: u8,
}

/// What a walk says of the entry that it was told.
#[derive(Clone, Copy, Debug, PartialEq, Eq)]
pub enum Walked {
    /// It needs the entry of the level below.
    More,
    /// This is the entry of the wanted level.
    Found(Entry),
    /// The entry of this level, above the wanted one, isn't NL_MAPPED.
    Failed(u8),
}

impl Model for Walk {
    ghost use Rattle.std.specs.Prelude.{◌≤◌};
    ghost use Rattle.sept_walk.specs.Seen.{Walk as WalkSeen};

    ghost Value = { WalkSeen };

    ghost view = { λ k. record { page = k.page; level = k.level; gpa = k.gpa; wanted = k.wanted } };

    ghost invariant = { λ k. (k.wanted ≤ k.level) × (k.level ≤ 3) };

    ghost inverse = { λ k. record { page = k.page; level = k.level; gpa = k.gpa; wanted = k.wanted } };
}

impl Walk {
    /// A walk from a root to the entry of a level, 0 to 3, that maps a GPA below 2^47.
    pub fn new(root: u16, gpa: u64, level: u8) -> Walk
        requires level_in_range { level ≤ 3 }
        requires gpa_in_range { gpa < 2 ^ 47 }
        ensures { result ≡ walk_from root gpa level }
    {
        Walk {
            page: root,
            level: 3,
            gpa,
            wanted: level,
        }
    }

    /// The word address of the entry to load next.
    pub fn address(&self) -> u32
        ensures { result ≡ address_of self.now }
    {
        word_address(self.page, index(self.level, self.gpa))
    }

    /// Tells the entry at that address. More is answered behind an upper entry that is NL_MAPPED;
    /// with any other answer the walk stays where it is.
    pub fn tell(&mut self, entry: Entry) -> Walked
        ensures answer { result ≡ answer_to self.old entry }
        ensures walk { self.new ≡ walk_after self.old entry }
    {
        if self.level == self.wanted {
            Walked::Found(entry)
        } else if entry.state as u8 == EntryState::NlMapped as u8 {
            self.page = entry.page;
            self.level -= 1;
            Walked::More
        } else {
            Walked::Failed(self.level)
        }
    }
}

/// Where the entry of a level that maps a GPA stands in its page: the nine bits of that level.
pub fn index(level: u8, gpa: u64) -> u16
    requires { level ≤ 3 }
    ensures index { result ≡ index_at level gpa }
    ensures below { result < 512 }
{
    let number = match level {
        0 => gpa >> 12,
        1 => gpa >> 21,
        2 => gpa >> 30,
        _ => gpa >> 39,
    };
    (number % 512) as u16
}
