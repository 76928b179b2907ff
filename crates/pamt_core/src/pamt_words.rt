//! PAMT entries as words.

ghost use Rattle.std.specs.Prelude.{◌≡◌};
ghost use Rattle.td_words.specs.Packing.{pamt_word, pamt_in, is_lawful_pamt, kind_of};

use std::marker::Model;
use td_words::PageKind;

/// What the PAMT says of a page (Base Architecture, "Physical Address Metadata Table"): its use,
/// the TDR page of its owner, and BEPOCH.
#[derive(Clone, Copy, Debug, PartialEq, Eq)]
pub struct PamtWord {
    pub kind: PageKind,
    pub owner: u16,
    pub epoch: u32,
}

impl Model for PamtWord {
    ghost use Rattle.td_words.specs.Packing.{Pamt};

    ghost Value = { Pamt };

    ghost view = { λ w. record { kind = w.kind; owner = w.owner; epoch = w.epoch } };

    ghost inverse = { λ p. record { kind = p.kind; owner = p.owner; epoch = p.epoch } };
}

impl PamtWord {
    /// Whether the owner is a page that a machine may have, and 0 beside a BEPOCH of 0 where the
    /// page is the host's.
    pub fn is_lawful(&self) -> bool
        ensures { result ≡ is_lawful_pamt self.now }
    {
        let PamtWord { kind, owner, epoch } = *self;
        let is_host = kind as u8 == PageKind::Nda as u8;
        owner < 1024 && (!is_host || owner == 0 && epoch == 0)
    }

    /// The word: bits 0 to 3 the kind's number, 4 to 19 the owner, 32 to 63 BEPOCH.
    pub fn pack(&self) -> u64
        ensures { result ≡ pamt_word self.now }
    {
        self.kind as u64 + 16 * self.owner as u64 + ((self.epoch as u64) << 32)
    }

    /// What a word says. None exactly where it is the packing of no lawful value.
    pub fn unpack(word: u64) -> Option<PamtWord>
        ensures { result ≡ pamt_in word }
    {
        let kind = page_kind((word % 16) as u8)?;
        let read = PamtWord {
            kind,
            owner: (word / 16 % 65536) as u16,
            epoch: (word >> 32) as u32,
        };
        if read.is_lawful() && read.pack() == word {
            Some(read)
        } else {
            None
        }
    }
}

/// The use of a page that has this number.
fn page_kind(number: u8) -> Option<PageKind>
    ensures { result ≡ kind_of number }
{
    match number {
        0 => Some(PageKind::Nda),
        1 => Some(PageKind::Reg),
        2 => Some(PageKind::Tdr),
        3 => Some(PageKind::Tdcx),
        4 => Some(PageKind::Tdvpr),
        5 => Some(PageKind::Ept),
        6 => Some(PageKind::Migsc),
        _ => None,
    }
}
