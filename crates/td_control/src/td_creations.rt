//! MNG.CREATE.

use leaf_engine::{Act, Hand, Place, Plan, Stop, Told, Verdict, Write};
use leaf_parts::{is_hkid, owner_word, says_free, says_host};
use td_words::places::{KEY_FIRST, KEY_LOCK, TDR_HKID};
use td_words::{
    HkidState, LockName, Mode, PageKind, Status, key_address, lock_address, pamt_address,
    word_address,
};

/// MNG.CREATE TDR HKID: a host page becomes the TDR of a new TD, to which a free HKID is assigned.
#[derive(Drop)]
pub struct Create {
    place: Place,
    tdr: u64,
    hkid: u64,
}

impl Create {
    ghost use Rattle.std.specs.Prelude.{◌≡◌};
    ghost use Rattle.td_control.specs.CreationTrees.{create_task};

    /// The plan of a call at a place.
    pub fn plan(place: Place, tdr: u64, hkid: u64) -> Create
        ensures { ⟦<Create as Plan>⟧.task result ≡ create_task place tdr hkid }
    {
        Create { place, tdr, hkid }
    }
}

impl Plan for Create {
    ghost use Rattle.std.specs.Prelude.{◌&&◌, nat_lt};
    ghost use Rattle.leaf_parts.specs.Words.{is_hkid};
    ghost use Rattle.td_control.specs.CreationTrees.{create_task, create_changes};
    ghost use Rattle.td_control.specs.CreationMeanings.{create-means};

    ghost task = { λ l. create_task l.place l.tdr l.hkid };

    ghost changes = { λ l told a. create_changes l.tdr l.hkid };

    ghost shown = { λ l told a. nat_lt l.tdr l.place.machine.pages && is_hkid l.place.machine l.hkid };

    fn decide(&self, told: Told) -> Result<Verdict, Stop> {
        let mut told = told;
        let pages = self.place.machine.pages;
        told.check(self.tdr < u64::from(pages), Status::OperandInvalid(1))?;
        told.check(
            is_hkid(self.place.machine, self.hkid),
            Status::OperandInvalid(2),
        )?;
        let tdr = self.tdr as u16;
        told.lock(LockName::Page(tdr), lock_address(tdr), Mode::Exclusive)?;
        let pamt = told.load(pamt_address(tdr))?;
        told.check(says_host(pamt), Status::PageMetadataIncorrect(tdr))?;
        told.lock(
            LockName::Keys,
            key_address(pages, KEY_LOCK),
            Mode::Exclusive,
        )?;
        let at = key_address(pages, KEY_FIRST + (self.hkid as u16 - 1));
        let key = told.load(at)?;
        told.check(says_free(key), Status::HkidNotFree)?;
        Ok(Verdict::done(Act::NONE))
    }

    // The HKID's word is the act; then the page is cleared, becomes the TDR page, and gets the HKID.
    fn write(&self, _act: Act, _told: &[u64], number: usize, _hand: &mut Hand) -> Option<Write> {
        let pages = self.place.machine.pages;
        let tdr = self.tdr as u16;
        let write = match number {
            0 => {
                let key = key_address(pages, KEY_FIRST + (self.hkid as u16 - 1));
                Write::store(key, HkidState::Assigned as u64 + 16 * self.tdr)
            }
            1 => Write::Zero(tdr),
            2 => Write::store(pamt_address(tdr), owner_word(PageKind::Tdr, tdr)),
            3 => Write::store(word_address(tdr, TDR_HKID), self.hkid),
            _ => return None,
        };
        Some(write)
    }

    ghost means = { λ l. create-means l.place l.tdr l.hkid };
}
