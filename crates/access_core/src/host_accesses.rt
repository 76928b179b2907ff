//! HOST.READ and HOST.WRITE.

use leaf_engine::{Act, Hand, Place, Plan, Stop, Told, Verdict, Write};
use leaf_parts::says_host;
use td_words::{LockName, Mode, Status, Value, lock_address, pamt_address, word_address};

/// HOST.READ PAGE WORD: the word of a host page, and 0 of any other page.
#[derive(Drop)]
pub struct HostRead {
    place: Place,
    page: u64,
    word: u64,
}

impl HostRead {
    ghost use Rattle.std.specs.Prelude.{◌≡◌};
    ghost use Rattle.access_core.specs.HostTrees.{host_read_task};

    /// The plan of a call at a place.
    pub fn plan(place: Place, page: u64, word: u64) -> HostRead
        ensures { ⟦<HostRead as Plan>⟧.task result ≡ host_read_task place page word }
    {
        HostRead { place, page, word }
    }
}

impl Plan for HostRead {
    ghost use Rattle.std.specs.Prelude.{true, []};
    ghost use Rattle.access_core.specs.HostTrees.{host_read_task};
    ghost use Rattle.access_core.specs.HostMeanings.{host_read-means};

    ghost task = { λ l. host_read_task l.place l.page l.word };

    ghost changes = { λ l told a. [] };

    ghost shown = { λ l told a. true };

    fn decide(&self, told: Told) -> Result<Verdict, Stop> {
        let mut told = told;
        let pages = self.place.machine.pages;
        told.check(self.page < u64::from(pages), Status::OperandInvalid(1))?;
        told.check(self.word < 512, Status::OperandInvalid(2))?;
        let page = self.page as u16;
        told.lock(LockName::Page(page), lock_address(page), Mode::Shared)?;
        let pamt = told.load(pamt_address(page))?;
        let word = if says_host(pamt) {
            told.load(word_address(page, self.word as u16))?
        } else {
            0
        };
        Ok(Verdict::answer(Value::Number(word)))
    }

    fn write(&self, _act: Act, _told: &[u64], _number: usize, _hand: &mut Hand) -> Option<Write> {
        None
    }

    ghost means = { λ l. host_read-means l.place l.page l.word };
}

/// HOST.WRITE PAGE WORD VALUE: puts the value into a word of a host page.
#[derive(Drop)]
pub struct HostWrite {
    place: Place,
    page: u64,
    word: u64,
    value: u64,
}

impl HostWrite {
    ghost use Rattle.std.specs.Prelude.{◌≡◌};
    ghost use Rattle.access_core.specs.HostTrees.{host_write_task};

    /// The plan of a call at a place.
    pub fn plan(place: Place, page: u64, word: u64, value: u64) -> HostWrite
        ensures { ⟦<HostWrite as Plan>⟧.task result ≡ host_write_task place page word value }
    {
        HostWrite {
            place,
            page,
            word,
            value,
        }
    }
}

impl Plan for HostWrite {
    ghost use Rattle.std.specs.Prelude.{◌&&◌, nat_lt, [], ◌∷◌};
    ghost use Rattle.td_words.specs.Place.{Word};
    ghost use Rattle.leaf_engine.specs.Changes.{Put};
    ghost use Rattle.access_core.specs.HostTrees.{host_write_task};
    ghost use Rattle.access_core.specs.HostMeanings.{host_write-means};

    ghost task = { λ l. host_write_task l.place l.page l.word l.value };

    ghost changes = { λ l told a. Put (Word l.page l.word) l.value ∷ [] };

    ghost shown = { λ l told a. nat_lt l.page l.place.machine.pages && nat_lt l.word 512 };

    fn decide(&self, told: Told) -> Result<Verdict, Stop> {
        let mut told = told;
        let pages = self.place.machine.pages;
        told.check(self.page < u64::from(pages), Status::OperandInvalid(1))?;
        told.check(self.word < 512, Status::OperandInvalid(2))?;
        let page = self.page as u16;
        told.lock(LockName::Page(page), lock_address(page), Mode::Shared)?;
        let pamt = told.load(pamt_address(page))?;
        told.check(says_host(pamt), Status::NotHost)?;
        Ok(Verdict::done(Act::NONE))
    }

    fn write(&self, _act: Act, _told: &[u64], number: usize, _hand: &mut Hand) -> Option<Write> {
        let _pages = self.place.machine.pages;
        let at = word_address(self.page as u16, self.word as u16);
        match number {
            0 => Some(Write::store(at, self.value)),
            _ => None,
        }
    }

    ghost means = { λ l. host_write-means l.place l.page l.word l.value };
}
