//! Loads and stores of shared words.

ghost use Rattle.std.specs.Prelude.{◌<◌};

use crate::guest_words::{answer, register_address, shared_page, store_next, word_of_gpa};
use leaf_engine::{Act, Hand, Place, Plan, Stop, Told, Verdict, Write};
use leaf_parts::says_host;
use td_words::places::VP_POSITION;
use td_words::{
    Access, LockName, Mode, Outcome, Reply, Value, lock_address, pamt_address, word_address,
};

/// `load R GPA` of a shared GPA, at a call line: a register gets the word of the host's page.
#[derive(Drop)]
pub struct SharedLoad {
    place: Place,
    tdr: u16,
    vp: u16,
    line: usize,
    register: u8,
    gpa: u64,
    ghost inside: { vp < place.machine.pages },
    ghost few: { register < 8 },
}

impl SharedLoad {
    ghost use Rattle.std.specs.Prelude.{◌≡◌, ◌<◌};
    ghost use Rattle.access_core.specs.OperationTrees.{shared_load_task};

    /// The plan of an operation of a virtual processor, at a place.
    pub fn plan(place: Place, tdr: u16, vp: u16, line: usize, register: u8, gpa: u64) -> SharedLoad
        requires inside { vp < place.machine.pages }
        requires few { register < 8 }
        ensures { ⟦<SharedLoad as Plan>⟧.task result ≡ shared_load_task place tdr vp line register gpa }
    {
        SharedLoad {
            place,
            tdr,
            vp,
            line,
            register,
            gpa,
        }
    }
}

impl Plan for SharedLoad {
    ghost use Rattle.std.specs.Prelude.{true, [], ◌∷◌, slice_index};
    ghost use Rattle.access_core.specs.OperationTrees.{put_register, put_next, shared_load_task};
    ghost use Rattle.access_core.specs.OperationMeanings.{shared_load-means};

    ghost task = { λ l. shared_load_task l.place l.tdr l.vp l.line l.register l.gpa };

    ghost changes = { λ l told a. put_register l.vp l.register (slice_index told 3) ∷ put_next l.vp (slice_index told 2) ∷ [] };

    ghost shown = { λ l told a. true };

    fn decide(&self, told: Told) -> Result<Verdict, Stop> {
        let mut told = told;
        let pages = self.place.machine.pages;
        let named = shared_page(self.gpa);
        let violation = Reply::Exited(Outcome::EptViolation {
            gpa: self.gpa,
            access: Access::Read,
        });
        told.check_or(
            named < u64::from(pages) && named != u64::from(self.vp),
            violation,
        )?;
        let page = named as u16;
        told.lock(LockName::Page(page), lock_address(page), Mode::Shared)?;
        let pamt = told.load(pamt_address(page))?;
        told.check_or(says_host(pamt), violation)?;
        told.load(word_address(self.vp, VP_POSITION))?;
        let word = told.load(word_address(page, word_of_gpa(self.gpa)))?;
        Ok(Verdict::answer(Value::Number(word)))
    }

    fn write(&self, _act: Act, told: &[u64], number: usize, _hand: &mut Hand) -> Option<Write> {
        match number {
            0 => Some(Write::store(register_address(self.vp, self.register), answer(told, 3))),
            1 => Some(store_next(self.vp, answer(told, 2))),
            _ => None,
        }
    }

    ghost means = { λ l. shared_load-means l.place l.tdr l.vp l.line l.register l.gpa l.few };
}

/// `store R GPA` of a shared GPA: the word of the host's page gets a register, which is told.
#[derive(Drop)]
pub struct SharedStore {
    place: Place,
    tdr: u16,
    vp: u16,
    register: u8,
    gpa: u64,
    ghost inside: { vp < place.machine.pages },
    ghost few: { register < 8 },
}

impl SharedStore {
    ghost use Rattle.std.specs.Prelude.{◌≡◌, ◌<◌};
    ghost use Rattle.access_core.specs.OperationTrees.{shared_store_task};

    /// The plan of an operation of a virtual processor, at a place.
    pub fn plan(place: Place, tdr: u16, vp: u16, register: u8, gpa: u64) -> SharedStore
        requires inside { vp < place.machine.pages }
        requires few { register < 8 }
        ensures { ⟦<SharedStore as Plan>⟧.task result ≡ shared_store_task place tdr vp register gpa }
    {
        SharedStore {
            place,
            tdr,
            vp,
            register,
            gpa,
        }
    }
}

impl Plan for SharedStore {
    ghost use Rattle.std.specs.Prelude.{nat_lt, [], ◌∷◌, slice_index};
    ghost use Rattle.td_words.specs.Place.{Word};
    ghost use Rattle.flat_core.specs.Tree.{word_of_gpa};
    ghost use Rattle.flat_core.specs.Guest.{shared_page};
    ghost use Rattle.leaf_engine.specs.Changes.{Put};
    ghost use Rattle.access_core.specs.OperationTrees.{put_next, shared_store_task};
    ghost use Rattle.access_core.specs.OperationMeanings.{shared_store-means};

    ghost task = { λ l. shared_store_task l.place l.tdr l.vp l.register l.gpa };

    ghost changes = { λ l told a. Put (Word (shared_page l.gpa) (word_of_gpa l.gpa)) (slice_index told 3) ∷ put_next l.vp (slice_index told 2) ∷ [] };

    ghost shown = { λ l told a. nat_lt (shared_page l.gpa) l.place.machine.pages };

    fn decide(&self, told: Told) -> Result<Verdict, Stop> {
        let mut told = told;
        let pages = self.place.machine.pages;
        let named = shared_page(self.gpa);
        let violation = Reply::Exited(Outcome::EptViolation {
            gpa: self.gpa,
            access: Access::Write,
        });
        told.check_or(
            named < u64::from(pages) && named != u64::from(self.vp),
            violation,
        )?;
        let page = named as u16;
        told.lock(LockName::Page(page), lock_address(page), Mode::Shared)?;
        let pamt = told.load(pamt_address(page))?;
        told.check_or(says_host(pamt), violation)?;
        told.load(word_address(self.vp, VP_POSITION))?;
        let word = told.load(register_address(self.vp, self.register))?;
        Ok(Verdict::answer(Value::Number(word)))
    }

    fn write(&self, _act: Act, told: &[u64], number: usize, _hand: &mut Hand) -> Option<Write> {
        let _pages = self.place.machine.pages;
        let page = shared_page(self.gpa) as u16;
        match number {
            0 => Some(Write::store(word_address(page, word_of_gpa(self.gpa)), answer(told, 3))),
            1 => Some(store_next(self.vp, answer(told, 2))),
            _ => None,
        }
    }

    ghost means = { λ l. shared_store-means l.place l.tdr l.vp l.register l.gpa l.few };
}
