//! Loads and stores of private words, through a cached translation.

ghost use Rattle.std.specs.Prelude.{◌<◌};

use crate::guest_words::{answer, register_address, store_next, word_of_gpa};
use leaf_engine::{Act, Hand, Place, Plan, Stop, Told, Verdict, Write};
use td_words::places::VP_POSITION;
use td_words::{Value, word_address};

/// `load R GPA` of a private GPA, at a call line, where a translation to that page is cached.
#[derive(Drop)]
pub struct PrivateLoad {
    place: Place,
    tdr: u16,
    vp: u16,
    line: usize,
    register: u8,
    gpa: u64,
    page: u16,
    ghost inside: { vp < place.machine.pages },
    ghost page_inside: { page < place.machine.pages },
    ghost few: { register < 8 },
}

impl PrivateLoad {
    ghost use Rattle.std.specs.Prelude.{◌≡◌, ◌<◌};
    ghost use Rattle.td_words.specs.declared.names.Access.TheVariants as access;
    ghost use Rattle.access_core.specs.ReachTrees.{access_task};

    /// The plan of an operation of a virtual processor, at a place.
    pub fn plan(
        place: Place,
        tdr: u16,
        vp: u16,
        line: usize,
        register: u8,
        gpa: u64,
        page: u16,
    ) -> PrivateLoad
        requires inside { vp < place.machine.pages }
        requires page_inside { page < place.machine.pages }
        requires few { register < 8 }
        ensures { ⟦<PrivateLoad as Plan>⟧.task result ≡ access_task place tdr vp line access.Read register gpa page }
    {
        PrivateLoad {
            place,
            tdr,
            vp,
            line,
            register,
            gpa,
            page,
        }
    }
}

impl Plan for PrivateLoad {
    ghost use Rattle.std.specs.Prelude.{true, [], ◌∷◌, slice_index};
    ghost use Rattle.td_words.specs.declared.names.Access.TheVariants as access;
    ghost use Rattle.access_core.specs.OperationTrees.{put_register, put_next};
    ghost use Rattle.access_core.specs.ReachTrees.{access_task};
    ghost use Rattle.access_core.specs.ReachMeanings.{accesses-mean};

    ghost task = { λ l. access_task l.place l.tdr l.vp l.line access.Read l.register l.gpa l.page };

    ghost changes = { λ l told a. put_register l.vp l.register (slice_index told 1) ∷ put_next l.vp (slice_index told 0) ∷ [] };

    ghost shown = { λ l told a. true };

    fn decide(&self, told: Told) -> Result<Verdict, Stop> {
        let mut told = told;
        told.load(word_address(self.vp, VP_POSITION))?;
        let word = told.load(word_address(self.page, word_of_gpa(self.gpa)))?;
        Ok(Verdict::answer(Value::Number(word)))
    }

    fn write(&self, _act: Act, told: &[u64], number: usize, _hand: &mut Hand) -> Option<Write> {
        match number {
            0 => Some(Write::store(register_address(self.vp, self.register), answer(told, 1))),
            1 => Some(store_next(self.vp, answer(told, 0))),
            _ => None,
        }
    }

    ghost means = { λ l. accesses-mean l.place l.tdr l.vp l.line access.Read l.register l.gpa l.page l.few };
}

/// `store R GPA` of a private GPA, at a call line, where a translation to that page is cached that
/// lets write.
#[derive(Drop)]
pub struct PrivateStore {
    place: Place,
    tdr: u16,
    vp: u16,
    line: usize,
    register: u8,
    gpa: u64,
    page: u16,
    ghost inside: { vp < place.machine.pages },
    ghost page_inside: { page < place.machine.pages },
    ghost few: { register < 8 },
}

impl PrivateStore {
    ghost use Rattle.std.specs.Prelude.{◌≡◌, ◌<◌};
    ghost use Rattle.td_words.specs.declared.names.Access.TheVariants as access;
    ghost use Rattle.access_core.specs.ReachTrees.{access_task};

    /// The plan of an operation of a virtual processor, at a place.
    pub fn plan(
        place: Place,
        tdr: u16,
        vp: u16,
        line: usize,
        register: u8,
        gpa: u64,
        page: u16,
    ) -> PrivateStore
        requires inside { vp < place.machine.pages }
        requires page_inside { page < place.machine.pages }
        requires few { register < 8 }
        ensures { ⟦<PrivateStore as Plan>⟧.task result ≡ access_task place tdr vp line access.Write register gpa page }
    {
        PrivateStore {
            place,
            tdr,
            vp,
            line,
            register,
            gpa,
            page,
        }
    }
}

impl Plan for PrivateStore {
    ghost use Rattle.std.specs.Prelude.{true, [], ◌∷◌, slice_index};
    ghost use Rattle.td_words.specs.declared.names.Access.TheVariants as access;
    ghost use Rattle.td_words.specs.Place.{Word};
    ghost use Rattle.flat_core.specs.Tree.{word_of_gpa};
    ghost use Rattle.leaf_engine.specs.Changes.{Put};
    ghost use Rattle.access_core.specs.OperationTrees.{put_next};
    ghost use Rattle.access_core.specs.ReachTrees.{access_task};
    ghost use Rattle.access_core.specs.ReachMeanings.{accesses-mean};

    ghost task = { λ l. access_task l.place l.tdr l.vp l.line access.Write l.register l.gpa l.page };

    ghost changes = { λ l told a. Put (Word l.page (word_of_gpa l.gpa)) (slice_index told 1) ∷ put_next l.vp (slice_index told 0) ∷ [] };

    ghost shown = { λ l told a. true };

    fn decide(&self, told: Told) -> Result<Verdict, Stop> {
        let mut told = told;
        told.load(word_address(self.vp, VP_POSITION))?;
        let word = told.load(register_address(self.vp, self.register))?;
        Ok(Verdict::answer(Value::Number(word)))
    }

    fn write(&self, _act: Act, told: &[u64], number: usize, _hand: &mut Hand) -> Option<Write> {
        match number {
            0 => Some(Write::store(
                word_address(self.page, word_of_gpa(self.gpa)),
                answer(told, 1),
            )),
            1 => Some(store_next(self.vp, answer(told, 0))),
            _ => None,
        }
    }

    ghost means = { λ l. accesses-mean l.place l.tdr l.vp l.line access.Write l.register l.gpa l.page l.few };
}
