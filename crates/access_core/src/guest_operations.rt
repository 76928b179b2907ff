//! `set`, `add` and `vmcall`.

ghost use Rattle.std.specs.Prelude.{◌<◌};

use crate::guest_words::{answer, register_address, store_next};
use leaf_engine::{Act, Hand, Place, Plan, Stop, Told, Verdict, Write};
use td_words::places::VP_POSITION;
use td_words::{Outcome, Reply, word_address};

/// `set R V`: a register gets a value.
#[derive(Drop)]
pub struct Set {
    place: Place,
    tdr: u16,
    vp: u16,
    register: u8,
    value: u64,
    ghost inside: { vp < place.machine.pages },
    ghost few: { register < 8 },
}

impl Set {
    ghost use Rattle.std.specs.Prelude.{◌≡◌, ◌<◌};
    ghost use Rattle.access_core.specs.OperationTrees.{set_task};

    /// The plan of an operation of a virtual processor, at a place.
    pub fn plan(place: Place, tdr: u16, vp: u16, register: u8, value: u64) -> Set
        requires inside { vp < place.machine.pages }
        requires few { register < 8 }
        ensures { ⟦<Set as Plan>⟧.task result ≡ set_task place tdr vp register value }
    {
        Set {
            place,
            tdr,
            vp,
            register,
            value,
        }
    }
}

impl Plan for Set {
    ghost use Rattle.std.specs.Prelude.{true, [], ◌∷◌, slice_index};
    ghost use Rattle.access_core.specs.OperationTrees.{put_register, put_next, set_task};
    ghost use Rattle.access_core.specs.OperationMeanings.{set-means};

    ghost task = { λ l. set_task l.place l.tdr l.vp l.register l.value };

    ghost changes = { λ l told a. put_register l.vp l.register l.value ∷ put_next l.vp (slice_index told 0) ∷ [] };

    ghost shown = { λ l told a. true };

    fn decide(&self, told: Told) -> Result<Verdict, Stop> {
        let mut told = told;
        told.load(word_address(self.vp, VP_POSITION))?;
        Ok(Verdict::done(Act::NONE))
    }

    fn write(&self, _act: Act, told: &[u64], number: usize, _hand: &mut Hand) -> Option<Write> {
        match number {
            0 => Some(Write::store(register_address(self.vp, self.register), self.value)),
            1 => Some(store_next(self.vp, answer(told, 0))),
            _ => None,
        }
    }

    ghost means = { λ l. set-means l.place l.tdr l.vp l.register l.value l.few };
}

/// `add R S`: a register gets its sum with another one, modulo 2^64.
#[derive(Drop)]
pub struct Add {
    place: Place,
    tdr: u16,
    vp: u16,
    register: u8,
    other: u8,
    ghost inside: { vp < place.machine.pages },
    ghost few: { register < 8 },
    ghost other_few: { other < 8 },
}

impl Add {
    ghost use Rattle.std.specs.Prelude.{◌≡◌, ◌<◌};
    ghost use Rattle.access_core.specs.OperationTrees.{add_task};

    /// The plan of an operation of a virtual processor, at a place.
    pub fn plan(place: Place, tdr: u16, vp: u16, register: u8, other: u8) -> Add
        requires inside { vp < place.machine.pages }
        requires few { register < 8 }
        requires other_few { other < 8 }
        ensures { ⟦<Add as Plan>⟧.task result ≡ add_task place tdr vp register other }
    {
        Add {
            place,
            tdr,
            vp,
            register,
            other,
        }
    }
}

impl Plan for Add {
    ghost use Rattle.std.specs.Prelude.{◌+◌, ◌%◌, ◌^◌, true, [], ◌∷◌, slice_index};
    ghost use Rattle.access_core.specs.OperationTrees.{put_register, put_next, add_task};
    ghost use Rattle.access_core.specs.OperationMeanings.{add-means};

    ghost task = { λ l. add_task l.place l.tdr l.vp l.register l.other };

    ghost changes = { λ l told a. put_register l.vp l.register ((slice_index told 1 + slice_index told 2) % 2 ^ 64) ∷ put_next l.vp (slice_index told 0) ∷ [] };

    ghost shown = { λ l told a. true };

    fn decide(&self, told: Told) -> Result<Verdict, Stop> {
        let mut told = told;
        told.load(word_address(self.vp, VP_POSITION))?;
        told.load(register_address(self.vp, self.register))?;
        told.load(register_address(self.vp, self.other))?;
        Ok(Verdict::done(Act::NONE))
    }

    fn write(&self, _act: Act, told: &[u64], number: usize, _hand: &mut Hand) -> Option<Write> {
        match number {
            0 => {
                let sum = answer(told, 1).wrapping_add(answer(told, 2));
                Some(Write::store(register_address(self.vp, self.register), sum))
            }
            1 => Some(store_next(self.vp, answer(told, 0))),
            _ => None,
        }
    }

    ghost means = { λ l. add-means l.place l.tdr l.vp l.register l.other l.few l.other_few };
}

/// `vmcall R`: the host is told a register, and the guest is left.
#[derive(Drop)]
pub struct Vmcall {
    place: Place,
    tdr: u16,
    vp: u16,
    register: u8,
    ghost inside: { vp < place.machine.pages },
    ghost few: { register < 8 },
}

impl Vmcall {
    ghost use Rattle.std.specs.Prelude.{◌≡◌, ◌<◌};
    ghost use Rattle.access_core.specs.OperationTrees.{vmcall_task};

    /// The plan of an operation of a virtual processor, at a place.
    pub fn plan(place: Place, tdr: u16, vp: u16, register: u8) -> Vmcall
        requires inside { vp < place.machine.pages }
        requires few { register < 8 }
        ensures { ⟦<Vmcall as Plan>⟧.task result ≡ vmcall_task place tdr vp register }
    {
        Vmcall {
            place,
            tdr,
            vp,
            register,
        }
    }
}

impl Plan for Vmcall {
    ghost use Rattle.std.specs.Prelude.{true, [], ◌∷◌, slice_index};
    ghost use Rattle.access_core.specs.OperationTrees.{put_next, vmcall_task};
    ghost use Rattle.access_core.specs.OperationMeanings.{vmcall-means};

    ghost task = { λ l. vmcall_task l.place l.tdr l.vp l.register };

    ghost changes = { λ l told a. put_next l.vp (slice_index told 0) ∷ [] };

    ghost shown = { λ l told a. true };

    fn decide(&self, told: Told) -> Result<Verdict, Stop> {
        let mut told = told;
        told.load(word_address(self.vp, VP_POSITION))?;
        let word = told.load(register_address(self.vp, self.register))?;
        Ok(Verdict {
            reply: Reply::Exited(Outcome::Vmcall(word)),
            act: Act::NONE,
        })
    }

    fn write(&self, _act: Act, told: &[u64], number: usize, _hand: &mut Hand) -> Option<Write> {
        match number {
            0 => Some(store_next(self.vp, answer(told, 0))),
            _ => None,
        }
    }

    ghost means = { λ l. vmcall-means l.place l.tdr l.vp l.register l.few };
}
