//! MNG.KEY.FREEID.

ghost use Rattle.std.specs.Prelude.{◌<◌, length};
ghost use Rattle.td_words.specs.declared.names.LifeState.TheVariants as life;
ghost use Rattle.td_words.specs.Packing.{Unassigned};
ghost use Rattle.leaf_engine.specs.Decides.{Decides, ending};
ghost use Rattle.leaf_engine.specs.Inside.{DecisionIn, DecidesEarly};
ghost use Rattle.key_table.specs.EndTrees.{end_changes, free_rest};

use crate::words::{is_marked, key_number};
use leaf_engine::{Act, Hand, Place, Plan, Stop, Told, Verdict, Write};
use leaf_parts::tdr_head;
use td_words::places::{KEY_LOCK, TDR_HKID, TDR_LIFE};
use td_words::{LifeState, LockName, Machine, Mode, Status, key_address, word_address};

/// MNG.KEY.FREEID TDR: the HKID of a TD whose caches were written back is free again, and the TD
/// is at the end of its life.
#[derive(Drop)]
pub struct FreeId {
    place: Place,
    tdr: u64,
}

impl FreeId {
    ghost use Rattle.std.specs.Prelude.{◌≡◌};
    ghost use Rattle.key_table.specs.EndTrees.{free_task};

    /// The plan of a call at a place.
    pub fn plan(place: Place, tdr: u64) -> FreeId
        ensures { ⟦<FreeId as Plan>⟧.task result ≡ free_task place tdr }
    {
        FreeId { place, tdr }
    }
}

impl Plan for FreeId {
    ghost use Rattle.std.specs.Prelude.{nat_lt};
    ghost use Rattle.td_words.specs.declared.names.LifeState.TheVariants as life;
    ghost use Rattle.td_words.specs.Packing.{Unassigned};
    ghost use Rattle.key_table.specs.EndTrees.{free_task, end_changes};
    ghost use Rattle.key_table.specs.EndMeanings.{free-means};

    ghost task = { λ l. free_task l.place l.tdr };

    ghost changes = { λ l told a. end_changes l.place.machine l.tdr a.hkid Unassigned life.Teardown };

    ghost shown = { λ l told a. nat_lt l.tdr l.place.machine.pages };

    fn decide(&self, told: Told) -> Result<Verdict, Stop> {
        let mut told = told;
        let pages = self.place.machine.pages;
        told.check(self.tdr < u64::from(pages), Status::OperandInvalid(1))?;
        let tdr = self.tdr as u16;
        tdr_head(&mut told, self.place, tdr, &[LifeState::Blocked])?;
        free(told, self.place.machine, tdr)
    }

    fn write(&self, act: Act, _told: &[u64], number: usize, _hand: &mut Hand) -> Option<Write> {
        let pages = self.place.machine.pages;
        let write = match number {
            0 => {
                let at = key_address(pages, key_number(self.place.machine, act.hkid));
                Write::store(at, 0)
            }
            1 => {
                let at = word_address(self.tdr as u16, TDR_LIFE);
                Write::store(at, LifeState::Teardown as u64)
            }
            _ => return None,
        };
        Some(write)
    }

    ghost means = { λ l. free-means l.place l.tdr };
}

/// What comes after the head: the caches were written back, and the HKID is freed.
fn free(told: Told, machine: Machine, tdr: u16) -> Result<Verdict, Stop>
    requires { tdr < machine.pages }
    ensures decides { Decides machine.pages (free_rest machine tdr) told.entry.left.now (ending (λ a. end_changes machine tdr a.hkid Unassigned life.Teardown) result) }
    ensures inside { DecisionIn machine (λ a. Unit {0}) result }
    ensures early { DecidesEarly 3 (length told.entry.left.now) result }
{
    let mut told = told;
    told.lock(
        LockName::Keys,
        key_address(machine.pages, KEY_LOCK),
        Mode::Exclusive,
    )?;
    let hkid = told.load(word_address(tdr, TDR_HKID))?;
    let at = key_address(machine.pages, key_number(machine, hkid));
    let key = told.load(at)?;
    told.check(is_marked(key), Status::CacheWbNotDone)?;
    Ok(Verdict::done(Act { hkid, ..Act::NONE }))
}
