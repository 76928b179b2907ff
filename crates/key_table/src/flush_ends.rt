//! MNG.VPFLUSHDONE.

ghost use Rattle.std.specs.Prelude.{◌≡◌, ◌<◌, false, length};
ghost use Rattle.td_words.specs.declared.names.LifeState.TheVariants as life;
ghost use Rattle.td_words.specs.Packing.{FlushedOf};
ghost use Rattle.leaf_engine.specs.Decides.{Decides, ending};
ghost use Rattle.leaf_engine.specs.Inside.{DecisionIn, DecidesEarly};
ghost use Rattle.key_table.specs.EndTrees.{end_changes};
ghost use Rattle.key_table.specs.FlushTrees.{flush_counted, flush_rest};

use crate::words::key_number;
use leaf_engine::{Act, Hand, Place, Plan, Stop, Told, Verdict, Write};
use leaf_parts::{VpWord, page_told, tdr_head, vps_apart};
use td_words::places::{KEY_LOCK, TDR_HKID, TDR_LIFE, TDR_TDCS, TDR_TDCX_COUNT, VP_ASSOCIATED};
use td_words::{HkidState, LifeState, LockName, Machine, Mode, Status, key_address, word_address};

/// MNG.VPFLUSHDONE TDR: a TD whose virtual processors are all flushed is blocked, and its HKID is
/// flushed.
#[derive(Drop)]
pub struct FlushDone {
    place: Place,
    tdr: u64,
}

impl FlushDone {
    ghost use Rattle.std.specs.Prelude.{◌≡◌};
    ghost use Rattle.key_table.specs.FlushTrees.{flush_task};

    /// The plan of a call at a place.
    pub fn plan(place: Place, tdr: u64) -> FlushDone
        ensures { ⟦<FlushDone as Plan>⟧.task result ≡ flush_task place tdr }
    {
        FlushDone { place, tdr }
    }
}

impl Plan for FlushDone {
    ghost use Rattle.std.specs.Prelude.{false, nat_lt};
    ghost use Rattle.td_words.specs.declared.names.LifeState.TheVariants as life;
    ghost use Rattle.td_words.specs.Packing.{FlushedOf};
    ghost use Rattle.key_table.specs.EndTrees.{end_changes};
    ghost use Rattle.key_table.specs.FlushTrees.{flush_task};
    ghost use Rattle.key_table.specs.FlushMeanings.{flush-means};

    ghost task = { λ l. flush_task l.place l.tdr };

    ghost changes = { λ l told a. end_changes l.place.machine l.tdr a.hkid (FlushedOf l.tdr false) life.Blocked };

    ghost shown = { λ l told a. nat_lt l.tdr l.place.machine.pages };

    fn decide(&self, told: Told) -> Result<Verdict, Stop> {
        let mut told = told;
        let pages = self.place.machine.pages;
        told.check(self.tdr < u64::from(pages), Status::OperandInvalid(1))?;
        let tdr = self.tdr as u16;
        tdr_head(
            &mut told,
            self.place,
            tdr,
            &[LifeState::HkidAssigned, LifeState::KeysConfigured],
        )?;
        end_flush(told, self.place.machine, tdr)
    }

    fn write(&self, act: Act, _told: &[u64], number: usize, _hand: &mut Hand) -> Option<Write> {
        let pages = self.place.machine.pages;
        let write = match number {
            0 => {
                let at = key_address(pages, key_number(self.place.machine, act.hkid));
                Write::store(at, HkidState::Flushed as u64 + 16 * self.tdr)
            }
            1 => {
                let at = word_address(self.tdr as u16, TDR_LIFE);
                Write::store(at, LifeState::Blocked as u64)
            }
            _ => return None,
        };
        Some(write)
    }

    ghost means = { λ l. flush-means l.place l.tdr };
}

/// What comes after the head. Before a TD has its two TDCX pages it has no virtual processor.
fn end_flush(told: Told, machine: Machine, tdr: u16) -> Result<Verdict, Stop>
    requires { tdr < machine.pages }
    ensures decides { Decides machine.pages (flush_rest machine tdr) told.entry.left.now (ending (λ a. end_changes machine tdr a.hkid (FlushedOf tdr false) life.Blocked) result) }
    ensures inside { DecisionIn machine (λ a. Unit {0}) result }
    ensures early { DecidesEarly 21 (length told.entry.left.now) result }
{
    let mut told = told;
    let controls = told.load(word_address(tdr, TDR_TDCX_COUNT))?;
    if controls == 2 {
        let word = told.load(word_address(tdr, TDR_TDCS))?;
        let associated = VpWord {
            tdcs: page_told(machine.pages, word),
            at: VP_ASSOCIATED,
            word: 0,
        };
        let count = vps_apart(&mut told, machine, associated)?;
        flush_counted(told, machine, tdr, count)
    } else {
        flush_counted(told, machine, tdr, 0)
    }
}

/// Ends the flush where none is.
fn flush_counted(told: Told, machine: Machine, tdr: u16, associated: u64) -> Result<Verdict, Stop>
    requires { tdr < machine.pages }
    ensures decides { Decides machine.pages (flush_counted machine tdr associated) told.entry.left.now (ending (λ a. end_changes machine tdr a.hkid (FlushedOf tdr false) life.Blocked) result) }
    ensures inside { DecisionIn machine (λ a. Unit {0}) result }
    ensures early { DecidesEarly 2 (length told.entry.left.now) result }
{
    let mut told = told;
    told.check(associated == 0, Status::FlushvpNotDone(associated))?;
    told.lock(
        LockName::Keys,
        key_address(machine.pages, KEY_LOCK),
        Mode::Exclusive,
    )?;
    let hkid = told.load(word_address(tdr, TDR_HKID))?;
    Ok(Verdict::done(Act { hkid, ..Act::NONE }))
}
