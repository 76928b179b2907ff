//! EXPORT.RESTORE.

use crate::opened_entries::{are_in_range, entry_of, find_opened};
use leaf_engine::{Act, Hand, Place, Plan, Stop, Told, Verdict, Write};
use leaf_parts::lowered;
use mem_remove::Named;
use sept_walk::index;
use td_words::places::{TDCS_DIRTIED, TDCS_UNRESTORED};
use td_words::{EntryState, Machine, OpState, word_address};

/// The operation state in which entries are restored.
const RESTORING: [OpState; 1] = [OpState::Runnable];

/// The states that are restored.
const RESTORED: [EntryState; 4] = [
    EntryState::BlockedW,
    EntryState::ExportedBlockedW,
    EntryState::ExportedDirty,
    EntryState::ExportedDirtyBlockedW,
];

/// EXPORT.RESTORE TDR GPA: what an export that was aborted left of an entry ends.
#[derive(Drop)]
pub struct Restore {
    place: Place,
    tdr: u64,
    gpa: u64,
    ghost machine: { IsMachine place.machine },
}

impl Restore {
    ghost use Rattle.std.specs.Prelude.{◌≡◌};
    ghost use Rattle.export_core.specs.RestoreTrees.{restore_task};

    /// The plan of a call at a place.
    pub fn plan(place: Place, tdr: u64, gpa: u64) -> Restore
        requires { IsMachine place.machine }
        ensures { ⟦<Restore as Plan>⟧.task result ≡ restore_task place tdr gpa }
    {
        Restore { place, tdr, gpa }
    }
}

impl Plan for Restore {
    ghost use Rattle.std.specs.Prelude.{true};
    ghost use Rattle.leaf_engine.specs.Trees.{feed, changes_of};
    ghost use Rattle.export_core.specs.RestoreTrees.{restore_task};
    ghost use Rattle.export_core.specs.RestoreMeanings.{restore-means};

    ghost task = { λ l. restore_task l.place l.tdr l.gpa };

    ghost changes = { λ l told a. changes_of (feed (restore_task l.place l.tdr l.gpa).tree told) };

    ghost shown = { λ l told a. true };

    fn decide(&self, told: Told) -> Result<Verdict, Stop> {
        find_restored(told, self.place, self.tdr, self.gpa)?;
        Ok(Verdict::done(Act::NONE))
    }

    fn write(&self, _act: Act, told: &[u64], number: usize, _hand: &mut Hand) -> Option<Write> {
        match find_restored(Told { left: told }, self.place, self.tdr, self.gpa) {
            Ok(restored) => restored.write(self.place.machine, index(0, self.gpa), number),
            Err(_) => None,
        }
    }

    ghost means = { λ l. restore-means l.place l.tdr l.gpa l.machine };
}

/// What the store of the entry and those of the counts depend on.
#[derive(Clone, Copy)]
pub struct Restored {
    pub entry: Named,
    pub dirtied: u64,
    pub unrestored: u64,
}

ghost use Rattle.std.specs.Prelude.{◌≡◌, length, MatchResult};
ghost use Rattle.td_words.specs.Limits.{IsMachine};
ghost use Rattle.sept_walk.specs.SecureEpt.{index_at};
ghost use Rattle.leaf_engine.specs.Decides.{Decides};
ghost use Rattle.leaf_engine.specs.Inside.{StopIn, StopEarly};
ghost use Rattle.export_core.specs.OpenedTrees.{IsInside, ended};
ghost use Rattle.export_core.specs.RestoreTrees.{left_dirtied, left_unrestored, restored_changes, restore_task};

impl Restored {
    ghost use Rattle.std.specs.Prelude.{ℕ, ◌<◌, Option, MatchOption};
    ghost use Rattle.mrtd_measure.specs.declared.measures.Measure.{Measure};
    ghost use Rattle.leaf_engine.specs.Decides.{HandsAt};
    ghost use Rattle.export_core.specs.OpenedTrees.{IsInside};
    ghost use Rattle.export_core.specs.RestoreTrees.{restored_changes};

    /// The write of that number. The act is the store of the entry; then it is counted.
    fn write(&self, machine: Machine, index: u16, number: usize) -> Option<Write>
        requires { IsInside machine self.now.entry × (index < 512) }
        ensures hands { (h : Option Measure) → HandsAt machine (restored_changes index self.now) number h h result }
        ensures few { MatchOption result Unit (λ w. number < 3) }
    {
        let Named { tdcs, page, entry } = self.entry;
        let state = entry.state;
        let write = match number {
            0 => Write::store(
                word_address(page, index),
                entry_of(EntryState::Mapped, entry.page, 0),
            ),
            1 => Write::store(
                word_address(tdcs, TDCS_DIRTIED),
                left_dirtied(state, self.dirtied),
            ),
            2 => Write::store(
                word_address(tdcs, TDCS_UNRESTORED),
                left_unrestored(state, self.unrestored),
            ),
            _ => return None,
        };
        Some(write)
    }
}

/// The whole call: the entry is in one of the states that are restored, and both counts are told.
fn find_restored(told: Told, place: Place, tdr: u64, gpa: u64) -> Result<Restored, Stop>
    ensures decides { Decides place.machine.pages (restore_task place tdr gpa).tree told.entry.left.now (ended (restored_changes (index_at 0 gpa)) result) }
    ensures inside { MatchResult result (λ r. IsInside place.machine r.entry) (λ e. StopIn place.machine e) }
    ensures early { MatchResult result (λ r. Unit {0}) (λ e. StopEarly 16 (length told.entry.left.now) e) }
{
    let mut told = told;
    are_in_range(&told, place.machine, tdr, gpa)?;
    let entry = find_opened(&mut told, place, tdr as u16, gpa, &RESTORING, &RESTORED)?;
    let dirtied = told.load(word_address(entry.tdcs, TDCS_DIRTIED))?;
    let unrestored = told.load(word_address(entry.tdcs, TDCS_UNRESTORED))?;
    Ok(Restored {
        entry,
        dirtied,
        unrestored,
    })
}

/// Pages dirtied, with one less where the entry was dirty.
fn left_dirtied(state: EntryState, dirtied: u64) -> u64
    ensures { result ≡ left_dirtied state dirtied }
{
    match state {
        EntryState::ExportedDirty | EntryState::ExportedDirtyBlockedW => lowered(dirtied),
        _ => dirtied,
    }
}

/// Unrestored entries, with one less where the entry was exported.
fn left_unrestored(state: EntryState, unrestored: u64) -> u64
    ensures { result ≡ left_unrestored state unrestored }
{
    match state {
        EntryState::ExportedBlockedW
        | EntryState::ExportedDirty
        | EntryState::ExportedDirtyBlockedW => unrestored.wrapping_sub(1),
        _ => unrestored,
    }
}
