//! EXPORT.BLOCKW and EXPORT.UNBLOCKW.

use crate::opened_entries::{are_in_range, entry_of, find_opened};
use crate::shared_entries::find_writable;
use leaf_engine::{Act, Hand, Place, Plan, Stop, Told, Verdict, Write};
use mem_remove::Named;
use pamt_core::PamtWord;
use sept_walk::index;
use td_words::places::{TDCS_DIRTIED, TDCS_EPOCH};
use td_words::{EntryState, Machine, OpState, PageKind, pamt_address, word_address};

/// The operation state in which a TD is exported running.
const LIVE: [OpState; 1] = [OpState::LiveExport];

/// The states of an entry that lets its guest write.
const WRITABLE: [EntryState; 2] = [EntryState::Mapped, EntryState::ExportedDirty];

/// Those of one that is blocked for writing.
const BLOCKED: [EntryState; 3] = [
    EntryState::BlockedW,
    EntryState::ExportedBlockedW,
    EntryState::ExportedDirtyBlockedW,
];

/// EXPORT.BLOCKW TDR GPA: no further translation may write to a page, and the epoch in which that
/// began is noted.
#[derive(Drop)]
pub struct BlockW {
    place: Place,
    tdr: u64,
    gpa: u64,
    ghost machine: { IsMachine place.machine },
}

/// EXPORT.UNBLOCKW TDR GPA: the guest may write to a page again, which is dirty from then on if it was
/// exported.
#[derive(Drop)]
pub struct UnblockW {
    place: Place,
    tdr: u64,
    gpa: u64,
    ghost machine: { IsMachine place.machine },
}

ghost use Rattle.td_words.specs.Limits.{IsMachine};

impl BlockW {
    ghost use Rattle.std.specs.Prelude.{◌≡◌};
    ghost use Rattle.export_core.specs.WriteTrees.{block_write_task};

    /// The plan of a call at a place.
    pub fn plan(place: Place, tdr: u64, gpa: u64) -> BlockW
        requires { IsMachine place.machine }
        ensures { ⟦<BlockW as Plan>⟧.task result ≡ block_write_task place tdr gpa }
    {
        BlockW { place, tdr, gpa }
    }
}

impl UnblockW {
    ghost use Rattle.std.specs.Prelude.{◌≡◌};
    ghost use Rattle.export_core.specs.WriteTrees.{unblock_write_task};

    /// The plan of a call at a place.
    pub fn plan(place: Place, tdr: u64, gpa: u64) -> UnblockW
        requires { IsMachine place.machine }
        ensures { ⟦<UnblockW as Plan>⟧.task result ≡ unblock_write_task place tdr gpa }
    {
        UnblockW { place, tdr, gpa }
    }
}

impl Plan for BlockW {
    ghost use Rattle.std.specs.Prelude.{true};
    ghost use Rattle.leaf_engine.specs.Trees.{feed, changes_of};
    ghost use Rattle.export_core.specs.WriteTrees.{block_write_task};
    ghost use Rattle.export_core.specs.BlockMeanings.{block_write-means};

    ghost task = { λ l. block_write_task l.place l.tdr l.gpa };

    ghost changes = { λ l told a. changes_of (feed (block_write_task l.place l.tdr l.gpa).tree told) };

    ghost shown = { λ l told a. true };

    fn decide(&self, told: Told) -> Result<Verdict, Stop> {
        block_write(told, self.place, self.tdr, self.gpa)?;
        Ok(Verdict::done(Act::NONE))
    }

    fn write(&self, _act: Act, told: &[u64], number: usize, _hand: &mut Hand) -> Option<Write> {
        match block_write(Told { left: told }, self.place, self.tdr, self.gpa) {
            Ok(blocking) => {
                let at = index(0, self.gpa);
                blocking.write(self.place.machine, self.tdr as u16, at, number)
            }
            Err(_) => None,
        }
    }

    ghost means = { λ l. block_write-means l.place l.tdr l.gpa l.machine };
}

impl Plan for UnblockW {
    ghost use Rattle.std.specs.Prelude.{true};
    ghost use Rattle.leaf_engine.specs.Trees.{feed, changes_of};
    ghost use Rattle.export_core.specs.WriteTrees.{unblock_write_task};
    ghost use Rattle.export_core.specs.WriteMeanings.{unblock_write-means};

    ghost task = { λ l. unblock_write_task l.place l.tdr l.gpa };

    ghost changes = { λ l told a. changes_of (feed (unblock_write_task l.place l.tdr l.gpa).tree told) };

    ghost shown = { λ l told a. true };

    fn decide(&self, told: Told) -> Result<Verdict, Stop> {
        unblock_write(told, self.place, self.tdr, self.gpa)?;
        Ok(Verdict::done(Act::NONE))
    }

    fn write(&self, _act: Act, told: &[u64], number: usize, _hand: &mut Hand) -> Option<Write> {
        match unblock_write(Told { left: told }, self.place, self.tdr, self.gpa) {
            Ok(unblocking) => unblocking.write(self.place.machine, index(0, self.gpa), number),
            Err(_) => None,
        }
    }

    ghost means = { λ l. unblock_write-means l.place l.tdr l.gpa l.machine };
}

/// What the store of the entry and that of the page's metadata depend on.
#[derive(Clone, Copy)]
pub struct Blocking {
    pub entry: Named,
    pub epoch: u64,
}

/// What the store of the entry and that of pages dirtied depend on.
#[derive(Clone, Copy)]
pub struct Unblocking {
    pub entry: Named,
    pub dirtied: u64,
}

impl Blocking {
    ghost use Rattle.std.specs.Prelude.{ℕ, ◌<◌, Option, MatchOption};
    ghost use Rattle.mrtd_measure.specs.declared.measures.Measure.{Measure};
    ghost use Rattle.leaf_engine.specs.Decides.{HandsAt};
    ghost use Rattle.export_core.specs.OpenedTrees.{IsInside};
    ghost use Rattle.export_core.specs.WriteTrees.{blocking_changes};

    /// The write of that number. The act is the store of the entry; then the epoch is noted in the
    /// page's metadata.
    fn write(&self, machine: Machine, tdr: u16, index: u16, number: usize) -> Option<Write>
        requires { IsInside machine self.now.entry × (index < 512) }
        ensures hands { (h : Option Measure) → HandsAt machine (blocking_changes tdr index self.now) number h h result }
        ensures few { MatchOption result Unit (λ w. number < 2) }
    {
        let _pages = machine.pages;
        let entry = self.entry.entry;
        let write = match number {
            0 => {
                let word = entry_of(write_blocked(entry.state), entry.page, entry.mark);
                Write::store(word_address(self.entry.page, index), word)
            }
            1 => Write::store(pamt_address(entry.page), noted(tdr, self.epoch)),
            _ => return None,
        };
        Some(write)
    }
}

impl Unblocking {
    ghost use Rattle.std.specs.Prelude.{ℕ, ◌<◌, Option, MatchOption};
    ghost use Rattle.mrtd_measure.specs.declared.measures.Measure.{Measure};
    ghost use Rattle.leaf_engine.specs.Decides.{HandsAt};
    ghost use Rattle.export_core.specs.OpenedTrees.{IsInside};
    ghost use Rattle.export_core.specs.WriteTrees.{unblocking_changes};

    /// The write of that number. The act is the store of the entry; then pages dirtied are counted.
    fn write(&self, machine: Machine, index: u16, number: usize) -> Option<Write>
        requires { IsInside machine self.now.entry × (index < 512) }
        ensures hands { (h : Option Measure) → HandsAt machine (unblocking_changes index self.now) number h h result }
        ensures few { MatchOption result Unit (λ w. number < 2) }
    {
        let _pages = machine.pages;
        let Named { tdcs, page, entry } = self.entry;
        let write = match number {
            0 => {
                let word = entry_of(write_unblocked(entry.state), entry.page, entry.mark);
                Write::store(word_address(page, index), word)
            }
            1 => {
                let word = dirtied_word(entry.state, self.dirtied);
                Write::store(word_address(tdcs, TDCS_DIRTIED), word)
            }
            _ => return None,
        };
        Some(write)
    }
}

ghost use Rattle.std.specs.Prelude.{◌≡◌, ◌%◌, ◌^◌, ◌<◌, length, MatchResult};
ghost use Rattle.td_words.specs.declared.names.PageKind.TheVariants as kind;
ghost use Rattle.td_words.specs.Packing.{pamt_word};
ghost use Rattle.flat_core.specs.ExportRows.{write_blocked, write_unblocked, is_first_dirt};
ghost use Rattle.sept_walk.specs.SecureEpt.{index_at};
ghost use Rattle.leaf_engine.specs.Decides.{Decides};
ghost use Rattle.leaf_engine.specs.Inside.{StopIn, StopEarly};
ghost use Rattle.export_core.specs.OpenedTrees.{IsInside, ended};
ghost use Rattle.export_core.specs.WriteTrees.{blocking_changes, block_write_task, dirtied_word, unblocking_changes, unblock_write_task};

/// The whole call that blocks: the entry lets its guest write, its page is held, and TD_EPOCH is told.
fn block_write(told: Told, place: Place, tdr: u64, gpa: u64) -> Result<Blocking, Stop>
    ensures decides { Decides place.machine.pages (block_write_task place tdr gpa).tree told.entry.left.now (ended (blocking_changes tdr (index_at 0 gpa)) result) }
    ensures inside { MatchResult result (λ b. IsInside place.machine b.entry × (tdr < place.machine.pages)) (λ e. StopIn place.machine e) }
    ensures early { MatchResult result (λ b. Unit {0}) (λ e. StopEarly 17 (length told.entry.left.now) e) }
{
    let mut told = told;
    are_in_range(&told, place.machine, tdr, gpa)?;
    let entry = find_writable(&mut told, place, tdr as u16, gpa, &LIVE, &WRITABLE)?;
    let epoch = told.load(word_address(entry.tdcs, TDCS_EPOCH))?;
    Ok(Blocking { entry, epoch })
}

/// The whole call that unblocks: the entry is blocked, its page is held, and pages dirtied are told.
fn unblock_write(told: Told, place: Place, tdr: u64, gpa: u64) -> Result<Unblocking, Stop>
    ensures decides { Decides place.machine.pages (unblock_write_task place tdr gpa).tree told.entry.left.now (ended (unblocking_changes (index_at 0 gpa)) result) }
    ensures inside { MatchResult result (λ u. IsInside place.machine u.entry) (λ e. StopIn place.machine e) }
    ensures early { MatchResult result (λ u. Unit {0}) (λ e. StopEarly 15 (length told.entry.left.now) e) }
{
    let mut told = told;
    are_in_range(&told, place.machine, tdr, gpa)?;
    let entry = find_opened(&mut told, place, tdr as u16, gpa, &LIVE, &BLOCKED)?;
    let dirtied = told.load(word_address(entry.tdcs, TDCS_DIRTIED))?;
    Ok(Unblocking { entry, dirtied })
}

/// What an entry becomes that is blocked for writing.
fn write_blocked(state: EntryState) -> EntryState
    ensures { result ≡ write_blocked state }
{
    match state {
        EntryState::Mapped => EntryState::BlockedW,
        EntryState::ExportedDirty => EntryState::ExportedDirtyBlockedW,
        _ => state,
    }
}

/// What an entry becomes that is unblocked.
fn write_unblocked(state: EntryState) -> EntryState
    ensures { result ≡ write_unblocked state }
{
    match state {
        EntryState::BlockedW => EntryState::Mapped,
        EntryState::ExportedBlockedW | EntryState::ExportedDirtyBlockedW => {
            EntryState::ExportedDirty
        }
        _ => state,
    }
}

/// Pages dirtied, with one more where the entry becomes dirty.
fn dirtied_word(state: EntryState, dirtied: u64) -> u64
    ensures { result ≡ dirtied_word (is_first_dirt state) dirtied }
{
    match state {
        EntryState::ExportedBlockedW => dirtied.wrapping_add(1),
        _ => dirtied,
    }
}

/// The PAMT word of a TD's private page, once its block is noted.
fn noted(tdr: u16, epoch: u64) -> u64
    ensures { result ≡ pamt_word (record { kind = kind.Reg; owner = tdr; epoch = epoch % 2 ^ 32 }) }
{
    let word = PamtWord {
        kind: PageKind::Reg,
        owner: tdr,
        epoch: (epoch % (1 << 32)) as u32,
    };
    word.pack()
}
