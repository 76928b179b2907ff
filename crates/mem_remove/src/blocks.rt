//! MEM.RANGE.BLOCK and MEM.RANGE.UNBLOCK.

use crate::named_entries::find_named;
use crate::tracked_blocks::tracked;
use leaf_engine::{Act, Hand, Place, Plan, Stop, Told, Verdict, Write};
use pamt_core::PamtWord;
use sept_entry::Entry;
use sept_parts::{GPAS, TOP, is_aligned};
use sept_walk::index;
use td_words::places::TDCS_EPOCH;
use td_words::{EntryState, Machine, PageKind, Status, pamt_address, word_address};

/// The states that are blocked.
const OPEN: [EntryState; 3] = [
    EntryState::Mapped,
    EntryState::Pending,
    EntryState::NlMapped,
];

/// Those that they become.
const BLOCKED: [EntryState; 3] = [
    EntryState::Blocked,
    EntryState::PendingBlocked,
    EntryState::NlBlocked,
];

/// MEM.RANGE.BLOCK TDR GPA LEVEL: no further translation goes through an entry, and the epoch in
/// which that began is noted.
#[derive(Drop)]
pub struct RangeBlock {
    place: Place,
    tdr: u64,
    gpa: u64,
    level: u64,
    ghost machine: { IsMachine place.machine },
}

/// MEM.RANGE.UNBLOCK TDR GPA LEVEL: an entry whose block is tracked gets its state back.
#[derive(Drop)]
pub struct RangeUnblock {
    place: Place,
    tdr: u64,
    gpa: u64,
    level: u64,
    ghost machine: { IsMachine place.machine },
}

ghost use Rattle.td_words.specs.Limits.{IsMachine};

impl RangeBlock {
    ghost use Rattle.std.specs.Prelude.{◌≡◌};
    ghost use Rattle.mem_remove.specs.RangeTrees.{range_block_task};

    /// The plan of a call at a place.
    pub fn plan(place: Place, tdr: u64, gpa: u64, level: u64) -> RangeBlock
        requires { IsMachine place.machine }
        ensures { ⟦<RangeBlock as Plan>⟧.task result ≡ range_block_task place tdr gpa level }
    {
        RangeBlock {
            place,
            tdr,
            gpa,
            level,
        }
    }
}

impl RangeUnblock {
    ghost use Rattle.std.specs.Prelude.{◌≡◌};
    ghost use Rattle.mem_remove.specs.RangeTrees.{range_unblock_task};

    /// The plan of a call at a place.
    pub fn plan(place: Place, tdr: u64, gpa: u64, level: u64) -> RangeUnblock
        requires { IsMachine place.machine }
        ensures { ⟦<RangeUnblock as Plan>⟧.task result ≡ range_unblock_task place tdr gpa level }
    {
        RangeUnblock {
            place,
            tdr,
            gpa,
            level,
        }
    }
}

impl Plan for RangeBlock {
    ghost use Rattle.std.specs.Prelude.{◌&&◌, nat_lt, nat_le};
    ghost use Rattle.sept_walk.specs.SecureEpt.{index_at};
    ghost use Rattle.mem_remove.specs.RangeTrees.{range_block_task, block_changes};
    ghost use Rattle.mem_remove.specs.BlockMeanings.{range_block-means};

    ghost task = { λ l. range_block_task l.place l.tdr l.gpa l.level };

    ghost changes = { λ l told a. block_changes l.tdr l.level a.page (index_at l.level l.gpa) a.named a.state a.epoch };

    ghost shown = { λ l told a. nat_lt l.tdr l.place.machine.pages && nat_le l.level 3 && nat_lt a.page l.place.machine.pages && nat_lt a.named l.place.machine.pages };

    fn decide(&self, told: Told) -> Result<Verdict, Stop> {
        let mut told = told;
        are_in_range(
            &mut told,
            self.place.machine,
            self.tdr,
            self.gpa,
            self.level,
        )?;
        block(
            told,
            self.place,
            self.tdr as u16,
            self.gpa,
            self.level as u8,
        )
    }

    // The act is the store of the entry; then the epoch is noted in the page's metadata.
    fn write(&self, act: Act, _told: &[u64], number: usize, _hand: &mut Hand) -> Option<Write> {
        let level = self.level as u8;
        let write = match number {
            0 => {
                let at = index(level, self.gpa);
                let entry = entry_of(blocked_state(act.state), act.named);
                Write::store(word_address(act.page, at), entry)
            }
            1 => Write::store(
                pamt_address(act.named),
                noted(level, self.tdr as u16, act.epoch),
            ),
            _ => return None,
        };
        Some(write)
    }

    ghost means = { λ l. range_block-means l.place l.tdr l.gpa l.level l.machine };
}

impl Plan for RangeUnblock {
    ghost use Rattle.std.specs.Prelude.{◌&&◌, nat_lt, nat_le};
    ghost use Rattle.sept_walk.specs.SecureEpt.{index_at};
    ghost use Rattle.mem_remove.specs.RangeTrees.{range_unblock_task, unblock_changes};
    ghost use Rattle.mem_remove.specs.BlockMeanings.{range_unblock-means};

    ghost task = { λ l. range_unblock_task l.place l.tdr l.gpa l.level };

    ghost changes = { λ l told a. unblock_changes a.page (index_at l.level l.gpa) a.named a.state };

    ghost shown = { λ l told a. nat_le l.level 3 && nat_lt a.page l.place.machine.pages && nat_lt a.named l.place.machine.pages };

    fn decide(&self, told: Told) -> Result<Verdict, Stop> {
        let mut told = told;
        are_in_range(
            &mut told,
            self.place.machine,
            self.tdr,
            self.gpa,
            self.level,
        )?;
        unblock(
            told,
            self.place,
            self.tdr as u16,
            self.gpa,
            self.level as u8,
        )
    }

    // The act is the store of the entry.
    fn write(&self, act: Act, _told: &[u64], number: usize, _hand: &mut Hand) -> Option<Write> {
        match number {
            0 => {
                let at = index(self.level as u8, self.gpa);
                let entry = entry_of(unblocked_state(act.state), act.named);
                Some(Write::store(word_address(act.page, at), entry))
            }
            _ => None,
        }
    }

    ghost means = { λ l. range_unblock-means l.place l.tdr l.gpa l.level l.machine };
}

ghost use Rattle.std.specs.Prelude.{◌≡◌, ℕ, ◌%◌, ◌^◌, ◌<◌, ◌≤◌, length, MatchResult};
ghost use Rattle.td_words.specs.Packing.{entry_word, pamt_word};
ghost use Rattle.flat_core.specs.MemRows.{blocked_state, unblocked_state};
ghost use Rattle.sept_walk.specs.SecureEpt.{index_at};
ghost use Rattle.leaf_engine.specs.Decides.{Decides, ending};
ghost use Rattle.leaf_engine.specs.Inside.{DecisionIn, DecidesEarly, StopIn};
ghost use Rattle.leaf_parts.specs.Parts.{Goes, Uses};
ghost use Rattle.mem_remove.specs.RangeTrees.{kind_below, range_arguments, block_map, block_changes, unblock_map, unblock_changes};

/// The argument rules.
fn are_in_range(
    told: &mut Told,
    machine: Machine,
    tdr: u64,
    gpa: u64,
    level: u64,
) -> Result<(), Stop>
    ensures goes { Goes machine.pages (λ f. range_arguments machine tdr gpa level (f tt)) told.old.left.now told.new.left.now result }
    ensures uses { Uses 0 told.old.left.now told.new.left.now result }
    ensures inside { MatchResult result (λ u. (tdr < machine.pages) × (level ≤ 3)) (λ e. StopIn machine e) }
{
    told.check(tdr < u64::from(machine.pages), Status::OperandInvalid(1))?;
    told.check(gpa < GPAS, Status::OperandInvalid(2))?;
    told.check(level <= TOP, Status::OperandInvalid(3))?;
    told.check(is_aligned(level as u8, gpa), Status::OperandInvalid(2))
}

/// What comes behind the arguments of MEM.RANGE.BLOCK: the entry isn't blocked, its page is held, and
/// TD_EPOCH is told.
fn block(told: Told, place: Place, tdr: u16, gpa: u64, level: u8) -> Result<Verdict, Stop>
    requires { (tdr < place.machine.pages) × (level ≤ 3) }
    ensures decides { Decides place.machine.pages (block_map place.machine tdr gpa level) told.entry.left.now (ending (λ a. block_changes tdr level a.page (index_at level gpa) a.named a.state a.epoch) result) }
    ensures inside { DecisionIn place.machine (λ a. (a.page < place.machine.pages) × (a.named < place.machine.pages)) result }
    ensures early { DecidesEarly 16 (length told.entry.left.now) result }
{
    let mut told = told;
    let n = find_named(&mut told, place, tdr, gpa, level, &OPEN)?;
    let entry = n.entry;
    let epoch = told.load(word_address(n.tdcs, TDCS_EPOCH))?;
    Ok(Verdict::done(Act {
        page: n.page,
        named: entry.page,
        state: entry.state,
        epoch,
        ..Act::NONE
    }))
}

/// What comes behind the arguments of MEM.RANGE.UNBLOCK: the entry is blocked, its page is held, and
/// its block is tracked.
fn unblock(told: Told, place: Place, tdr: u16, gpa: u64, level: u8) -> Result<Verdict, Stop>
    requires { (tdr < place.machine.pages) × (level ≤ 3) }
    ensures decides { Decides place.machine.pages (unblock_map place.machine tdr gpa level) told.entry.left.now (ending (λ a. unblock_changes a.page (index_at level gpa) a.named a.state) result) }
    ensures inside { DecisionIn place.machine (λ a. (a.page < place.machine.pages) × (a.named < place.machine.pages)) result }
    ensures early { DecidesEarly 18 (length told.entry.left.now) result }
{
    let mut told = told;
    let n = find_named(&mut told, place, tdr, gpa, level, &BLOCKED)?;
    let entry = n.entry;
    tracked(&mut told, place, n.tdcs, entry.page)?;
    Ok(Verdict::done(Act {
        page: n.page,
        named: entry.page,
        state: entry.state,
        ..Act::NONE
    }))
}

/// What an entry becomes that is blocked.
fn blocked_state(state: EntryState) -> EntryState
    ensures { result ≡ blocked_state state }
{
    match state {
        EntryState::Mapped => EntryState::Blocked,
        EntryState::Pending => EntryState::PendingBlocked,
        EntryState::NlMapped => EntryState::NlBlocked,
        _ => state,
    }
}

/// What an entry becomes that is unblocked.
pub fn unblocked_state(state: EntryState) -> EntryState
    ensures { result ≡ unblocked_state state }
{
    match state {
        EntryState::Blocked => EntryState::Mapped,
        EntryState::PendingBlocked => EntryState::Pending,
        EntryState::NlBlocked => EntryState::NlMapped,
        _ => state,
    }
}

/// The word of an entry for a page, in a state without a mark.
pub fn entry_of(state: EntryState, page: u16) -> u64
    ensures { result ≡ entry_word (record { state = state; page = page; mark = 0 }) }
{
    let entry = Entry {
        state,
        page,
        mark: 0,
    };
    entry.pack()
}

/// The PAMT word of a page that an entry of a level names, once its block is noted.
fn noted(level: u8, tdr: u16, epoch: u64) -> u64
    ensures { result ≡ pamt_word (record { kind = kind_below level; owner = tdr; epoch = epoch % 2 ^ 32 }) }
{
    let kind = match level {
        0 => PageKind::Reg,
        _ => PageKind::Ept,
    };
    let word = PamtWord {
        kind,
        owner: tdr,
        epoch: (epoch % (1 << 32)) as u32,
    };
    word.pack()
}
