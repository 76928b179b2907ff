//! MEM.PAGE.REMOVE.

ghost use Rattle.std.specs.Prelude.{◌≡◌, ℕ, ◌<◌, length, Option, MatchOption};
ghost use Rattle.mrtd_measure.specs.declared.measures.Measure.{Measure};
ghost use Rattle.td_words.specs.Limits.{IsMachine};
ghost use Rattle.leaf_engine.specs.Decides.{Decides, ending, HandsAt};
ghost use Rattle.leaf_engine.specs.Inside.{DecisionIn, DecidesEarly};
ghost use Rattle.mem_remove.specs.TrackedTrees.{tracked_tree};
ghost use Rattle.mem_remove.specs.RemoveTrees.{given_tree, remove_changes};

use crate::named_entries::find_named;
use crate::tracked_blocks::tracked;
use leaf_engine::{Act, Hand, Place, Plan, Stop, Told, Verdict, Write};
use leaf_parts::lowered;
use sept_parts::{GPAS, is_aligned};
use sept_walk::index;
use td_words::places::TDR_CHILDREN;
use td_words::{EntryState, Machine, Status, pamt_address, word_address};

/// The states of an entry whose private page may be removed.
pub const REMOVED: [EntryState; 2] = [EntryState::Blocked, EntryState::PendingBlocked];

/// MEM.PAGE.REMOVE TDR GPA: a private page is the host's again, once nobody can use a translation to
/// it.
#[derive(Drop)]
pub struct PageRemove {
    place: Place,
    tdr: u64,
    gpa: u64,
    ghost machine: { IsMachine place.machine },
}

impl PageRemove {
    ghost use Rattle.std.specs.Prelude.{◌≡◌};
    ghost use Rattle.mem_remove.specs.RemoveTrees.{page_remove_task};

    /// The plan of a call at a place.
    pub fn plan(place: Place, tdr: u64, gpa: u64) -> PageRemove
        requires { IsMachine place.machine }
        ensures { ⟦<PageRemove as Plan>⟧.task result ≡ page_remove_task place tdr gpa }
    {
        PageRemove { place, tdr, gpa }
    }
}

impl Plan for PageRemove {
    ghost use Rattle.std.specs.Prelude.{◌&&◌, nat_lt};
    ghost use Rattle.sept_walk.specs.SecureEpt.{index_at};
    ghost use Rattle.mem_remove.specs.RemoveTrees.{page_remove_task, remove_changes};
    ghost use Rattle.mem_remove.specs.RemoveMeanings.{page_remove-means};

    ghost task = { λ l. page_remove_task l.place l.tdr l.gpa };

    ghost changes = { λ l told a. remove_changes l.tdr a.page (index_at 0 l.gpa) a.named a.children };

    ghost shown = { λ l told a. nat_lt l.tdr l.place.machine.pages && nat_lt a.page l.place.machine.pages && nat_lt a.named l.place.machine.pages };

    fn decide(&self, told: Told) -> Result<Verdict, Stop> {
        let mut told = told;
        let pages = self.place.machine.pages;
        told.check(self.tdr < u64::from(pages), Status::OperandInvalid(1))?;
        told.check(self.gpa < GPAS, Status::OperandInvalid(2))?;
        told.check(is_aligned(0, self.gpa), Status::OperandInvalid(2))?;
        let tdr = self.tdr as u16;
        let named = find_named(&mut told, self.place, tdr, self.gpa, 0, &REMOVED)?;
        let page = named.entry.page;
        remove(told, self.place, tdr, named.tdcs, named.page, page)
    }

    fn write(&self, act: Act, _told: &[u64], number: usize, _hand: &mut Hand) -> Option<Write> {
        let at = index(0, self.gpa);
        give_back(self.place.machine, self.tdr as u16, at, act, number)
    }

    ghost means = { λ l. page_remove-means l.place l.tdr l.gpa l.machine };
}

/// What comes behind the beginning of the row: the block of the page that the entry names is tracked.
pub fn remove(
    told: Told,
    place: Place,
    tdr: u16,
    tdcs: u16,
    at: u16,
    page: u16,
) -> Result<Verdict, Stop>
    requires { (tdr < place.machine.pages) × (tdcs < place.machine.pages) × (at < place.machine.pages) × (page < place.machine.pages) }
    ensures decides { (index : ℕ) → Decides place.machine.pages (tracked_tree tdcs page (given_tree tdr at index page)) told.entry.left.now (ending (λ a. remove_changes tdr a.page index a.named a.children) result) }
    ensures inside { DecisionIn place.machine (λ a. (a.page < place.machine.pages) × (a.named < place.machine.pages)) result }
    ensures early { DecidesEarly 4 (length told.entry.left.now) result }
{
    let mut told = told;
    tracked(&mut told, place, tdcs, page)?;
    let children = told.load(word_address(tdr, TDR_CHILDREN))?;
    Ok(Verdict::done(Act {
        page: at,
        named: page,
        children,
        ..Act::NONE
    }))
}

/// The write of that number of a removal. The act is the store of the entry, which is FREE then; then
/// the page that it named is cleared and given back, and the child count falls.
pub fn give_back(machine: Machine, tdr: u16, index: u16, act: Act, number: usize) -> Option<Write>
    requires { (tdr < machine.pages) × (index < 512) × (act.page < machine.pages) × (act.named < machine.pages) }
    ensures hands { (h : Option Measure) → HandsAt machine (remove_changes tdr act.page index act.named act.children) number h h result }
    ensures few { MatchOption result Unit (λ w. number < 4) }
{
    let _pages = machine.pages;
    let write = match number {
        0 => Write::store(word_address(act.page, index), 0),
        1 => Write::Zero(act.named),
        2 => Write::store(pamt_address(act.named), 0),
        3 => Write::store(word_address(tdr, TDR_CHILDREN), lowered(act.children)),
        _ => return None,
    };
    Some(write)
}
