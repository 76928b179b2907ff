//! PHYMEM.PAGE.RECLAIM.

ghost use Rattle.std.specs.Prelude.{◌<◌, ◌==◌, true, false, length};
ghost use Rattle.leaf_engine.specs.Decides.{Decides, ending};
ghost use Rattle.leaf_engine.specs.Inside.{DecisionIn, DecidesEarly};
ghost use Rattle.key_table.specs.ReclaimTrees.{give_back, reclaim_rest};

use crate::words::is_owned;
use leaf_engine::{Act, Hand, Place, Plan, Stop, Told, Verdict, Write};
use leaf_parts::{lowered, tdr_head};
use td_words::places::TDR_CHILDREN;
use td_words::{
    LifeState, LockName, Machine, Mode, Status, lock_address, pamt_address, word_address,
};

/// PHYMEM.PAGE.RECLAIM TDR PAGE: a page of a TD at the end of its life is cleared and given back
/// to the host, its TDR page last.
#[derive(Drop)]
pub struct Reclaim {
    place: Place,
    tdr: u64,
    page: u64,
    ghost few_pages: { place.machine.pages < 65536 },
}

impl Reclaim {
    ghost use Rattle.std.specs.Prelude.{◌≡◌, ◌<◌};
    ghost use Rattle.key_table.specs.ReclaimTrees.{reclaim_task};

    /// The plan of a call at a place.
    pub fn plan(place: Place, tdr: u64, page: u64) -> Reclaim
        ensures { ⟦<Reclaim as Plan>⟧.task result ≡ reclaim_task place tdr page }
    {
        Reclaim { place, tdr, page }
    }
}

impl Plan for Reclaim {
    ghost use Rattle.std.specs.Prelude.{◌==◌, ◌&&◌, nat_lt};
    ghost use Rattle.key_table.specs.ReclaimTrees.{reclaim_task, give_back};
    ghost use Rattle.key_table.specs.ReclaimMeanings.{reclaim-means};

    ghost task = { λ l. reclaim_task l.place l.tdr l.page };

    ghost changes = { λ l told a. give_back l.tdr l.page (l.page == l.tdr) a.children };

    ghost shown = { λ l told a. nat_lt l.tdr l.place.machine.pages && nat_lt l.page l.place.machine.pages };

    fn decide(&self, told: Told) -> Result<Verdict, Stop> {
        let mut told = told;
        let pages = self.place.machine.pages;
        told.check(self.tdr < u64::from(pages), Status::OperandInvalid(1))?;
        told.check(self.page < u64::from(pages), Status::OperandInvalid(2))?;
        let tdr = self.tdr as u16;
        tdr_head(&mut told, self.place, tdr, &[LifeState::Teardown])?;
        give_back(told, self.place.machine, tdr, self.page as u16)
    }

    fn write(&self, act: Act, _told: &[u64], number: usize, _hand: &mut Hand) -> Option<Write> {
        let _pages = self.place.machine.pages;
        let page = self.page as u16;
        let write = match number {
            0 => Write::store(pamt_address(page), 0),
            1 => Write::Zero(page),
            2 if self.page != self.tdr => {
                let at = word_address(self.tdr as u16, TDR_CHILDREN);
                Write::store(at, lowered(act.children))
            }
            _ => return None,
        };
        Some(write)
    }

    ghost means = { λ l. reclaim-means l.place l.tdr l.page l.few_pages };
}

/// What comes after the head: the page is the TDR page itself, or another page of the TD.
fn give_back(told: Told, machine: Machine, tdr: u16, page: u16) -> Result<Verdict, Stop>
    requires { (tdr < machine.pages) × (page < machine.pages) }
    ensures decides { Decides machine.pages (reclaim_rest tdr page (page == tdr)) told.entry.left.now (ending (λ a. give_back tdr page (page == tdr) a.children) result) }
    ensures inside { DecisionIn machine (λ a. Unit {0}) result }
    ensures early { DecidesEarly 3 (length told.entry.left.now) result }
{
    if page == tdr {
        give_back_tdr(told, machine, tdr, page)
    } else {
        give_back_child(told, machine, tdr, page)
    }
}

/// A TDR page is given back when no child is left.
fn give_back_tdr(told: Told, machine: Machine, tdr: u16, page: u16) -> Result<Verdict, Stop>
    requires { (tdr < machine.pages) × (page < machine.pages) }
    ensures decides { Decides machine.pages (reclaim_rest tdr page true) told.entry.left.now (ending (λ a. give_back tdr page true a.children) result) }
    ensures inside { DecisionIn machine (λ a. Unit {0}) result }
    ensures early { DecidesEarly 1 (length told.entry.left.now) result }
{
    let mut told = told;
    let children = told.load(word_address(tdr, TDR_CHILDREN))?;
    told.check(children == 0, Status::PagesExist(children))?;
    Ok(Verdict::done(Act {
        children,
        ..Act::NONE
    }))
}

/// A child is given back, and the child count falls.
fn give_back_child(told: Told, machine: Machine, tdr: u16, page: u16) -> Result<Verdict, Stop>
    requires { (tdr < machine.pages) × (page < machine.pages) }
    ensures decides { Decides machine.pages (reclaim_rest tdr page false) told.entry.left.now (ending (λ a. give_back tdr page false a.children) result) }
    ensures inside { DecisionIn machine (λ a. Unit {0}) result }
    ensures early { DecidesEarly 3 (length told.entry.left.now) result }
{
    let mut told = told;
    told.lock(LockName::Page(page), lock_address(page), Mode::Exclusive)?;
    let owned = told.load(pamt_address(page))?;
    told.check(is_owned(tdr, owned), Status::PageMetadataIncorrect(page))?;
    let children = told.load(word_address(tdr, TDR_CHILDREN))?;
    Ok(Verdict::done(Act {
        children,
        ..Act::NONE
    }))
}
