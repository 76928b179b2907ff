//! MNG.ADDCX.

ghost use Rattle.std.specs.Prelude.{◌≡◌, ◌<◌, length};
ghost use Rattle.leaf_engine.specs.Decides.{Decides, ending};
ghost use Rattle.leaf_engine.specs.Inside.{DecisionIn, DecidesEarly};
ghost use Rattle.leaf_parts.specs.ListTrees.{list_changes};
ghost use Rattle.td_control.specs.AddTrees.{control_list, room_tree};

use leaf_engine::{Act, Hand, Place, Plan, Stop, Told, Verdict, Write};
use leaf_parts::{PageList, tdr_head};
use td_words::places::{TDR_TDCS, TDR_TDCX_COUNT};
use td_words::{LifeState, PageKind, Status, word_address};

/// MNG.ADDCX TDR PAGE: a host page becomes a TD's next TDCX page.
#[derive(Drop)]
pub struct AddCx {
    place: Place,
    tdr: u64,
    page: u64,
}

impl AddCx {
    ghost use Rattle.std.specs.Prelude.{◌≡◌};
    ghost use Rattle.td_control.specs.AddTrees.{add_task};

    /// The plan of a call at a place.
    pub fn plan(place: Place, tdr: u64, page: u64) -> AddCx
        ensures { ⟦<AddCx as Plan>⟧.task result ≡ add_task place tdr page }
    {
        AddCx { place, tdr, page }
    }
}

impl Plan for AddCx {
    ghost use Rattle.std.specs.Prelude.{◌&&◌, nat_lt};
    ghost use Rattle.td_control.specs.AddTrees.{add_task};
    ghost use Rattle.td_control.specs.AddMeanings.{add-means};

    ghost task = { λ l. add_task l.place l.tdr l.page };

    ghost changes = { λ l told a. list_changes (control_list l.tdr) l.place.machine.pages l.tdr l.page a.count a.children };

    ghost shown = { λ l told a. nat_lt l.tdr l.place.machine.pages && nat_lt l.page l.place.machine.pages && nat_lt a.count 2 };

    fn decide(&self, told: Told) -> Result<Verdict, Stop> {
        let mut told = told;
        let pages = self.place.machine.pages;
        told.check(self.tdr < u64::from(pages), Status::OperandInvalid(1))?;
        told.check(self.page < u64::from(pages), Status::OperandInvalid(2))?;
        told.check(self.page != self.tdr, Status::OperandInvalid(2))?;
        let tdr = self.tdr as u16;
        tdr_head(&mut told, self.place, tdr, &[LifeState::KeysConfigured])?;
        add(told, self.place, tdr, self.page as u16)
    }

    fn write(&self, act: Act, _told: &[u64], number: usize, _hand: &mut Hand) -> Option<Write> {
        let _pages = self.place.machine.pages;
        let tdr = self.tdr as u16;
        control_list(tdr).write(self.place.machine, tdr, self.page as u16, act, number)
    }

    ghost means = { λ l. add-means l.place l.tdr l.page };
}

/// What comes after the head: there is room for another TDCX page.
fn add(told: Told, place: Place, tdr: u16, page: u16) -> Result<Verdict, Stop>
    requires { (tdr < place.machine.pages) × (page < place.machine.pages) }
    ensures decides { Decides place.machine.pages (room_tree place.machine.pages tdr page) told.entry.left.now (ending (λ a. list_changes (control_list tdr) place.machine.pages tdr page a.count a.children) result) }
    ensures inside { DecisionIn place.machine (λ a. a.count < 2) result }
    ensures early { DecidesEarly 4 (length told.entry.left.now) result }
{
    let mut told = told;
    let count = told.load(word_address(tdr, TDR_TDCX_COUNT))?;
    told.check(count < 2, Status::TdcxNumIncorrect(2))?;
    control_list(tdr).take(told, place, tdr, page, count)
}

/// The TD's TDCX pages, as its TDR page lists them: TDCS, and behind it the root.
fn control_list(tdr: u16) -> PageList
    ensures { result ≡ control_list tdr }
{
    PageList {
        kind: PageKind::Tdcx,
        page: tdr,
        first: TDR_TDCS,
        counted: TDR_TDCX_COUNT,
        index: None,
    }
}
