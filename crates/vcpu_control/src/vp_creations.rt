//! VP.CREATE.

ghost use Rattle.std.specs.Prelude.{◌≡◌, ◌<◌, length};
ghost use Rattle.leaf_engine.specs.Decides.{Decides, ending};
ghost use Rattle.leaf_engine.specs.Inside.{DecisionIn, DecidesEarly};
ghost use Rattle.leaf_parts.specs.ListTrees.{list_changes};
ghost use Rattle.vcpu_control.specs.VpTrees.{vp_list, create_rest};

use crate::words::has_room;
use leaf_engine::{Act, Hand, Place, Plan, Stop, Told, Verdict, Write};
use leaf_parts::{PageList, Td, td_head};
use td_words::places::{TDCS_VP_COUNT, TDCS_VPS, TDCS_VPS_EXPECTED, VP_INDEX};
use td_words::{LimitName, Mode, OpState, PageKind, Status, word_address};

/// VP.CREATE TDR PAGE: a host page becomes the TDVPR page of the TD's next virtual processor.
#[derive(Drop)]
pub struct VpCreate {
    place: Place,
    tdr: u64,
    page: u64,
}

impl VpCreate {
    ghost use Rattle.std.specs.Prelude.{◌≡◌};
    ghost use Rattle.vcpu_control.specs.VpTrees.{vp_create_task};

    /// The plan of a call at a place.
    pub fn plan(place: Place, tdr: u64, page: u64) -> VpCreate
        ensures { ⟦<VpCreate as Plan>⟧.task result ≡ vp_create_task place tdr page }
    {
        VpCreate { place, tdr, page }
    }
}

impl Plan for VpCreate {
    ghost use Rattle.std.specs.Prelude.{◌&&◌, nat_lt};
    ghost use Rattle.vcpu_control.specs.VpTrees.{vp_create_task};
    ghost use Rattle.vcpu_control.specs.VpMeanings.{vp_create-means};

    ghost task = { λ l. vp_create_task l.place l.tdr l.page };

    ghost changes = { λ l told a. list_changes (vp_list a.page) l.place.machine.pages l.tdr l.page a.count a.children };

    ghost shown = { λ l told a. nat_lt l.tdr l.place.machine.pages && nat_lt l.page l.place.machine.pages && nat_lt a.page l.place.machine.pages && nat_lt a.count 8 };

    fn decide(&self, told: Told) -> Result<Verdict, Stop> {
        let mut told = told;
        let pages = self.place.machine.pages;
        told.check(self.tdr < u64::from(pages), Status::OperandInvalid(1))?;
        told.check(self.page < u64::from(pages), Status::OperandInvalid(2))?;
        told.check(self.page != self.tdr, Status::OperandInvalid(2))?;
        let tdr = self.tdr as u16;
        let td = td_head(
            &mut told,
            self.place,
            tdr,
            Mode::Exclusive,
            &[OpState::Initialized, OpState::MemoryImport],
        )?;
        add_vp(told, self.place, tdr, td, self.page as u16)
    }

    fn write(&self, act: Act, _told: &[u64], number: usize, _hand: &mut Hand) -> Option<Write> {
        let _pages = self.place.machine.pages;
        let tdr = self.tdr as u16;
        vp_list(act.page).write(self.place.machine, tdr, self.page as u16, act, number)
    }

    ghost means = { λ l. vp_create-means l.place l.tdr l.page };
}

/// What comes behind the beginning of the row: there is room for another virtual processor.
fn add_vp(told: Told, place: Place, tdr: u16, td: Td, page: u16) -> Result<Verdict, Stop>
    requires { (tdr < place.machine.pages) × (td.tdcs < place.machine.pages) × (page < place.machine.pages) }
    ensures decides { Decides place.machine.pages (create_rest place.machine.pages tdr td page) told.entry.left.now (ending (λ a. list_changes (vp_list a.page) place.machine.pages tdr page a.count a.children) result) }
    ensures inside { DecisionIn place.machine (λ a. (a.page < place.machine.pages) × (a.count < 8)) result }
    ensures early { DecidesEarly 5 (length told.entry.left.now) result }
{
    let mut told = told;
    let count = told.load(word_address(td.tdcs, TDCS_VP_COUNT))?;
    let expected = told.load(word_address(td.tdcs, TDCS_VPS_EXPECTED))?;
    told.check(
        has_room(td.op, expected, count),
        Status::Limit(LimitName::Vcpus),
    )?;
    vp_list(td.tdcs).take(told, place, tdr, page, count)
}

/// The TD's virtual processors, as TDCS lists them.
fn vp_list(tdcs: u16) -> PageList
    ensures { result ≡ vp_list tdcs }
{
    PageList {
        kind: PageKind::Tdvpr,
        page: tdcs,
        first: TDCS_VPS,
        counted: TDCS_VP_COUNT,
        index: Some(VP_INDEX),
    }
}
