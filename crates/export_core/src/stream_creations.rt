//! MIG.STREAM.CREATE.

ghost use Rattle.std.specs.Prelude.{◌≡◌, ◌<◌, length};
ghost use Rattle.leaf_engine.specs.Decides.{Decides, ending};
ghost use Rattle.leaf_engine.specs.Inside.{DecisionIn, DecidesEarly};
ghost use Rattle.leaf_parts.specs.ListTrees.{list_changes};
ghost use Rattle.export_core.specs.StreamTrees.{stream_list, stream_rest};

use leaf_engine::{Act, Hand, Place, Plan, Stop, Told, Verdict, Write};
use leaf_parts::{PageList, td_head};
use td_words::places::{TDCS_STREAM_COUNT, TDCS_STREAMS};
use td_words::{LimitName, Mode, OpState, PageKind, Status, word_address};

/// The operation states in which a TD may get streams.
const UNMOVED: [OpState; 3] = [
    OpState::Uninitialized,
    OpState::Initialized,
    OpState::Runnable,
];

/// MIG.STREAM.CREATE TDR PAGE: a host page becomes the page of the TD's next migration stream.
#[derive(Drop)]
pub struct StreamCreate {
    place: Place,
    tdr: u64,
    page: u64,
}

impl StreamCreate {
    ghost use Rattle.std.specs.Prelude.{◌≡◌};
    ghost use Rattle.export_core.specs.StreamTrees.{stream_create_task};

    /// The plan of a call at a place.
    pub fn plan(place: Place, tdr: u64, page: u64) -> StreamCreate
        ensures { ⟦<StreamCreate as Plan>⟧.task result ≡ stream_create_task place tdr page }
    {
        StreamCreate { place, tdr, page }
    }
}

impl Plan for StreamCreate {
    ghost use Rattle.std.specs.Prelude.{◌&&◌, nat_lt};
    ghost use Rattle.export_core.specs.StreamTrees.{stream_create_task};
    ghost use Rattle.export_core.specs.StreamMeanings.{stream_create-means};

    ghost task = { λ l. stream_create_task l.place l.tdr l.page };

    ghost changes = { λ l told a. list_changes (stream_list a.page) l.place.machine.pages l.tdr l.page a.count a.children };

    ghost shown = { λ l told a. nat_lt l.tdr l.place.machine.pages && nat_lt l.page l.place.machine.pages && nat_lt a.page l.place.machine.pages && nat_lt a.count 4 };

    fn decide(&self, told: Told) -> Result<Verdict, Stop> {
        let mut told = told;
        let pages = self.place.machine.pages;
        told.check(self.tdr < u64::from(pages), Status::OperandInvalid(1))?;
        told.check(self.page < u64::from(pages), Status::OperandInvalid(2))?;
        told.check(self.page != self.tdr, Status::OperandInvalid(2))?;
        let tdr = self.tdr as u16;
        let td = td_head(&mut told, self.place, tdr, Mode::Exclusive, &UNMOVED)?;
        add_stream(told, self.place, tdr, td.tdcs, self.page as u16)
    }

    fn write(&self, act: Act, _told: &[u64], number: usize, _hand: &mut Hand) -> Option<Write> {
        let _pages = self.place.machine.pages;
        let tdr = self.tdr as u16;
        stream_list(act.page).write(self.place.machine, tdr, self.page as u16, act, number)
    }

    ghost means = { λ l. stream_create-means l.place l.tdr l.page };
}

/// What comes behind the beginning of the row: there is room for another stream.
fn add_stream(told: Told, place: Place, tdr: u16, tdcs: u16, page: u16) -> Result<Verdict, Stop>
    requires { (tdr < place.machine.pages) × (tdcs < place.machine.pages) × (page < place.machine.pages) }
    ensures decides { Decides place.machine.pages (stream_rest place.machine.pages tdr tdcs page) told.entry.left.now (ending (λ a. list_changes (stream_list a.page) place.machine.pages tdr page a.count a.children) result) }
    ensures inside { DecisionIn place.machine (λ a. (a.page < place.machine.pages) × (a.count < 4)) result }
    ensures early { DecidesEarly 4 (length told.entry.left.now) result }
{
    let mut told = told;
    let count = told.load(word_address(tdcs, TDCS_STREAM_COUNT))?;
    told.check(count < 4, Status::Limit(LimitName::Streams))?;
    stream_list(tdcs).take(told, place, tdr, page, count)
}

/// The TD's streams, as TDCS lists them.
fn stream_list(tdcs: u16) -> PageList
    ensures { result ≡ stream_list tdcs }
{
    PageList {
        kind: PageKind::Migsc,
        page: tdcs,
        first: TDCS_STREAMS,
        counted: TDCS_STREAM_COUNT,
        index: None,
    }
}
