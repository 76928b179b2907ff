//! MEM.SEPT.RD.

use leaf_engine::{Act, Hand, Place, Plan, Stop, Told, Verdict, Write};
use sept_entry::Entry;
use sept_parts::{GPAS, Modes, TOP, is_aligned, td_find};
use td_words::{EntryState, Mode, OpState, Status, Value};

/// The operation states of a TD whose build or import has begun.
const BEGUN: [OpState; 10] = [
    OpState::Initialized,
    OpState::Runnable,
    OpState::LiveExport,
    OpState::PausedExport,
    OpState::PostExport,
    OpState::MemoryImport,
    OpState::StateImport,
    OpState::PostImport,
    OpState::LiveImport,
    OpState::FailedImport,
];

/// MEM.SEPT.RD TDR GPA LEVEL: an entry of a TD's secure EPT.
#[derive(Drop)]
pub struct SeptRd {
    place: Place,
    tdr: u64,
    gpa: u64,
    level: u64,
    ghost machine: { IsMachine place.machine },
}

ghost use Rattle.td_words.specs.Limits.{IsMachine};

impl SeptRd {
    ghost use Rattle.std.specs.Prelude.{◌≡◌};
    ghost use Rattle.mem_build.specs.SeptReadTrees.{sept_read_task};

    /// The plan of a call at a place.
    pub fn plan(place: Place, tdr: u64, gpa: u64, level: u64) -> SeptRd
        requires { IsMachine place.machine }
        ensures { ⟦<SeptRd as Plan>⟧.task result ≡ sept_read_task place tdr gpa level }
    {
        SeptRd {
            place,
            tdr,
            gpa,
            level,
        }
    }
}

impl Plan for SeptRd {
    ghost use Rattle.std.specs.Prelude.{true, []};
    ghost use Rattle.mem_build.specs.SeptReadTrees.{sept_read_task};
    ghost use Rattle.mem_build.specs.SeptReadMeanings.{sept_read-means};

    ghost task = { λ l. sept_read_task l.place l.tdr l.gpa l.level };

    ghost changes = { λ l told a. [] };

    ghost shown = { λ l told a. true };

    fn decide(&self, told: Told) -> Result<Verdict, Stop> {
        let mut told = told;
        let pages = self.place.machine.pages;
        told.check(self.tdr < u64::from(pages), Status::OperandInvalid(1))?;
        told.check(self.gpa < GPAS, Status::OperandInvalid(2))?;
        told.check(self.level <= TOP, Status::OperandInvalid(3))?;
        let level = self.level as u8;
        told.check(is_aligned(level, self.gpa), Status::OperandInvalid(2))?;
        let modes = Modes {
            op: Mode::Shared,
            tree: Mode::Exclusive,
        };
        let tdr = self.tdr as u16;
        let found = td_find(&mut told, self.place, tdr, modes, &BEGUN, self.gpa, level)?;
        Ok(Verdict::answer(entry_value(found.entry)))
    }

    fn write(&self, _act: Act, _told: &[u64], _number: usize, _hand: &mut Hand) -> Option<Write> {
        None
    }

    ghost means = { λ l. sept_read-means l.place l.tdr l.gpa l.level l.machine };
}

ghost use Rattle.std.specs.Prelude.{◌≡◌};
ghost use Rattle.flat_core.specs.MemRows.{entry_value};

/// What is shown of an entry: its state, and the page that it names where it isn't FREE.
fn entry_value(entry: Entry) -> Value
    ensures { result ≡ entry_value entry }
{
    let page = match entry.state {
        EntryState::Free => None,
        _ => Some(entry.page),
    };
    Value::Entry {
        state: entry.state,
        page,
    }
}
