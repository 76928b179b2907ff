//! MEM.SEPT.ADD.

use leaf_engine::{Act, Hand, Place, Plan, Stop, Told, Verdict, Write};
use sept_parts::{GPAS, Mapping, is_aligned, is_upper, map_write, td_map};
use td_words::{EntryState, OpState, PageKind, Status};

/// The operation states in which a TD may get secure EPT pages.
const GROWING: [OpState; 7] = [
    OpState::Initialized,
    OpState::Runnable,
    OpState::LiveExport,
    OpState::MemoryImport,
    OpState::StateImport,
    OpState::PostImport,
    OpState::LiveImport,
];

/// MEM.SEPT.ADD TDR GPA LEVEL PAGE: a host page becomes the one that holds the entries below an
/// entry of a TD's secure EPT.
#[derive(Drop)]
pub struct SeptAdd {
    place: Place,
    tdr: u64,
    gpa: u64,
    level: u64,
    page: u64,
    ghost machine: { IsMachine place.machine },
}

ghost use Rattle.td_words.specs.Limits.{IsMachine};

impl SeptAdd {
    ghost use Rattle.std.specs.Prelude.{◌≡◌};
    ghost use Rattle.mem_build.specs.SeptAddTrees.{sept_add_task};

    /// The plan of a call at a place.
    pub fn plan(place: Place, tdr: u64, gpa: u64, level: u64, page: u64) -> SeptAdd
        requires { IsMachine place.machine }
        ensures { ⟦<SeptAdd as Plan>⟧.task result ≡ sept_add_task place tdr gpa level page }
    {
        SeptAdd {
            place,
            tdr,
            gpa,
            level,
            page,
        }
    }

    ghost use Rattle.std.specs.Prelude.{◌^◌, ◌<◌};
    ghost use Rattle.mem_build.specs.SeptAddTrees.{sept_mapping};

    /// What it maps: the entry may be walked through then.
    fn mapping(&self) -> Mapping
        requires { (self.now.tdr < 2 ^ 16) × (self.now.level < 2 ^ 8) × (self.now.page < 2 ^ 16) }
        ensures { result ≡ sept_mapping self.now.tdr self.now.gpa self.now.level self.now.page }
    {
        Mapping {
            tdr: self.tdr as u16,
            gpa: self.gpa,
            level: self.level as u8,
            page: self.page as u16,
            kind: PageKind::Ept,
            state: EntryState::NlMapped,
        }
    }
}

impl Plan for SeptAdd {
    ghost use Rattle.std.specs.Prelude.{◌∷◌, ◌&&◌, nat_lt, nat_le};
    ghost use Rattle.leaf_engine.specs.Changes.{Clear};
    ghost use Rattle.sept_parts.specs.MapTrees.{map_changes};
    ghost use Rattle.mem_build.specs.SeptAddTrees.{sept_mapping, sept_add_task};
    ghost use Rattle.mem_build.specs.SeptAddMeanings.{sept_add-means};

    ghost task = { λ l. sept_add_task l.place l.tdr l.gpa l.level l.page };

    ghost changes = { λ l told a. Clear l.page ∷ map_changes l.place.machine.pages (sept_mapping l.tdr l.gpa l.level l.page) a.page a.children };

    ghost shown = { λ l told a. nat_lt l.tdr l.place.machine.pages && nat_lt l.page l.place.machine.pages && nat_lt a.page l.place.machine.pages && nat_le l.level 3 };

    fn decide(&self, told: Told) -> Result<Verdict, Stop> {
        let pages = u64::from(self.place.machine.pages);
        told.check(self.tdr < pages, Status::OperandInvalid(1))?;
        told.check(self.gpa < GPAS, Status::OperandInvalid(2))?;
        told.check(is_upper(self.level), Status::OperandInvalid(3))?;
        told.check(self.page < pages, Status::OperandInvalid(4))?;
        told.check(self.page != self.tdr, Status::OperandInvalid(4))?;
        let aligned = is_aligned(self.level as u8, self.gpa);
        told.check(aligned, Status::OperandInvalid(2))?;
        td_map(told, self.place, &GROWING, self.mapping())
    }

    // The page is cleared before it is mapped.
    fn write(&self, act: Act, _told: &[u64], number: usize, _hand: &mut Hand) -> Option<Write> {
        if number == 0 {
            return Some(Write::Zero(self.page as u16));
        }
        let machine = self.place.machine;
        map_write(machine, self.mapping(), act.page, act.children, number - 1)
    }

    ghost means = { λ l. sept_add-means l.place l.tdr l.gpa l.level l.page l.machine };
}
