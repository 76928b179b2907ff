//! MEM.PAGE.AUG.

use leaf_engine::{Act, Hand, Place, Plan, Stop, Told, Verdict, Write};
use sept_parts::{GPAS, Mapping, is_aligned, map_write, td_map};
use td_words::{EntryState, OpState, PageKind, Status};

/// The operation states in which a TD may get private pages that its guest is to accept.
const AUGMENTED: [OpState; 2] = [OpState::Runnable, OpState::LiveExport];

/// MEM.PAGE.AUG TDR GPA PAGE: a host page becomes a private page of a TD that runs, and waits until
/// its guest accepts it.
#[derive(Drop)]
pub struct PageAug {
    place: Place,
    tdr: u64,
    gpa: u64,
    page: u64,
    ghost machine: { IsMachine place.machine },
}

ghost use Rattle.td_words.specs.Limits.{IsMachine};

impl PageAug {
    ghost use Rattle.std.specs.Prelude.{◌≡◌};
    ghost use Rattle.mem_build.specs.PageAugTrees.{page_aug_task};

    /// The plan of a call at a place.
    pub fn plan(place: Place, tdr: u64, gpa: u64, page: u64) -> PageAug
        requires { IsMachine place.machine }
        ensures { ⟦<PageAug as Plan>⟧.task result ≡ page_aug_task place tdr gpa page }
    {
        PageAug {
            place,
            tdr,
            gpa,
            page,
        }
    }

    ghost use Rattle.std.specs.Prelude.{◌^◌, ◌<◌};
    ghost use Rattle.mem_build.specs.PageAugTrees.{page_aug_mapping};

    /// What it maps: the entry waits for the guest then.
    fn mapping(&self) -> Mapping
        requires { (self.now.tdr < 2 ^ 16) × (self.now.page < 2 ^ 16) }
        ensures { result ≡ page_aug_mapping self.now.tdr self.now.gpa self.now.page }
    {
        Mapping {
            tdr: self.tdr as u16,
            gpa: self.gpa,
            level: 0,
            page: self.page as u16,
            kind: PageKind::Reg,
            state: EntryState::Pending,
        }
    }
}

impl Plan for PageAug {
    ghost use Rattle.std.specs.Prelude.{◌&&◌, nat_lt};
    ghost use Rattle.sept_parts.specs.MapTrees.{map_changes};
    ghost use Rattle.mem_build.specs.PageAugTrees.{page_aug_mapping, page_aug_task};
    ghost use Rattle.mem_build.specs.PageAugMeanings.{page_aug-means};

    ghost task = { λ l. page_aug_task l.place l.tdr l.gpa l.page };

    ghost changes = { λ l told a. map_changes l.place.machine.pages (page_aug_mapping l.tdr l.gpa l.page) a.page a.children };

    ghost shown = { λ l told a. nat_lt l.tdr l.place.machine.pages && nat_lt l.page l.place.machine.pages && nat_lt a.page l.place.machine.pages };

    fn decide(&self, told: Told) -> Result<Verdict, Stop> {
        let pages = u64::from(self.place.machine.pages);
        told.check(self.tdr < pages, Status::OperandInvalid(1))?;
        told.check(self.gpa < GPAS, Status::OperandInvalid(2))?;
        told.check(self.page < pages, Status::OperandInvalid(3))?;
        told.check(self.page != self.tdr, Status::OperandInvalid(3))?;
        told.check(is_aligned(0, self.gpa), Status::OperandInvalid(2))?;
        td_map(told, self.place, &AUGMENTED, self.mapping())
    }

    fn write(&self, act: Act, _told: &[u64], number: usize, _hand: &mut Hand) -> Option<Write> {
        let machine = self.place.machine;
        map_write(machine, self.mapping(), act.page, act.children, number)
    }

    ghost means = { λ l. page_aug-means l.place l.tdr l.gpa l.page l.machine };
}
