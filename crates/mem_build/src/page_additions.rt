//! MEM.PAGE.ADD.

ghost use Rattle.td_words.specs.Limits.{IsMachine};

use leaf_engine::{Act, Hand, Place, Plan, Stop, Told, Verdict, Write};
use leaf_parts::{hkid_slot, host_page};
use sept_parts::{Found, GPAS, Mapping, Modes, found_in, is_aligned, map_write, td_find};
use td_words::places::{TDR_CHILDREN, TDR_HKID};
use td_words::{EntryState, Machine, Mode, OpState, PageKind, Status, word_address};

/// MEM.PAGE.ADD TDR GPA PAGE SOURCE: a host page with the source's words becomes a TD's private
/// page at a GPA, and that it was added there is measured.
#[derive(Drop)]
pub struct PageAdd {
    place: Place,
    given: Given,
    ghost machine: { IsMachine place.machine },
}

/// What the call is given.
#[derive(Clone, Copy, Debug, PartialEq, Eq)]
struct Given {
    tdr: u64,
    gpa: u64,
    page: u64,
    source: u64,
}

impl PageAdd {
    ghost use Rattle.std.specs.Prelude.{◌≡◌};
    ghost use Rattle.td_words.specs.Limits.{IsMachine};
    ghost use Rattle.mem_build.specs.PageAddTrees.{page_add_task};

    /// The plan of a call at a place.
    pub fn plan(place: Place, tdr: u64, gpa: u64, page: u64, source: u64) -> PageAdd
        requires { IsMachine place.machine }
        ensures { ⟦<PageAdd as Plan>⟧.task result ≡ page_add_task place tdr gpa page source }
    {
        PageAdd {
            place,
            given: Given {
                tdr,
                gpa,
                page,
                source,
            },
        }
    }

    ghost use Rattle.std.specs.Prelude.{◌^◌, ◌<◌};
    ghost use Rattle.sept_parts.specs.MapTrees.{private_mapping};

    /// What it maps: a page that the guest may use at once.
    fn mapping(&self) -> Mapping
        requires { (self.now.given.tdr < 2 ^ 16) × (self.now.given.page < 2 ^ 16) }
        ensures { result ≡ private_mapping self.now.given.tdr self.now.given.gpa self.now.given.page }
    {
        Mapping {
            tdr: self.given.tdr as u16,
            gpa: self.given.gpa,
            level: 0,
            page: self.given.page as u16,
            kind: PageKind::Reg,
            state: EntryState::Mapped,
        }
    }
}

impl Plan for PageAdd {
    ghost use Rattle.std.specs.Prelude.{◌==◌, ◌&&◌, not, nat_lt};
    ghost use Rattle.mem_build.specs.PageAddTrees.{page_add_task, addition, added_changes};
    ghost use Rattle.mem_build.specs.PageAddMeanings.{page_add-means};

    ghost task = { λ l. page_add_task l.place l.given.tdr l.given.gpa l.given.page l.given.source };

    ghost changes = { λ l told a. added_changes l.place.machine (addition l.given.tdr l.given.gpa l.given.page l.given.source a) };

    ghost shown = { λ l told a. nat_lt l.given.tdr l.place.machine.pages && nat_lt l.given.page l.place.machine.pages && nat_lt l.given.source l.place.machine.pages && not (l.given.source == l.given.page) && nat_lt a.page l.place.machine.pages };

    fn decide(&self, told: Told) -> Result<Verdict, Stop> {
        let mut told = told;
        let given = self.given;
        are_allowed(&mut told, self.place.machine, given)?;
        of_td(
            told,
            self.place,
            given.tdr as u16,
            given.gpa,
            given.page as u16,
            given.source as u16,
        )
    }

    // The copy, what maps the page, and the hasher out of its slot and back with the page's record.
    fn write(&self, act: Act, _told: &[u64], number: usize, hand: &mut Hand) -> Option<Write> {
        let machine = self.place.machine;
        let given = self.given;
        let slot = hkid_slot(machine, act.hkid)?;
        if number == 0 {
            let from = given.source as u16;
            let to = given.page as u16;
            return Some(Write::Copy { from, to });
        }
        if number < 4 {
            return map_write(machine, self.mapping(), act.page, act.children, number - 1);
        }
        match number {
            4 => *hand = None,
            5 => measure(hand, given.gpa),
            _ => return None,
        }
        Some(Write::Swap(slot))
    }

    ghost means = { λ l. page_add-means l.place l.given.tdr l.given.gpa l.given.page l.given.source l.machine };
}

ghost use Rattle.std.specs.Prelude.{◌≡◌, ◌<◌, length, MatchResult};
ghost use Rattle.leaf_engine.specs.Decides.{Decides, ending};
ghost use Rattle.leaf_engine.specs.Inside.{DecisionIn, DecidesEarly, StopIn};
ghost use Rattle.leaf_parts.specs.Parts.{Goes, Uses};
ghost use Rattle.leaf_parts.specs.Arguments.{checked};
ghost use Rattle.mem_build.specs.PageAddTrees.{addition, added_changes, addition_end, page_add_arguments, free_tree, pages_tree, td_tree};
ghost use Rattle.mem_build.specs.PageAddParts.{AreAllowed};

/// The argument rules.
fn are_allowed(told: &mut Told, machine: Machine, given: Given) -> Result<(), Stop>
    ensures goes { Goes machine.pages (λ f. checked (page_add_arguments machine given.tdr given.gpa given.page given.source) (f tt)) told.old.left.now told.new.left.now result }
    ensures uses { Uses 0 told.old.left.now told.new.left.now result }
    ensures inside { MatchResult result (λ u. AreAllowed machine given) (λ e. StopIn machine e) }
{
    let pages = u64::from(machine.pages);
    told.check(given.tdr < pages, Status::OperandInvalid(1))?;
    told.check(given.gpa < GPAS, Status::OperandInvalid(2))?;
    told.check(given.page < pages, Status::OperandInvalid(3))?;
    told.check(given.source < pages, Status::OperandInvalid(4))?;
    told.check(given.page != given.tdr, Status::OperandInvalid(3))?;
    told.check(given.source != given.tdr, Status::OperandInvalid(4))?;
    told.check(given.source != given.page, Status::OperandInvalid(4))?;
    told.check(is_aligned(0, given.gpa), Status::OperandInvalid(2))
}

/// What comes behind the argument rules.
fn of_td(
    told: Told,
    place: Place,
    tdr: u16,
    gpa: u64,
    page: u16,
    source: u16,
) -> Result<Verdict, Stop>
    requires { (tdr < place.machine.pages) × (page < place.machine.pages) × (source < place.machine.pages) }
    ensures decides { Decides place.machine.pages (td_tree place.machine.pages tdr gpa page source (λ a. addition_end place.machine a)) told.entry.left.now (ending (λ a. added_changes place.machine (addition tdr gpa page source a)) result) }
    ensures inside { DecisionIn place.machine (λ a. a.page < place.machine.pages) result }
    ensures early { DecidesEarly 19 (length told.entry.left.now) result }
{
    let mut told = told;
    let table = free_entry(&mut told, place, tdr, gpa)?;
    let counts = host_pages(&mut told, place, tdr, page, source)?;
    Ok(Verdict::done(Act {
        page: table,
        hkid: counts.hkid,
        children: counts.children,
        ..Act::NONE
    }))
}

/// The beginning of the row: the entry of the GPA is FREE. The secure EPT page in which it stands.
fn free_entry(told: &mut Told, place: Place, tdr: u16, gpa: u64) -> Result<u16, Stop>
    requires { tdr < place.machine.pages }
    ensures goes { Goes place.machine.pages (λ f. free_tree place.machine.pages tdr gpa f) told.old.left.now told.new.left.now result }
    ensures uses { Uses 13 told.old.left.now told.new.left.now result }
    ensures inside { MatchResult result (λ p. p < place.machine.pages) (λ e. StopIn place.machine e) }
{
    let modes = Modes {
        op: Mode::Exclusive,
        tree: Mode::Exclusive,
    };
    let found = td_find(told, place, tdr, modes, &[OpState::Initialized], gpa, 0)?;
    table_of(told, found)
}

ghost use Rattle.mem_build.specs.PageAddParts.{TableOf};

/// The secure EPT page in which an entry stands that is FREE.
fn table_of(told: &Told, found: Found) -> Result<u16, Stop>
    ensures { TableOf found result }
{
    let table = found.page;
    found_in(told, found, &[EntryState::Free])?;
    Ok(table)
}

/// What the TDR tells besides its life state.
#[derive(Clone, Copy, Debug, PartialEq, Eq)]
struct Counts {
    hkid: u64,
    children: u64,
}

/// Both pages are the host's; the HKID, and the child count.
fn host_pages(
    told: &mut Told,
    place: Place,
    tdr: u16,
    page: u16,
    source: u16,
) -> Result<Counts, Stop>
    requires { (tdr < place.machine.pages) × (page < place.machine.pages) × (source < place.machine.pages) }
    ensures goes { Goes place.machine.pages (λ f. pages_tree tdr page source (λ h n. f (record { hkid = h; children = n }))) told.old.left.now told.new.left.now result }
    ensures uses { Uses 6 told.old.left.now told.new.left.now result }
    ensures inside { MatchResult result (λ c. Unit {0}) (λ e. StopIn place.machine e) }
{
    host_page(told, place, source)?;
    host_page(told, place, page)?;
    let hkid = told.load(word_address(tdr, TDR_HKID))?;
    let children = told.load(word_address(tdr, TDR_CHILDREN))?;
    Ok(Counts { hkid, children })
}

ghost use Rattle.leaf_engine.specs.Changes as memory;
ghost use Rattle.leaf_engine.specs.Decides.{IsHand};
ghost use Rattle.mem_build.specs.PageAddTrees.{with_page};

/// The record of a page is appended to what the hasher in hand has measured.
fn measure(hasher: &mut Hand, gpa: u64)
    ensures { (hand : memory.Hand) → IsHand hasher.old hand → IsHand hasher.new (with_page gpa hand) }
{
    if let Some(measure) = hasher {
        measure.add_page(gpa);
    }
}
