//! The loads of a guest's walk.

ghost use Rattle.std.specs.Prelude.{◌≡◌, ◌<◌, ◌≤◌, ◌^◌};
ghost use Rattle.td_words.specs.Address.{word_at};
ghost use Rattle.td_words.specs.Limits.{IsMachine};
ghost use Rattle.flat_core.specs.Locks.{one_if};
ghost use Rattle.sept_walk.specs.SecureEpt.{index_at};
ghost use Rattle.word_rules.specs.Rules.{TheRights};
ghost use Rattle.word_rules.specs.Views.{look, rights_by, named_by};

use flat_core::allows;
use leaf_engine::{Act, Hand, Place, Plan, Stop, Told, Verdict, Write};
use sept_entry::Entry;
use sept_parts::is_mapped_on;
use sept_walk::index;
use td_words::{Access, EntryState, Value, word_address};

/// A number that is no page's.
pub const NO_PAGE: u64 = 1 << 16;

/// The load of the entry of a level that maps a private GPA, in a guest's walk for an access, from the
/// secure EPT page where it stands.
#[derive(Drop)]
pub struct WalkLoad {
    place: Place,
    tdr: u16,
    vp: u16,
    access: Access,
    gpa: u64,
    level: u8,
    page: u16,
    ghost machine: { IsMachine place.machine },
    ghost page_inside: { page < place.machine.pages },
    ghost private: { gpa < 2 ^ 47 },
    ghost low: { level ≤ 3 },
}

impl WalkLoad {
    ghost use Rattle.std.specs.Prelude.{◌≡◌, ◌<◌, ◌≤◌, ◌^◌};
    ghost use Rattle.td_words.specs.Limits.{IsMachine};
    ghost use Rattle.access_core.specs.WalkTrees.{walk_task};

    /// The plan of a load, at a place.
    pub fn plan(
        place: Place,
        tdr: u16,
        vp: u16,
        access: Access,
        gpa: u64,
        level: u8,
        page: u16,
    ) -> WalkLoad
        requires machine { IsMachine place.machine }
        requires page_inside { page < place.machine.pages }
        requires private { gpa < 2 ^ 47 }
        requires low { level ≤ 3 }
        ensures { ⟦<WalkLoad as Plan>⟧.task result ≡ walk_task place tdr vp access gpa level page }
    {
        WalkLoad {
            place,
            tdr,
            vp,
            access,
            gpa,
            level,
            page,
        }
    }
}

impl Plan for WalkLoad {
    ghost use Rattle.std.specs.Prelude.{true, []};
    ghost use Rattle.access_core.specs.WalkTrees.{walk_task};
    ghost use Rattle.access_core.specs.WalkMeanings.{walks-mean};

    ghost task = { λ l. walk_task l.place l.tdr l.vp l.access l.gpa l.level l.page };

    ghost changes = { λ l told a. [] };

    ghost shown = { λ l told a. true };

    fn decide(&self, told: Told) -> Result<Verdict, Stop> {
        let mut told = told;
        let word = told.load(entry_address(self.page, self.level, self.gpa))?;
        Ok(Verdict::answer(Value::Number(rights_told(word))))
    }

    fn write(&self, _act: Act, _told: &[u64], _number: usize, _hand: &mut Hand) -> Option<Write> {
        None
    }

    ghost means = { λ l. walks-mean l.place l.tdr l.vp l.access l.gpa l.level l.page l.machine l.private l.low };
}

/// Where the entry of a level that maps a GPA stands, in a secure EPT page.
pub fn entry_address(page: u16, level: u8, gpa: u64) -> u32
    requires { level ≤ 3 }
    ensures { result ≡ word_at page (index_at level gpa) }
{
    word_address(page, index(level, gpa))
}

/// What a word tells of its entry: the page that it names, and below it three bits, whether a walk
/// goes on behind it, whether it lets read, and whether it lets write.
pub fn rights_told(word: u64) -> u64
    ensures { result ≡ look TheRights word }
{
    match Entry::unpack(word) {
        Some(entry) => rights_of(entry),
        None => NO_PAGE,
    }
}

fn rights_of(entry: Entry) -> u64
    ensures { result ≡ rights_by entry }
{
    let on = one_if(is_mapped_on(entry));
    let reads = one_if(allows(entry.state, Access::Read));
    let writes = one_if(allows(entry.state, Access::Write));
    8 * named_by(entry) + (4 * on + (2 * reads + writes))
}

/// The page that an entry names.
pub fn named_by(entry: Entry) -> u64
    ensures { result ≡ named_by entry }
{
    match entry.state {
        EntryState::Free => NO_PAGE,
        _ => u64::from(entry.page),
    }
}

fn one_if(holds: bool) -> u64
    ensures { result ≡ one_if holds }
{
    if holds { 1 } else { 0 }
}
