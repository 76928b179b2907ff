//! The beginning of the calls that share the map: the one that blocks writing, and the export of a page.

ghost use Rattle.std.specs.Prelude.{◌≡◌, ℕ, ◌<◌, MatchResult};
ghost use Rattle.word_rules.specs.Rules.{ThePage};
ghost use Rattle.word_rules.specs.Views.{look, named_by};
ghost use Rattle.leaf_engine.specs.Inside.{StopIn};
ghost use Rattle.leaf_parts.specs.Parts.{Goes, Feeds, Uses};
ghost use Rattle.export_core.specs.WriteTrees.{shared_walk, page_tree, held_tree, writable_tree};

use leaf_engine::{Place, Stop, Told};
use leaf_parts::{page_told, td_head};
use mem_remove::{Named, epoch_lock};
use sept_entry::Entry;
use sept_parts::{entry, is_state_among, root_page, tree_lock, walk};
use sept_walk::index;
use td_words::{EntryState, LockName, Mode, OpState, Status, lock_address, word_address};

/// A number that is no page's.
const NO_PAGE: u64 = 1 << 16;

/// The secure EPT page in which the entry of level 0 stands that maps a GPA, under the map that is
/// shared and an epoch that stays.
pub fn shared_walk(
    told: &mut Told,
    place: Place,
    tdr: u16,
    tdcs: u16,
    gpa: u64,
) -> Result<u16, Stop>
    requires { (tdr < place.machine.pages) × (tdcs < place.machine.pages) }
    ensures goes { Goes place.machine.pages (λ f. shared_walk place.machine.pages tdr gpa tdcs f) told.old.left.now told.new.left.now result }
    ensures feeds { Feeds (λ f. shared_walk place.machine.pages tdr gpa tdcs f) told.old.left.now told.new.left.now result }
    ensures uses { Uses 6 told.old.left.now told.new.left.now result }
    ensures inside { MatchResult result (λ p. p < place.machine.pages) (λ e. StopIn place.machine e) }
{
    tree_lock(told, place, tdcs, Mode::Shared)?;
    epoch_lock(told, place, tdcs, Mode::Shared)?;
    let root = root_page(told, place, tdr)?;
    walk(told, place, root, gpa, 0)
}

/// The page that the entry names, if it names one.
pub fn page_of(told: &mut Told, place: Place, at: u16, gpa: u64) -> Result<u16, Stop>
    requires { at < place.machine.pages }
    ensures goes { Goes place.machine.pages (λ f. page_tree place.machine.pages gpa at f) told.old.left.now told.new.left.now result }
    ensures feeds { Feeds (λ f. page_tree place.machine.pages gpa at f) told.old.left.now told.new.left.now result }
    ensures uses { Uses 1 told.old.left.now told.new.left.now result }
    ensures inside { MatchResult result (λ p. p < place.machine.pages) (λ e. StopIn place.machine e) }
{
    let named = named_told(told.load(word_address(at, index(0, gpa)))?);
    let free = EntryState::Free;
    told.check(named != NO_PAGE, Status::EptEntryStateIncorrect(free))?;
    Ok(page_told(place.machine.pages, named))
}

/// That page is held alone, and the entry's state is one of these.
pub fn held_entry(
    told: &mut Told,
    place: Place,
    tdcs: u16,
    at: u16,
    page: u16,
    gpa: u64,
    allowed: &[EntryState],
) -> Result<Named, Stop>
    requires { (tdcs < place.machine.pages) × (at < place.machine.pages) × (page < place.machine.pages) }
    ensures goes { Goes place.machine.pages (λ f. held_tree place.machine.pages tdcs gpa at allowed.now page f) told.old.left.now told.new.left.now result }
    ensures feeds { Feeds (λ f. held_tree place.machine.pages tdcs gpa at allowed.now page f) told.old.left.now told.new.left.now result }
    ensures uses { Uses 2 told.old.left.now told.new.left.now result }
    ensures inside { MatchResult result (λ n. (n.tdcs < place.machine.pages) × (n.page < place.machine.pages) × (n.entry.page < place.machine.pages)) (λ e. StopIn place.machine e) }
{
    told.lock(LockName::Page(page), lock_address(page), Mode::Exclusive)?;
    let entry = entry(told, place, at, gpa, 0)?;
    told.check(
        is_state_among(entry.state, allowed),
        Status::EptEntryStateIncorrect(entry.state),
    )?;
    Ok(Named {
        tdcs,
        page: at,
        entry,
    })
}

/// The map is shared, TD_EPOCH stays, and the entry of level 0 that maps a GPA names a page, which is
/// held alone, and is in one of these states.
pub fn find_writable(
    told: &mut Told,
    place: Place,
    tdr: u16,
    gpa: u64,
    ops: &[OpState],
    allowed: &[EntryState],
) -> Result<Named, Stop>
    requires { tdr < place.machine.pages }
    ensures goes { Goes place.machine.pages (λ f. writable_tree place.machine.pages tdr gpa ops.now allowed.now f) told.old.left.now told.new.left.now result }
    ensures uses { Uses 16 told.old.left.now told.new.left.now result }
    ensures inside { MatchResult result (λ n. (n.tdcs < place.machine.pages) × (n.page < place.machine.pages) × (n.entry.page < place.machine.pages)) (λ e. StopIn place.machine e) }
{
    let td = td_head(told, place, tdr, Mode::Shared, ops)?;
    let at = shared_walk(told, place, tdr, td.tdcs, gpa)?;
    let page = page_of(told, place, at, gpa)?;
    held_entry(told, place, td.tdcs, at, page, gpa, allowed)
}

/// The page that a word's entry names, and a number that is no page's where it names none.
fn named_told(word: u64) -> u64
    ensures { result ≡ look ThePage word }
{
    match Entry::unpack(word) {
        Some(entry) => named_by(entry),
        None => NO_PAGE,
    }
}

/// The page that an entry names.
fn named_by(entry: Entry) -> u64
    ensures { result ≡ named_by entry }
{
    match entry.state {
        EntryState::Free => NO_PAGE,
        _ => u64::from(entry.page),
    }
}
