//! The beginning of the calls that block, unblock and remove.

ghost use Rattle.std.specs.Prelude.{◌≡◌, ℕ, ◌-◌, ◌<◌, ◌≤◌, MatchResult};
ghost use Rattle.leaf_engine.specs.Inside.{StopIn};
ghost use Rattle.leaf_parts.specs.Parts.{Goes, Feeds, Uses};
ghost use Rattle.mem_remove.specs.NamedTrees.{epoch_lock_tree, taken_tree, named_tree};

use leaf_engine::{Place, Stop, Told};
use leaf_parts::td_head;
use sept_entry::Entry;
use sept_parts::{find, is_state_among, tree_lock};
use td_words::places::TDCS_EPOCH_LOCK;
use td_words::{EntryState, LockName, Mode, OpState, Status, lock_address, word_address};

/// The operation state in which pages are blocked, unblocked and removed.
const BLOCKING: [OpState; 1] = [OpState::Runnable];

/// An entry that was found: the TDCS page of its TD, the secure EPT page in which it stands, and what
/// it says.
#[derive(Clone, Copy, Debug, PartialEq, Eq)]
pub struct Named {
    pub tdcs: u16,
    pub page: u16,
    pub entry: Entry,
}

/// TD_EPOCH is held in that mode.
pub fn epoch_lock(told: &mut Told, place: Place, tdcs: u16, mode: Mode) -> Result<(), Stop>
    requires { tdcs < place.machine.pages }
    ensures goes { (t : ℕ) → Goes place.machine.pages (λ f. epoch_lock_tree t tdcs mode (f tt)) told.old.left.now told.new.left.now result }
    ensures feeds { (t : ℕ) → Feeds (λ f. epoch_lock_tree t tdcs mode (f tt)) told.old.left.now told.new.left.now result }
    ensures uses { Uses 1 told.old.left.now told.new.left.now result }
    ensures inside { MatchResult result (λ u. Unit {0}) (λ e. StopIn place.machine e) }
{
    told.lock(LockName::Epoch, word_address(tdcs, TDCS_EPOCH_LOCK), mode)
}

/// An entry is in one of these states, and the page that it names is held alone.
pub fn taken(
    told: &mut Told,
    place: Place,
    entry: Entry,
    allowed: &[EntryState],
) -> Result<(), Stop>
    requires { entry.page < place.machine.pages }
    ensures goes { Goes place.machine.pages (λ f. taken_tree entry allowed.now (f tt)) told.old.left.now told.new.left.now result }
    ensures feeds { Feeds (λ f. taken_tree entry allowed.now (f tt)) told.old.left.now told.new.left.now result }
    ensures uses { Uses 1 told.old.left.now told.new.left.now result }
    ensures inside { MatchResult result (λ u. Unit {0}) (λ e. StopIn place.machine e) }
{
    let Entry {
        state,
        page,
        mark: _,
    } = entry;
    told.check(
        is_state_among(state, allowed),
        Status::EptEntryStateIncorrect(state),
    )?;
    told.lock(LockName::Page(page), lock_address(page), Mode::Exclusive)
}

/// The map is held alone, TD_EPOCH stays, the entry of a level that maps a GPA is in one of these
/// states, and the page that it names is held alone.
pub fn find_named(
    told: &mut Told,
    place: Place,
    tdr: u16,
    gpa: u64,
    level: u8,
    allowed: &[EntryState],
) -> Result<Named, Stop>
    requires { (tdr < place.machine.pages) × (level ≤ 3) }
    ensures goes { Goes place.machine.pages (λ f. named_tree place.machine.pages tdr gpa level allowed.now f) told.old.left.now told.new.left.now result }
    ensures feeds { Feeds (λ f. named_tree place.machine.pages tdr gpa level allowed.now f) told.old.left.now told.new.left.now result }
    ensures uses { Uses (15 - level) told.old.left.now told.new.left.now result }
    ensures inside { MatchResult result (λ n. (n.tdcs < place.machine.pages) × (n.page < place.machine.pages) × (n.entry.page < place.machine.pages)) (λ e. StopIn place.machine e) }
{
    let td = td_head(told, place, tdr, Mode::Shared, &BLOCKING)?;
    tree_lock(told, place, td.tdcs, Mode::Exclusive)?;
    epoch_lock(told, place, td.tdcs, Mode::Shared)?;
    let found = find(told, place, tdr, gpa, level)?;
    taken(told, place, found.entry, allowed)?;
    Ok(Named {
        tdcs: td.tdcs,
        page: found.page,
        entry: found.entry,
    })
}
