//! The walk from the root of a TD's secure EPT down to an entry.

ghost use Rattle.std.specs.Prelude.{◌≡◌, ◌-◌, ◌<◌, ◌≤◌, MatchResult};
ghost use Rattle.leaf_engine.specs.Inside.{StopIn};
ghost use Rattle.leaf_parts.specs.Parts.{Goes, Feeds, Uses};
ghost use Rattle.sept_parts.specs.SeptTrees.{below_tree, walk_on_tree, walk_tree, find_tree, td_find_tree};

use crate::entries::{entry, is_mapped_on, is_state_among, root_page, tree_lock};
use leaf_engine::{Place, Stop, Told};
use leaf_parts::td_head;
use sept_entry::Entry;
use td_words::{EntryState, Mode, OpState, Status};

/// The level of the root's entries.
const TOP: u8 = 3;

/// An entry that was found: the secure EPT page in which it stands, and what it says.
#[derive(Clone, Copy, Debug, PartialEq, Eq)]
pub struct Found {
    pub page: u16,
    pub entry: Entry,
}

ghost use Rattle.std.specs.List.{list_any};
ghost use Rattle.td_words.specs.declared.refusals.Status.TheVariants.{EptEntryStateIncorrect};
ghost use Rattle.flat_core.specs.Tree.{same_state};
ghost use Rattle.leaf_parts.proofs.Parts.{Checked};

/// Its state is one of these.
pub fn found_in(told: &Told, found: Found, allowed: &[EntryState]) -> Result<(), Stop>
    ensures { Checked (list_any (λ s. same_state s found.entry.state) allowed.now) (EptEntryStateIncorrect found.entry.state) result }
{
    let state = found.entry.state;
    told.check(
        is_state_among(state, allowed),
        Status::EptEntryStateIncorrect(state),
    )
}

/// The secure EPT page below the entry of a level that maps a GPA.
fn below(told: &mut Told, place: Place, page: u16, gpa: u64, level: u8) -> Result<u16, Stop>
    requires { (page < place.machine.pages) × (level ≤ 3) }
    ensures goes { Goes place.machine.pages (λ f. below_tree place.machine.pages page gpa level f) told.old.left.now told.new.left.now result }
    ensures feeds { Feeds (λ f. below_tree place.machine.pages page gpa level f) told.old.left.now told.new.left.now result }
    ensures uses { Uses 1 told.old.left.now told.new.left.now result }
    ensures inside { MatchResult result (λ p. p < place.machine.pages) (λ e. StopIn place.machine e) }
{
    let upper = entry(told, place, page, gpa, level)?;
    told.check(is_mapped_on(upper), Status::EptWalkFailed(level))?;
    Ok(upper.page)
}

/// The rest of a walk, from the entry of a level on.
fn walk_on(
    told: &mut Told,
    place: Place,
    page: u16,
    gpa: u64,
    from: u8,
    level: u8,
) -> Result<u16, Stop>
    requires { (page < place.machine.pages) × (level ≤ from) × (from ≤ 3) }
    ensures goes { Goes place.machine.pages (λ f. walk_on_tree place.machine.pages gpa (from - level) from page f) told.old.left.now told.new.left.now result }
    ensures feeds { Feeds (λ f. walk_on_tree place.machine.pages gpa (from - level) from page f) told.old.left.now told.new.left.now result }
    ensures uses { Uses (from - level) told.old.left.now told.new.left.now result }
    ensures inside { MatchResult result (λ p. p < place.machine.pages) (λ e. StopIn place.machine e) }
{
    if from == level {
        return Ok(page);
    }
    let next = below(told, place, page, gpa, from)?;
    walk_on(told, place, next, gpa, from - 1, level)
}

/// A walk from the root to the secure EPT page in which the entry of a level stands that maps a
/// GPA. It passes over each entry above that one which is NL_MAPPED, and fails at the first that
/// isn't.
pub fn walk(told: &mut Told, place: Place, root: u16, gpa: u64, level: u8) -> Result<u16, Stop>
    requires { (root < place.machine.pages) × (level ≤ 3) }
    ensures goes { Goes place.machine.pages (λ f. walk_tree place.machine.pages root gpa level f) told.old.left.now told.new.left.now result }
    ensures feeds { Feeds (λ f. walk_tree place.machine.pages root gpa level f) told.old.left.now told.new.left.now result }
    ensures uses { Uses (3 - level) told.old.left.now told.new.left.now result }
    ensures inside { MatchResult result (λ p. p < place.machine.pages) (λ e. StopIn place.machine e) }
{
    walk_on(told, place, root, gpa, TOP, level)
}

/// The entry of a level that maps a GPA of a TD, by a walk from the root.
pub fn find(told: &mut Told, place: Place, tdr: u16, gpa: u64, level: u8) -> Result<Found, Stop>
    requires { (tdr < place.machine.pages) × (level ≤ 3) }
    ensures goes { Goes place.machine.pages (λ f. find_tree place.machine.pages tdr gpa level f) told.old.left.now told.new.left.now result }
    ensures feeds { Feeds (λ f. find_tree place.machine.pages tdr gpa level f) told.old.left.now told.new.left.now result }
    ensures uses { Uses (5 - level) told.old.left.now told.new.left.now result }
    ensures inside { MatchResult result (λ f. (f.page < place.machine.pages) × (f.entry.page < place.machine.pages)) (λ e. StopIn place.machine e) }
{
    let root = root_page(told, place, tdr)?;
    let page = walk(told, place, root, gpa, level)?;
    let entry = entry(told, place, page, gpa, level)?;
    Ok(Found { page, entry })
}

/// The modes in which a call that walks holds the operation state and the secure EPT of its TD.
#[derive(Clone, Copy, Debug, PartialEq, Eq)]
pub struct Modes {
    pub op: Mode,
    pub tree: Mode,
}

/// The beginning of the rows of calls that walk: that of a TD's rows, with these operation states,
/// and then the secure EPT and the entry of a level that maps a GPA.
pub fn td_find(
    told: &mut Told,
    place: Place,
    tdr: u16,
    modes: Modes,
    allowed: &[OpState],
    gpa: u64,
    level: u8,
) -> Result<Found, Stop>
    requires { (tdr < place.machine.pages) × (level ≤ 3) }
    ensures goes { Goes place.machine.pages (λ f. td_find_tree place.machine.pages tdr modes allowed.now gpa level f) told.old.left.now told.new.left.now result }
    ensures feeds { Feeds (λ f. td_find_tree place.machine.pages tdr modes allowed.now gpa level f) told.old.left.now told.new.left.now result }
    ensures uses { Uses (13 - level) told.old.left.now told.new.left.now result }
    ensures inside { MatchResult result (λ f. (f.page < place.machine.pages) × (f.entry.page < place.machine.pages)) (λ e. StopIn place.machine e) }
{
    let td = td_head(told, place, tdr, modes.op, allowed)?;
    tree_lock(told, place, td.tdcs, modes.tree)?;
    find(told, place, tdr, gpa, level)
}
