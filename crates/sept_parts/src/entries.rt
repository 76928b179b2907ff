//! The lock and the root of a TD's secure EPT, and one entry of it.

ghost use Rattle.std.specs.Prelude.{◌≡◌, ℕ, ◌<◌, ◌≤◌, MatchResult};
ghost use Rattle.std.specs.List.{list_any};
ghost use Rattle.flat_core.specs.Tree.{same_state};
ghost use Rattle.sept_walk.specs.SecureEpt.{is_mapped_on};
ghost use Rattle.leaf_engine.specs.Inside.{StopIn};
ghost use Rattle.leaf_parts.specs.Parts.{Goes, Feeds, Uses};
ghost use Rattle.sept_parts.specs.SeptWords.{entry_told};
ghost use Rattle.sept_parts.specs.SeptTrees.{tree_lock_tree, root_page_tree, entry_tree};

use leaf_engine::{Place, Stop, Told};
use leaf_parts::page_told;
use sept_entry::Entry;
use sept_walk::index;
use td_words::places::{TDCS_TREE_LOCK, TDR_ROOT};
use td_words::{EntryState, LockName, Mode, word_address};

/// The entry that a word says, in a machine of so many pages. A word that says none never stands
/// where it is told.
#[tactic(auto, unfolding(crate::specs::SeptWords::entry_told))]
pub fn entry_told(pages: u16, word: u64) -> Entry
    ensures entry { result ≡ entry_told pages word }
    ensures page { 0 < pages → result.page < pages }
{
    if let Some(entry) = Entry::unpack(word) {
        if entry.page < pages {
            return entry;
        }
    }
    Entry {
        state: EntryState::Free,
        page: 0,
        mark: 0,
    }
}

/// Whether a walk goes on below an entry.
pub fn is_mapped_on(entry: Entry) -> bool
    ensures { result ≡ is_mapped_on entry }
{
    entry.state as u8 == EntryState::NlMapped as u8
}

/// Whether an entry's state is one of these.
pub fn is_state_among(state: EntryState, allowed: &[EntryState]) -> bool
    ensures { result ≡ list_any (λ s. same_state s state) allowed.now }
{
    allowed.iter().any(|s| *s as u8 == state as u8)
}

/// The secure EPT of a TD is held in that mode.
pub fn tree_lock(told: &mut Told, place: Place, tdcs: u16, mode: Mode) -> Result<(), Stop>
    requires { tdcs < place.machine.pages }
    ensures goes { (t : ℕ) → Goes place.machine.pages (λ f. tree_lock_tree t tdcs mode (f tt)) told.old.left.now told.new.left.now result }
    ensures feeds { (t : ℕ) → Feeds (λ f. tree_lock_tree t tdcs mode (f tt)) told.old.left.now told.new.left.now result }
    ensures uses { Uses 1 told.old.left.now told.new.left.now result }
    ensures inside { MatchResult result (λ u. Unit {0}) (λ e. StopIn place.machine e) }
{
    told.lock(LockName::Tree, word_address(tdcs, TDCS_TREE_LOCK), mode)
}

/// The root of a TD's secure EPT, which is its second TDCX page.
pub fn root_page(told: &mut Told, place: Place, tdr: u16) -> Result<u16, Stop>
    requires { tdr < place.machine.pages }
    ensures goes { Goes place.machine.pages (λ f. root_page_tree place.machine.pages tdr f) told.old.left.now told.new.left.now result }
    ensures feeds { Feeds (λ f. root_page_tree place.machine.pages tdr f) told.old.left.now told.new.left.now result }
    ensures uses { Uses 1 told.old.left.now told.new.left.now result }
    ensures inside { MatchResult result (λ p. p < place.machine.pages) (λ e. StopIn place.machine e) }
{
    let page = told.load(word_address(tdr, TDR_ROOT))?;
    Ok(page_told(place.machine.pages, page))
}

/// The entry of a level that maps a GPA, where the secure EPT page is known in which it stands.
pub fn entry(told: &mut Told, place: Place, page: u16, gpa: u64, level: u8) -> Result<Entry, Stop>
    requires { (page < place.machine.pages) × (level ≤ 3) }
    ensures goes { Goes place.machine.pages (λ f. entry_tree place.machine.pages page gpa level f) told.old.left.now told.new.left.now result }
    ensures feeds { Feeds (λ f. entry_tree place.machine.pages page gpa level f) told.old.left.now told.new.left.now result }
    ensures uses { Uses 1 told.old.left.now told.new.left.now result }
    ensures inside { MatchResult result (λ e. e.page < place.machine.pages) (λ e. StopIn place.machine e) }
{
    let word = told.load(word_address(page, index(level, gpa)))?;
    Ok(entry_told(place.machine.pages, word))
}
