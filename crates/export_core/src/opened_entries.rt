//! The beginning of the calls that give a guest its page back, and the entry that calls of a
//! migration's source store.

ghost use Rattle.std.specs.Prelude.{◌≡◌, ℕ, ◌<◌, MatchResult};
ghost use Rattle.td_words.specs.Packing.{entry_word};
ghost use Rattle.leaf_engine.specs.Inside.{StopIn};
ghost use Rattle.leaf_parts.specs.Parts.{Goes, Uses};
ghost use Rattle.mem_remove.specs.RemoveTrees.{remove_arguments};
ghost use Rattle.export_core.specs.OpenedTrees.{opened_tree};

use leaf_engine::{Place, Stop, Told};
use leaf_parts::td_head;
use mem_remove::{Named, taken};
use sept_entry::Entry;
use sept_parts::{GPAS, find, is_aligned, tree_lock};
use td_words::{EntryState, Machine, Mode, OpState, Status};

/// The arguments: a TDR page, and the GPA of a private page.
pub fn are_in_range(told: &Told, machine: Machine, tdr: u64, gpa: u64) -> Result<(), Stop>
    ensures goes { Goes machine.pages (λ f. remove_arguments machine tdr gpa (f tt)) told.now.left.now told.now.left.now result }
    ensures uses { Uses 0 told.now.left.now told.now.left.now result }
    ensures inside { MatchResult result (λ u. tdr < machine.pages) (λ e. StopIn machine e) }
{
    told.check(tdr < u64::from(machine.pages), Status::OperandInvalid(1))?;
    told.check(gpa < GPAS, Status::OperandInvalid(2))?;
    told.check(is_aligned(0, gpa), Status::OperandInvalid(2))
}

/// The map is held alone, the entry of level 0 that maps a GPA is in one of these states, and the
/// page that it names is held alone.
pub fn find_opened(
    told: &mut Told,
    place: Place,
    tdr: u16,
    gpa: u64,
    ops: &[OpState],
    allowed: &[EntryState],
) -> Result<Named, Stop>
    requires { tdr < place.machine.pages }
    ensures goes { Goes place.machine.pages (λ f. opened_tree place.machine.pages tdr gpa ops.now allowed.now f) told.old.left.now told.new.left.now result }
    ensures uses { Uses 14 told.old.left.now told.new.left.now result }
    ensures inside { MatchResult result (λ n. (n.tdcs < place.machine.pages) × (n.page < place.machine.pages) × (n.entry.page < place.machine.pages)) (λ e. StopIn place.machine e) }
{
    let td = td_head(told, place, tdr, Mode::Shared, ops)?;
    tree_lock(told, place, td.tdcs, Mode::Exclusive)?;
    let found = find(told, place, tdr, gpa, 0)?;
    taken(told, place, found.entry, allowed)?;
    Ok(Named {
        tdcs: td.tdcs,
        page: found.page,
        entry: found.entry,
    })
}

/// The word of an entry for a page, in a state and with a mark.
pub fn entry_of(state: EntryState, page: u16, mark: u32) -> u64
    ensures { result ≡ entry_word (record { state = state; page = page; mark = mark }) }
{
    let entry = Entry { state, page, mark };
    entry.pack()
}
