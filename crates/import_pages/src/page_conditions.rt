//! The conditions of IMPORT.MEM, and what they tell.

ghost use Rattle.std.specs.Prelude.{◌≡◌, ℕ, ◌+◌, ◌-◌, ◌^◌, ◌<◌, ◌≤◌, [], None, length, MatchResult};
ghost use Rattle.flat_core.specs.Opening.{clear_header};
ghost use Rattle.flat_core.specs.Inputs.{input_in};
ghost use Rattle.leaf_engine.specs.Inside.{StopIn, StopEarly};
ghost use Rattle.leaf_parts.specs.Arguments.{checked};
ghost use Rattle.leaf_parts.specs.Parts.{Goes, Feeds, Uses};
ghost use Rattle.import_pages.specs.PageImportStages.{IsShown, for_one, one_page};
ghost use Rattle.import_pages.specs.PageImportTrees.{arriving, page_import_arguments, stream_there_tree, due_bundle_tree, taken_tree, named_tree, found_rest, td_rest, td_import_tree, page_import_asked};

use crate::page_imports::{Filling, Importing};
use import_parts::{counter_due, epoch_same, header_of, input_of, session_same, tag_holds};
use incoming::Incoming;
use leaf_engine::{Place, Stop, Told};
use leaf_parts::{taken_page, td_head};
use sept_entry::Entry;
use sept_parts::{Found, find, is_state_among, tree_lock};
use stream_parts::Room;
use td_words::places::TDCS_STREAM_COUNT;
use td_words::{
    EntryState, Header, HeaderField, LockName, Machine, Mode, OpState, Status, lock_address,
    word_address,
};

/// The kind of a bundle that has the words of a page.
const PAGE: u8 = 3;

/// The operation states in which pages come in.
const FILLING: [OpState; 2] = [OpState::MemoryImport, OpState::StateImport];

/// The states of entries at which they do.
const IMPORTABLE: [EntryState; 2] = [EntryState::Free, EntryState::Mapped];

/// All conditions of the call, and what they tell.
pub fn to_import(
    told: &mut Told,
    place: Place,
    tdr: u64,
    slot: u64,
    page: u64,
    input: &Option<Incoming<'_>>,
) -> Result<Importing, Stop>
    ensures goes { Goes place.machine.pages (λ f. page_import_asked place.machine (input_in input.now) tdr slot page None (for_one f)) told.old.left.now told.new.left.now result }
    ensures feeds { Feeds (λ f. page_import_asked place.machine (input_in input.now) tdr slot page None (for_one f)) told.old.left.now told.new.left.now result }
    ensures early { MatchResult result (λ y. length told.old.left.now ≤ 21 + length told.new.left.now) (λ e. StopEarly 21 (length told.old.left.now) e) }
    ensures inside { MatchResult result (λ y. IsShown place.machine tdr y) (λ e. StopIn place.machine e) }
{
    are_in_range(told, place.machine, tdr, page)?;
    input_of(told, slot, input, &[PAGE])?;
    td_import(told, place, tdr as u16, page as u16, input)
}

/// The arguments: a TDR page, and another page of the machine.
fn are_in_range(told: &Told, machine: Machine, tdr: u64, page: u64) -> Result<(), Stop>
    ensures goes { Goes machine.pages (λ f. checked (page_import_arguments machine tdr page None) (f tt)) told.now.left.now told.now.left.now result }
    ensures feeds { Feeds (λ f. checked (page_import_arguments machine tdr page None) (f tt)) told.now.left.now told.now.left.now result }
    ensures uses { Uses 0 told.now.left.now told.now.left.now result }
    ensures inside { MatchResult result (λ u. (tdr < machine.pages) × (page < machine.pages)) (λ e. StopIn machine e) }
{
    told.check(tdr < u64::from(machine.pages), Status::OperandInvalid(1))?;
    told.check(page < u64::from(machine.pages), Status::OperandInvalid(3))?;
    told.check(page != tdr, Status::OperandInvalid(3))
}

ghost use Rattle.import_pages.specs.PageImportStages.{IsMemory};

/// What comes behind the arguments, and the form of the bundle.
fn td_import(
    told: &mut Told,
    place: Place,
    tdr: u16,
    page: u16,
    input: &Option<Incoming<'_>>,
) -> Result<Importing, Stop>
    requires { (tdr < place.machine.pages) × (page < place.machine.pages) × IsMemory (input_in input.now) }
    ensures goes { Goes place.machine.pages (λ f. td_import_tree place.machine.pages tdr (arriving (input_in input.now) page None) (input_in input.now) (for_one f)) told.old.left.now told.new.left.now result }
    ensures feeds { Feeds (λ f. td_import_tree place.machine.pages tdr (arriving (input_in input.now) page None) (input_in input.now) (for_one f)) told.old.left.now told.new.left.now result }
    ensures early { MatchResult result (λ y. length told.old.left.now ≤ 21 + length told.new.left.now) (λ e. StopEarly 21 (length told.old.left.now) e) }
    ensures inside { MatchResult result (λ y. IsShown place.machine tdr y) (λ e. StopIn place.machine e) }
{
    let header = header_of(input);
    let td = td_head(told, place, tdr, Mode::Shared, &FILLING)?;
    let importing = page_to_fill(told, place, tdr, page, td.tdcs, &header)?;
    tag_holds(told, input)?;
    Ok(importing)
}

/// What comes behind the beginning of the row, up to the tag: the bundle is the next one of its stream,
/// and its page may be filled.
fn page_to_fill(
    told: &mut Told,
    place: Place,
    tdr: u16,
    page: u16,
    tdcs: u16,
    header: &Header,
) -> Result<Importing, Stop>
    requires { (tdr < place.machine.pages) × (page < place.machine.pages) × (tdcs < place.machine.pages) × (header.now.stream < 4) }
    ensures goes { Goes place.machine.pages (λ f. td_rest place.machine.pages tdr (one_page header.now.gpa page) (clear_header header.now) tdcs (for_one f)) told.old.left.now told.new.left.now result }
    ensures feeds { Feeds (λ f. td_rest place.machine.pages tdr (one_page header.now.gpa page) (clear_header header.now) tdcs (for_one f)) told.old.left.now told.new.left.now result }
    ensures early { MatchResult result (λ y. length told.old.left.now ≤ 14 + length told.new.left.now) (λ e. StopEarly 14 (length told.old.left.now) e) }
    ensures inside { MatchResult result (λ y. IsShown place.machine tdr y) (λ e. StopIn place.machine e) }
{
    tree_lock(told, place, tdcs, Mode::Exclusive)?;
    let room = due_bundle(told, place.machine, tdcs, header)?;
    let found = find(told, place, tdr, header.gpa, 0)?;
    let filling = found_import(told, place, tdr, page, laid_out(found))?;
    Ok(Importing { filling, room })
}

/// The bundle is the next one of its stream, in the session and the epoch of the TD. It tells the stream.
fn due_bundle(told: &mut Told, machine: Machine, tdcs: u16, header: &Header) -> Result<Room, Stop>
    requires { (tdcs < machine.pages) × (header.now.stream < 4) }
    ensures goes { Goes machine.pages (λ f. due_bundle_tree machine.pages tdcs (clear_header header.now) f) told.old.left.now told.new.left.now result }
    ensures feeds { Feeds (λ f. due_bundle_tree machine.pages tdcs (clear_header header.now) f) told.old.left.now told.new.left.now result }
    ensures uses { Uses 5 told.old.left.now told.new.left.now result }
    ensures inside { MatchResult result (λ r. (r.page < machine.pages) × (r.counter < 2 ^ 32 - 1)) (λ e. StopIn machine e) }
{
    stream_there(told, machine, tdcs, header)?;
    session_same(told, machine, tdcs, header)?;
    epoch_same(told, machine, tdcs, header)?;
    counter_due(told, machine, tdcs, header.stream, header)
}

/// The TD has the stream of the header.
fn stream_there(told: &mut Told, machine: Machine, tdcs: u16, header: &Header) -> Result<(), Stop>
    requires { tdcs < machine.pages }
    ensures goes { Goes machine.pages (λ f. stream_there_tree tdcs (clear_header header.now) (f tt)) told.old.left.now told.new.left.now result }
    ensures feeds { Feeds (λ f. stream_there_tree tdcs (clear_header header.now) (f tt)) told.old.left.now told.new.left.now result }
    ensures uses { Uses 1 told.old.left.now told.new.left.now result }
    ensures inside { MatchResult result (λ u. Unit {0}) (λ e. StopIn machine e) }
{
    let count = told.load(word_address(tdcs, TDCS_STREAM_COUNT))?;
    told.check(
        u64::from(header.stream) < count,
        Status::BundleHeader(HeaderField::Stream),
    )
}

/// An entry that was found: the secure EPT page in which it stands, the page that it names, its state,
/// and its mark.
#[derive(Clone, Copy, Debug, PartialEq, Eq)]
pub struct PageEntry {
    pub at: u16,
    pub page: u16,
    pub state: EntryState,
    pub mark: u32,
}

ghost use Rattle.import_pages.specs.PageImportStages.{found_of};

/// An entry that was found, with all that it says.
fn laid_out(found: Found) -> PageEntry
    ensures same { found_of result ≡ found }
    ensures parts { (result.at ≡ found.page) × (result.page ≡ found.entry.page) }
{
    let Found { page: at, entry } = found;
    let Entry { state, page, mark } = entry;
    PageEntry {
        at,
        page,
        state,
        mark,
    }
}

/// The entry is one at which a page comes in, and that page is held alone.
fn found_import(
    told: &mut Told,
    place: Place,
    tdr: u16,
    page: u16,
    entry: PageEntry,
) -> Result<Filling, Stop>
    requires { (tdr < place.machine.pages) × (page < place.machine.pages) × (entry.at < place.machine.pages) × (entry.page < place.machine.pages) }
    ensures goes { Goes place.machine.pages (λ f. found_rest tdr [] page (found_of entry) f) told.old.left.now told.new.left.now result }
    ensures feeds { Feeds (λ f. found_rest tdr [] page (found_of entry) f) told.old.left.now told.new.left.now result }
    ensures early { MatchResult result (λ y. length told.old.left.now ≤ 3 + length told.new.left.now) (λ e. StopEarly 3 (length told.old.left.now) e) }
    ensures inside { MatchResult result (λ y. (y.at < place.machine.pages) × (y.page < place.machine.pages)) (λ e. StopIn place.machine e) }
{
    told.check(
        is_state_among(entry.state, &IMPORTABLE),
        Status::EptEntryStateIncorrect(entry.state),
    )?;
    match entry.state {
        EntryState::Free => page_taken(told, place, tdr, page, entry.at),
        _ => page_named(told, place, entry.page, entry.at),
    }
}

/// Where the entry is FREE: PAGE is held alone, and is the host's; and the child count is told.
fn page_taken(told: &mut Told, place: Place, tdr: u16, page: u16, at: u16) -> Result<Filling, Stop>
    requires { (tdr < place.machine.pages) × (page < place.machine.pages) }
    ensures goes { Goes place.machine.pages (λ f. taken_tree tdr [] page at f) told.old.left.now told.new.left.now result }
    ensures feeds { Feeds (λ f. taken_tree tdr [] page at f) told.old.left.now told.new.left.now result }
    ensures uses { Uses 3 told.old.left.now told.new.left.now result }
    ensures inside { MatchResult result (λ y. (y.at ≡ at) × (y.page ≡ page)) (λ e. StopIn place.machine e) }
{
    let children = taken_page(told, place, tdr, page)?;
    Ok(Filling {
        at,
        page,
        children: Some(children),
    })
}

/// Where it is MAPPED: the page that it names is held alone.
fn page_named(told: &mut Told, place: Place, page: u16, at: u16) -> Result<Filling, Stop>
    requires { page < place.machine.pages }
    ensures goes { Goes place.machine.pages (λ f. named_tree page at f) told.old.left.now told.new.left.now result }
    ensures feeds { Feeds (λ f. named_tree page at f) told.old.left.now told.new.left.now result }
    ensures uses { Uses 1 told.old.left.now told.new.left.now result }
    ensures inside { MatchResult result (λ y. (y.at ≡ at) × (y.page ≡ page)) (λ e. StopIn place.machine e) }
{
    told.lock(LockName::Page(page), lock_address(page), Mode::Exclusive)?;
    Ok(Filling {
        at,
        page,
        children: None,
    })
}
