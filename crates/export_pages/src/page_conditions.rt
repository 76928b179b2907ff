//! The conditions of EXPORT.MEM, and what they tell.

ghost use Rattle.std.specs.Prelude.{◌≡◌, ℕ, ◌+◌, ◌-◌, ◌^◌, ◌<◌, ◌≤◌, length, MatchResult};
ghost use Rattle.flat_core.specs.BundleRows.{exportable};
ghost use Rattle.leaf_engine.specs.Inside.{StopIn, StopEarly};
ghost use Rattle.leaf_parts.specs.Parts.{Goes, Feeds, Uses};
ghost use Rattle.export_pages.specs.PageExportStages.{named_of};
ghost use Rattle.export_pages.specs.PageExportTrees.{page_export_arguments, has_stream_tree, exportable_tree, other_epoch_tree, held_room_tree, tracked_in_tree, counted_at, said_tree, named_rest, td_rest, page_export_asked};

use crate::page_exports::Exporting;
use export_core::{held_entry, page_of, shared_walk};
use leaf_engine::{Place, Stop, Told};
use leaf_parts::{Td, td_head};
use mem_remove::{Named, tracked};
use sept_entry::Entry;
use sept_parts::{GPAS, is_aligned};
use stream_parts::{Room, mig_epoch, room_of, session, stream_page};
use td_words::places::{STREAM_CLEANED, STREAM_FIRST_EXPORTS, TDCS_STREAM_COUNT};
use td_words::{EntryState, LockName, Machine, Mode, OpState, Status, lock_address, word_address};

/// The operation states in which pages are exported: running, and paused.
const EXPORTED: [OpState; 2] = [OpState::LiveExport, OpState::PausedExport];

/// The states of entries that are exported while guests may run.
const RUNNING: [EntryState; 2] = [EntryState::BlockedW, EntryState::ExportedDirtyBlockedW];

/// And of those that are exported while none does.
const PAUSED: [EntryState; 4] = [
    EntryState::Mapped,
    EntryState::BlockedW,
    EntryState::ExportedDirty,
    EntryState::ExportedDirtyBlockedW,
];

/// All conditions of the call, and what they tell.
pub fn to_export(
    told: &mut Told,
    place: Place,
    tdr: u64,
    gpa: u64,
    stream: u64,
) -> Result<Exporting, Stop>
    ensures goes { Goes place.machine.pages (λ f. page_export_asked place.machine tdr gpa stream f) told.old.left.now told.new.left.now result }
    ensures feeds { Feeds (λ f. page_export_asked place.machine tdr gpa stream f) told.old.left.now told.new.left.now result }
    ensures early { MatchResult result (λ x. length told.old.left.now ≤ 26 + length told.new.left.now) (λ e. StopEarly 26 (length told.old.left.now) e) }
    ensures fewer { MatchResult result (λ x. length told.new.left.now ≤ length told.old.left.now) (λ e. Unit {0}) }
    ensures inside { MatchResult result (λ x. (stream < 4) × (x.at < place.machine.pages) × (x.page < place.machine.pages) × (x.room.page < place.machine.pages)) (λ e. StopIn place.machine e) }
{
    are_in_range(told, place.machine, tdr, gpa, stream)?;
    let tdr = tdr as u16;
    let td = td_head(told, place, tdr, Mode::Shared, &EXPORTED)?;
    td_export(told, place, tdr, gpa, stream as u8, td)
}

/// The arguments: a TDR page, the GPA of a private page, and a stream's number.
fn are_in_range(told: &Told, machine: Machine, tdr: u64, gpa: u64, stream: u64) -> Result<(), Stop>
    ensures goes { Goes machine.pages (λ f. page_export_arguments machine tdr gpa stream (f tt)) told.now.left.now told.now.left.now result }
    ensures feeds { Feeds (λ f. page_export_arguments machine tdr gpa stream (f tt)) told.now.left.now told.now.left.now result }
    ensures uses { Uses 0 told.now.left.now told.now.left.now result }
    ensures inside { MatchResult result (λ u. (tdr < machine.pages) × (stream < 4)) (λ e. StopIn machine e) }
{
    told.check(tdr < u64::from(machine.pages), Status::OperandInvalid(1))?;
    told.check(gpa < GPAS, Status::OperandInvalid(2))?;
    told.check(stream < 4, Status::OperandInvalid(3))?;
    told.check(is_aligned(0, gpa), Status::OperandInvalid(2))
}

/// What comes behind the beginning of the row.
fn td_export(
    told: &mut Told,
    place: Place,
    tdr: u16,
    gpa: u64,
    stream: u8,
    td: Td,
) -> Result<Exporting, Stop>
    requires { (tdr < place.machine.pages) × (td.tdcs < place.machine.pages) × (stream < 4) }
    ensures goes { Goes place.machine.pages (λ f. td_rest place.machine.pages tdr gpa stream td f) told.old.left.now told.new.left.now result }
    ensures feeds { Feeds (λ f. td_rest place.machine.pages tdr gpa stream td f) told.old.left.now told.new.left.now result }
    ensures early { MatchResult result (λ x. length told.old.left.now ≤ 19 + length told.new.left.now) (λ e. StopEarly 19 (length told.old.left.now) e) }
    ensures fewer { MatchResult result (λ x. length told.new.left.now ≤ length told.old.left.now) (λ e. Unit {0}) }
    ensures inside { MatchResult result (λ x. (x.at < place.machine.pages) × (x.page < place.machine.pages) × (x.room.page < place.machine.pages)) (λ e. StopIn place.machine e) }
{
    has_stream(told, place.machine, td.tdcs, stream)?;
    let named = find_exportable(told, place, tdr, gpa, td)?;
    entry_export(told, place, stream, td.op, laid_out(named))
}

/// The TD has a stream of that number.
fn has_stream(told: &mut Told, machine: Machine, tdcs: u16, stream: u8) -> Result<(), Stop>
    requires { tdcs < machine.pages }
    ensures goes { Goes machine.pages (λ f. has_stream_tree tdcs stream (f tt)) told.old.left.now told.new.left.now result }
    ensures feeds { Feeds (λ f. has_stream_tree tdcs stream (f tt)) told.old.left.now told.new.left.now result }
    ensures uses { Uses 1 told.old.left.now told.new.left.now result }
    ensures inside { MatchResult result (λ u. Unit {0}) (λ e. StopIn machine e) }
{
    let count = told.load(word_address(tdcs, TDCS_STREAM_COUNT))?;
    told.check((stream as u64) < count, Status::NoStream(stream))
}

/// The entry of level 0 that maps a GPA names a page, which is held alone, and is in a state that may
/// be exported in the TD's operation state.
fn find_exportable(told: &mut Told, place: Place, tdr: u16, gpa: u64, td: Td) -> Result<Named, Stop>
    requires { (tdr < place.machine.pages) × (td.tdcs < place.machine.pages) }
    ensures goes { Goes place.machine.pages (λ f. exportable_tree place.machine.pages tdr gpa td f) told.old.left.now told.new.left.now result }
    ensures feeds { Feeds (λ f. exportable_tree place.machine.pages tdr gpa td f) told.old.left.now told.new.left.now result }
    ensures uses { Uses 9 told.old.left.now told.new.left.now result }
    ensures inside { MatchResult result (λ n. (n.tdcs < place.machine.pages) × (n.page < place.machine.pages) × (n.entry.page < place.machine.pages)) (λ e. StopIn place.machine e) }
{
    let at = shared_walk(told, place, tdr, td.tdcs, gpa)?;
    let page = page_of(told, place, at, gpa)?;
    held_entry(told, place, td.tdcs, at, page, gpa, exportable(td.op))
}

/// The states of entries that are exported in an operation state.
fn exportable(op: OpState) -> &'static [EntryState]
    ensures { result.now ≡ exportable op }
{
    match op {
        OpState::LiveExport => &RUNNING,
        _ => &PAUSED,
    }
}

/// An entry that names a page: the TDCS page of its TD, the secure EPT page in which it stands, the page
/// that it names, its state, and its mark.
#[derive(Clone, Copy, Debug, PartialEq, Eq)]
pub struct PageEntry {
    pub tdcs: u16,
    pub at: u16,
    pub page: u16,
    pub state: EntryState,
    pub mark: u32,
}

/// An entry that was found, with all that it says.
fn laid_out(named: Named) -> PageEntry
    ensures same { named_of result ≡ named }
    ensures parts { (result.tdcs ≡ named.tdcs) × (result.at ≡ named.page) × (result.page ≡ named.entry.page) }
{
    let Named {
        tdcs,
        page: at,
        entry,
    } = named;
    let Entry { state, page, mark } = entry;
    PageEntry {
        tdcs,
        at,
        page,
        state,
        mark,
    }
}

/// What comes behind the entry.
fn entry_export(
    told: &mut Told,
    place: Place,
    stream: u8,
    op: OpState,
    entry: PageEntry,
) -> Result<Exporting, Stop>
    requires inside { (entry.tdcs < place.machine.pages) × (entry.at < place.machine.pages) × (entry.page < place.machine.pages) }
    requires small { stream < 4 }
    ensures goes { Goes place.machine.pages (λ f. named_rest place.machine.pages stream op (named_of entry) f) told.old.left.now told.new.left.now result }
    ensures feeds { Feeds (λ f. named_rest place.machine.pages stream op (named_of entry) f) told.old.left.now told.new.left.now result }
    ensures early { MatchResult result (λ x. length told.old.left.now ≤ 9 + length told.new.left.now) (λ e. StopEarly 9 (length told.old.left.now) e) }
    ensures fewer { MatchResult result (λ x. length told.new.left.now ≤ length told.old.left.now) (λ e. Unit {0}) }
    ensures inside { MatchResult result (λ x. (x.at < place.machine.pages) × (x.page < place.machine.pages) × (x.room.page < place.machine.pages)) (λ e. StopIn place.machine e) }
{
    let machine = place.machine;
    let epoch = other_epoch(told, machine, entry)?;
    let room = held_room(told, machine, entry.tdcs, stream)?;
    tracked_in(told, place, op, entry)?;
    said(told, machine, entry, room, epoch)
}

/// It wasn't exported in this migration epoch, which is told.
fn other_epoch(told: &mut Told, machine: Machine, entry: PageEntry) -> Result<u32, Stop>
    requires { entry.tdcs < machine.pages }
    ensures goes { Goes machine.pages (λ f. other_epoch_tree (named_of entry) f) told.old.left.now told.new.left.now result }
    ensures feeds { Feeds (λ f. other_epoch_tree (named_of entry) f) told.old.left.now told.new.left.now result }
    ensures uses { Uses 1 told.old.left.now told.new.left.now result }
    ensures inside { MatchResult result (λ n. Unit {0}) (λ e. StopIn machine e) }
{
    let epoch = mig_epoch(told, machine, entry.tdcs)?;
    told.check(entry.mark != epoch, Status::ExportedThisEpoch)?;
    Ok(epoch)
}

/// The page of the stream of that number is held alone, and has room for another bundle.
fn held_room(told: &mut Told, machine: Machine, tdcs: u16, stream: u8) -> Result<Room, Stop>
    requires { (tdcs < machine.pages) × (stream < 4) }
    ensures goes { Goes machine.pages (λ f. held_room_tree machine.pages tdcs stream f) told.old.left.now told.new.left.now result }
    ensures feeds { Feeds (λ f. held_room_tree machine.pages tdcs stream f) told.old.left.now told.new.left.now result }
    ensures uses { Uses 3 told.old.left.now told.new.left.now result }
    ensures inside { MatchResult result (λ r. r.page < machine.pages) (λ e. StopIn machine e) }
{
    let page = stream_page(told, machine, tdcs, stream as u16)?;
    told.lock(LockName::Page(page), lock_address(page), Mode::Exclusive)?;
    room_of(told, machine, page)
}

/// While guests may run no translation may write to the page any more.
fn tracked_in(told: &mut Told, place: Place, op: OpState, entry: PageEntry) -> Result<(), Stop>
    requires { (entry.tdcs < place.machine.pages) × (entry.page < place.machine.pages) }
    ensures goes { Goes place.machine.pages (λ f. tracked_in_tree op entry.tdcs entry.page (f tt)) told.old.left.now told.new.left.now result }
    ensures feeds { Feeds (λ f. tracked_in_tree op entry.tdcs entry.page (f tt)) told.old.left.now told.new.left.now result }
    ensures early { MatchResult result (λ u. length told.old.left.now ≤ 3 + length told.new.left.now) (λ e. StopEarly 3 (length told.old.left.now) e) }
    ensures fewer { MatchResult result (λ u. length told.new.left.now ≤ length told.old.left.now) (λ e. Unit {0}) }
    ensures inside { MatchResult result (λ u. Unit {0}) (λ e. StopIn place.machine e) }
{
    match op {
        OpState::LiveExport => tracked(told, place, entry.tdcs, entry.page),
        _ => Ok(()),
    }
}

/// What else the bundle says, and how many entries its stream's word counted before.
fn said(
    told: &mut Told,
    machine: Machine,
    entry: PageEntry,
    room: Room,
    epoch: u32,
) -> Result<Exporting, Stop>
    requires { (entry.tdcs < machine.pages) × (room.page < machine.pages) }
    ensures goes { Goes machine.pages (λ f. said_tree (named_of entry) room epoch f) told.old.left.now told.new.left.now result }
    ensures feeds { Feeds (λ f. said_tree (named_of entry) room epoch f) told.old.left.now told.new.left.now result }
    ensures uses { Uses 2 told.old.left.now told.new.left.now result }
    ensures inside { MatchResult result (λ x. (x.at ≡ entry.at) × (x.page ≡ entry.page) × (x.room ≡ room)) (λ e. StopIn machine e) }
{
    let session = session(told, machine, entry.tdcs)?;
    let count = told.load(word_address(room.page, counted_at(entry.state)))?;
    Ok(Exporting {
        at: entry.at,
        page: entry.page,
        state: entry.state,
        room,
        session,
        epoch,
        count,
    })
}

/// Where the word of a stream's page stands that counts an entry of that state: as cleaned where it was
/// exported before in the session, else as a first export.
pub fn counted_at(state: EntryState) -> u16
    ensures { (result ≡ counted_at state) × (result < 512) }
{
    match state {
        EntryState::ExportedBlockedW
        | EntryState::ExportedDirty
        | EntryState::ExportedDirtyBlockedW => STREAM_CLEANED,
        _ => STREAM_FIRST_EXPORTS,
    }
}
