//! EXPORT.TRACK.

ghost use Rattle.std.specs.Prelude.{◌≡◌, ◌+◌, ◌-◌, ◌^◌, ◌<◌, ◌≤◌, ℕ, length, MatchResult};
ghost use Rattle.std.specs.List.{All};
ghost use Rattle.leaf_engine.specs.Inside.{StopIn, StopEarly};
ghost use Rattle.leaf_parts.specs.Parts.{Goes, Feeds, Uses};
ghost use Rattle.export_tokens.specs.TokenTrees.{streams_tree, next_epoch_tree, none_missing_tree, none_dirty_tree, total_tree, parts_tree, whole_tree};

use arrayvec::ArrayVec;
use bundles::Bundle;
use leaf_engine::{Act, Hand, Place, Plan, Stop, Told, Verdict, Write};
use leaf_parts::vps_told;
use stream_parts::{
    Room, STREAMS, mig_epoch, room_on, session, stream_pages, stream_sum, td_alone,
};
use td_words::places::{
    STREAM_CLEANED, STREAM_COUNTER, TDCS_DIRTIED, TDCS_MIG_EPOCH, TDCS_OP, TDCS_TD_EXPORTED,
    TDCS_VP_COUNT, TDCS_VPS_EXPORTED,
};
use td_words::{Counter, Header, Machine, OpState, Status, word_address};

/// The operation states in which an epoch token is made.
const EXPORTED: [OpState; 2] = [OpState::LiveExport, OpState::PausedExport];

/// The one in which the start token is made.
const PAUSED: [OpState; 1] = [OpState::PausedExport];

/// The migration epoch of a start token, which is the last one.
const LAST_EPOCH: u32 = u32::MAX;

/// EXPORT.TRACK TDR SLOT START: a token ends the migration epoch of an export. Where START is 1 it is
/// the start token, the export's last bundle.
#[derive(Drop)]
pub struct Token {
    place: Place,
    tdr: u64,
    slot: u16,
    start: u64,
}

/// The TDCS page of a TD that is exported, its stream 0, and the pages of all its streams.
#[derive(Drop)]
struct Streams {
    tdcs: u16,
    room: Room,
    pages: ArrayVec<u16, STREAMS>,
}

/// What a token is made of: the TDCS page, stream 0, the epoch that the token says, the session, and
/// how many bundles of the session came before it, on all streams.
#[derive(Clone, Copy, Debug, PartialEq, Eq)]
struct TokenWords {
    tdcs: u16,
    room: Room,
    epoch: u32,
    session: u16,
    total: u64,
}

impl Token {
    ghost use Rattle.std.specs.Prelude.{◌≡◌};
    ghost use Rattle.export_tokens.specs.TokenTrees.{token_task};

    /// The plan of a call at a place.
    pub fn plan(place: Place, tdr: u64, slot: u16, start: u64) -> Token
        ensures { ⟦<Token as Plan>⟧.task result ≡ token_task place tdr slot start }
    {
        Token {
            place,
            tdr,
            slot,
            start,
        }
    }

    ghost use Rattle.bundles.specs.Made.{made_in};
    ghost use Rattle.leaf_engine.specs.Trees.{feed, answer_of};

    /// The bundle that the call makes where it was told these words, if it is done then.
    pub fn bundle<'a>(&self, told: &'a [u64]) -> Option<Bundle<'a>>
        ensures { made_in result ≡ (answer_of (feed (⟦<Token as Plan>⟧.task self.now).tree told.now)).bundles }
    {
        let mut told = Told { left: told };
        match token_words(&mut told, self.place, self.tdr, self.start) {
            Ok(token) => Some(Bundle {
                slot: self.slot,
                header: token_header(self.start, token),
                payload: &[],
            }),
            Err(_) => None,
        }
    }
}

ghost use Rattle.flat_core.specs.Opening.{clear_header};
ghost use Rattle.export_tokens.specs.TokenTrees.{token_header};

/// The header of a token's bundle.
fn token_header(start: u64, token: TokenWords) -> Header
    ensures { clear_header result ≡ token_header start token }
{
    Header {
        size: 64,
        version: 1,
        stream: 0,
        kind: if start == 0 { 4 } else { 5 },
        reserved: 0,
        counter: token.room.counter,
        epoch: token.epoch,
        iv: u64::from(token.room.counter),
        session: token.session,
        index: 0,
        info: 0,
        gpa: 0,
        total: token.total,
        tag: [0; 16],
    }
}

impl Plan for Token {
    ghost use Rattle.std.specs.Prelude.{◌^◌, ◌-◌, ◌&&◌, nat_lt};
    ghost use Rattle.export_tokens.specs.TokenTrees.{token_task, token_changes};
    ghost use Rattle.export_tokens.specs.TokenMeanings.{token-means};

    ghost task = { λ l. token_task l.place l.tdr l.slot l.start };

    ghost changes = { λ l told a. token_changes l.start a.page a.named a.epoch a.count };

    ghost shown = { λ l told a. nat_lt a.page l.place.machine.pages && nat_lt a.named l.place.machine.pages && nat_lt a.count (2 ^ 32 - 1) };

    fn decide(&self, told: Told) -> Result<Verdict, Stop> {
        let mut told = told;
        let token = token_words(&mut told, self.place, self.tdr, self.start)?;
        Ok(Verdict::done(Act {
            page: token.tdcs,
            named: token.room.page,
            count: u64::from(token.room.counter),
            epoch: u64::from(token.epoch),
            ..Act::NONE
        }))
    }

    // The store of the migration epoch is the act; then a start token ends the running of the export,
    // and stream 0 counts the bundle.
    fn write(&self, act: Act, _told: &[u64], number: usize, _hand: &mut Hand) -> Option<Write> {
        let epoch = Write::store(word_address(act.page, TDCS_MIG_EPOCH), act.epoch);
        let counted = Write::store(word_address(act.named, STREAM_COUNTER), act.count + 1);
        match (self.start, number) {
            (_, 0) => Some(epoch),
            (0, 1) => Some(counted),
            (0, _) => None,
            (_, 1) => Some(Write::store(
                word_address(act.page, TDCS_OP),
                OpState::PostExport as u64,
            )),
            (_, 2) => Some(counted),
            _ => None,
        }
    }

    ghost means = { λ l. token-means l.place l.tdr l.slot l.start };
}

/// The words that a token is made of, where its conditions hold.
fn token_words(told: &mut Told, place: Place, tdr: u64, start: u64) -> Result<TokenWords, Stop>
    ensures goes { Goes place.machine.pages (λ f. whole_tree place.machine tdr start f) told.old.left.now told.new.left.now result }
    ensures feeds { Feeds (λ f. whole_tree place.machine tdr start f) told.old.left.now told.new.left.now result }
    ensures early { MatchResult result (λ x. Unit {0}) (λ e. StopEarly 32 (length told.old.left.now) e) }
    ensures inside { MatchResult result (λ x. (x.tdcs < place.machine.pages) × (x.room.page < place.machine.pages) × (x.room.counter < 2 ^ 32 - 1)) (λ e. StopIn place.machine e) }
{
    let pages = u64::from(place.machine.pages);
    told.check(tdr < pages, Status::OperandInvalid(1))?;
    told.check(start < 2, Status::OperandInvalid(3))?;
    if start == 0 {
        epoch_token(told, place, tdr as u16)
    } else {
        start_token(told, place, tdr as u16)
    }
}

/// Of an epoch token.
fn epoch_token(told: &mut Told, place: Place, tdr: u16) -> Result<TokenWords, Stop>
    requires { tdr < place.machine.pages }
    ensures goes { Goes place.machine.pages (λ f. parts_tree place.machine tdr 0 f) told.old.left.now told.new.left.now result }
    ensures feeds { Feeds (λ f. parts_tree place.machine tdr 0 f) told.old.left.now told.new.left.now result }
    ensures early { MatchResult result (λ x. Unit {0}) (λ e. StopEarly 32 (length told.old.left.now) e) }
    ensures inside { MatchResult result (λ x. (x.tdcs < place.machine.pages) × (x.room.page < place.machine.pages) × (x.room.counter < 2 ^ 32 - 1)) (λ e. StopIn place.machine e) }
{
    let streams = streams_of(told, place, tdr, &EXPORTED)?;
    let epoch = next_epoch(told, place.machine, streams.tdcs)?;
    with_total(told, place.machine, &streams, epoch)
}

/// Of a start token.
fn start_token(told: &mut Told, place: Place, tdr: u16) -> Result<TokenWords, Stop>
    requires { tdr < place.machine.pages }
    ensures goes { Goes place.machine.pages (λ f. parts_tree place.machine tdr 1 f) told.old.left.now told.new.left.now result }
    ensures feeds { Feeds (λ f. parts_tree place.machine tdr 1 f) told.old.left.now told.new.left.now result }
    ensures early { MatchResult result (λ x. Unit {0}) (λ e. StopEarly 32 (length told.old.left.now) e) }
    ensures inside { MatchResult result (λ x. (x.tdcs < place.machine.pages) × (x.room.page < place.machine.pages) × (x.room.counter < 2 ^ 32 - 1)) (λ e. StopIn place.machine e) }
{
    let streams = streams_of(told, place, tdr, &PAUSED)?;
    none_missing(told, place.machine, streams.tdcs)?;
    none_dirty(told, place.machine, streams.tdcs, streams.pages.as_slice())?;
    with_total(told, place.machine, &streams, LAST_EPOCH)
}

/// The TD is in one of these operation states, its map is held alone, and its stream 0 has room.
fn streams_of(told: &mut Told, place: Place, tdr: u16, allowed: &[OpState]) -> Result<Streams, Stop>
    requires { tdr < place.machine.pages }
    ensures goes { Goes place.machine.pages (λ f. streams_tree place.machine tdr allowed.now f) told.old.left.now told.new.left.now result }
    ensures feeds { Feeds (λ f. streams_tree place.machine tdr allowed.now f) told.old.left.now told.new.left.now result }
    ensures early { MatchResult result (λ s. length told.old.left.now ≡ 11 + length s.pages.items + length told.new.left.now) (λ e. StopEarly 15 (length told.old.left.now) e) }
    ensures inside { MatchResult result (λ s. (s.tdcs < place.machine.pages) × (s.room.page < place.machine.pages) × (s.room.counter < 2 ^ 32 - 1)) (λ e. StopIn place.machine e) }
    ensures pages { MatchResult result (λ s. All (λ p. p < place.machine.pages) s.pages.items × (length s.pages.items ≤ 4)) (λ e. Unit {0}) }
{
    let tdcs = td_alone(told, place, tdr, allowed)?;
    let room = room_on(told, place.machine, tdcs, 0)?;
    let pages = stream_pages(told, place.machine, tdcs)?;
    Ok(Streams { tdcs, room, pages })
}

/// The migration epoch that an epoch token begins.
fn next_epoch(told: &mut Told, machine: Machine, tdcs: u16) -> Result<u32, Stop>
    requires { tdcs < machine.pages }
    ensures goes { Goes machine.pages (λ f. next_epoch_tree tdcs f) told.old.left.now told.new.left.now result }
    ensures feeds { Feeds (λ f. next_epoch_tree tdcs f) told.old.left.now told.new.left.now result }
    ensures uses { Uses 1 told.old.left.now told.new.left.now result }
    ensures inside { MatchResult result (λ e. Unit {0}) (λ e. StopIn machine e) }
{
    let epoch = mig_epoch(told, machine, tdcs)?;
    told.check(
        epoch < LAST_EPOCH - 1,
        Status::CounterLimit(Counter::MigEpoch),
    )?;
    Ok(epoch + 1)
}

/// The TD state and every VCPU state were exported in the session.
fn none_missing(told: &mut Told, machine: Machine, tdcs: u16) -> Result<(), Stop>
    requires { tdcs < machine.pages }
    ensures goes { Goes machine.pages (λ f. none_missing_tree tdcs (f tt)) told.old.left.now told.new.left.now result }
    ensures feeds { Feeds (λ f. none_missing_tree tdcs (f tt)) told.old.left.now told.new.left.now result }
    ensures uses { Uses 3 told.old.left.now told.new.left.now result }
    ensures inside { MatchResult result (λ u. Unit {0}) (λ e. StopIn machine e) }
{
    let td_exported = told.load(word_address(tdcs, TDCS_TD_EXPORTED))?;
    let vps = told.load(word_address(tdcs, TDCS_VP_COUNT))?;
    let vps_exported = told.load(word_address(tdcs, TDCS_VPS_EXPORTED))?;
    let missing = missing_of(td_exported, vps, vps_exported);
    told.check(missing == 0, Status::StateMissing(missing))
}

ghost use Rattle.export_tokens.specs.TokenTrees.{missing_in};

/// How many states weren't exported, by how many were.
fn missing_of(td_exported: u64, vps: u64, vps_exported: u64) -> u64
    ensures { result ≡ missing_in td_exported vps vps_exported }
{
    let td: u64 = 1;
    td.saturating_sub(td_exported) + u64::from(vps_told(vps)).saturating_sub(vps_exported)
}

/// No page is dirty.
fn none_dirty(told: &mut Told, machine: Machine, tdcs: u16, pages: &[u16]) -> Result<(), Stop>
    requires { (tdcs < machine.pages) × All (λ p. p < machine.pages) pages.now }
    ensures goes { Goes machine.pages (λ f. none_dirty_tree tdcs pages.now (f tt)) told.old.left.now told.new.left.now result }
    ensures feeds { Feeds (λ f. none_dirty_tree tdcs pages.now (f tt)) told.old.left.now told.new.left.now result }
    ensures uses { Uses (1 + length pages.now) told.old.left.now told.new.left.now result }
    ensures inside { MatchResult result (λ u. Unit {0}) (λ e. StopIn machine e) }
{
    let dirtied = told.load(word_address(tdcs, TDCS_DIRTIED))?;
    let cleaned = stream_sum(told, machine, pages, STREAM_CLEANED)?;
    let dirty = dirtied.saturating_sub(cleaned);
    told.check(dirty == 0, Status::DirtyPages(dirty))
}

/// How many bundles came before a token of that epoch, and the session.
fn with_total(
    told: &mut Told,
    machine: Machine,
    streams: &Streams,
    epoch: u32,
) -> Result<TokenWords, Stop>
    requires { (streams.now.tdcs < machine.pages) × All (λ p. p < machine.pages) streams.now.pages.items }
    ensures goes { Goes machine.pages (λ f. total_tree streams.now epoch f) told.old.left.now told.new.left.now result }
    ensures feeds { Feeds (λ f. total_tree streams.now epoch f) told.old.left.now told.new.left.now result }
    ensures uses { Uses (1 + length streams.now.pages.items) told.old.left.now told.new.left.now result }
    ensures inside { MatchResult result (λ x. (x.tdcs ≡ streams.now.tdcs) × (x.room ≡ streams.now.room)) (λ e. StopIn machine e) }
{
    let total = stream_sum(told, machine, streams.pages.as_slice(), STREAM_COUNTER)?;
    let session = session(told, machine, streams.tdcs)?;
    Ok(TokenWords {
        tdcs: streams.tdcs,
        room: streams.room,
        epoch,
        session,
        total,
    })
}
