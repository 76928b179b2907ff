//! EXPORT.STATE.IMMUTABLE.

ghost use Rattle.std.specs.Prelude.{◌≡◌, ℕ, ◌+◌, ◌<◌, ◌≤◌, length, take, MatchResult};
ghost use Rattle.td_words.specs.Address.{word_at};
ghost use Rattle.std.specs.List.{All};
ghost use Rattle.arrayvec.specs.ArrayVec.{ArrayVec};
ghost use Rattle.flat_core.specs.Opening.{clear_header};
ghost use Rattle.leaf_engine.specs.Inside.{StopIn, StopEarly};
ghost use Rattle.leaf_parts.specs.Parts.{Goes, Feeds, Uses};
ghost use Rattle.export_sessions.specs.SessionTrees.{restored_tree, numbered_tree, words_tree, session_rest, begun_tree, export_tree, passed_in, exported_in, IsSession, session_header};

use crate::changes::Session;
use arrayvec::ArrayVec;
use bundles::Bundle;
use leaf_engine::{Act, Hand, Place, Plan, Stop, Told, Verdict, Write};
use leaf_parts::{td_head, vps_told};
use stream_parts::{STREAMS, stream_pages, stream_sum};
use td_words::places::{
    KEY_LAST_EXPORTED, KEY_LOCK, STREAM_FIRST_EXPORTS, TDCS_MRTD, TDCS_UNRESTORED, TDCS_VP_COUNT,
};
use td_words::{
    Counter, Header, LockName, Machine, Mode, OpState, Status, key_address, word_address,
};

/// How many words MRTD has.
const MRTD_WORDS: usize = 6;

/// A session with the words of its TD's MRTD.
#[derive(Drop)]
pub struct Export<'a> {
    pub session: Session,
    pub mrtd: &'a [u64],
}

/// EXPORT.STATE.IMMUTABLE TDR SLOT: a session of the TD's export begins, and its first bundle goes
/// into an output slot.
#[derive(Drop)]
pub struct Immutable {
    place: Place,
    tdr: u64,
    slot: u16,
}

impl Immutable {
    ghost use Rattle.std.specs.Prelude.{◌≡◌};
    ghost use Rattle.bundles.specs.Made.{made_in};
    ghost use Rattle.leaf_engine.specs.Trees.{feed, answer_of};
    ghost use Rattle.export_sessions.specs.SessionTrees.{immutable_task};

    /// The plan of a call at a place.
    pub fn plan(place: Place, tdr: u64, slot: u16) -> Immutable
        ensures { ⟦<Immutable as Plan>⟧.task result ≡ immutable_task place tdr slot }
    {
        Immutable { place, tdr, slot }
    }

    /// The bundle that it makes, where it was told these words.
    pub fn bundle<'a>(&self, told: &'a [u64]) -> Option<Bundle<'a>>
        ensures { made_in result ≡ (answer_of (feed (immutable_task self.now.place self.now.tdr self.now.slot).tree told.now)).bundles }
    {
        let mut told = Told { left: told };
        match to_export(&mut told, self.place, self.tdr) {
            Ok(export) => Some(Bundle {
                slot: self.slot,
                header: header(&export.session),
                payload: export.mrtd,
            }),
            Err(_) => None,
        }
    }
}

impl Plan for Immutable {
    ghost use Rattle.std.specs.Prelude.{true};
    ghost use Rattle.leaf_engine.specs.Trees.{feed, changes_of};
    ghost use Rattle.export_sessions.specs.SessionTrees.{immutable_task};
    ghost use Rattle.export_sessions.specs.SessionMeanings.{immutable-means};

    ghost task = { λ l. immutable_task l.place l.tdr l.slot };

    ghost changes = { λ l told a. changes_of (feed (immutable_task l.place l.tdr l.slot).tree told) };

    ghost shown = { λ l told a. true };

    fn decide(&self, told: Told) -> Result<Verdict, Stop> {
        let mut told = told;
        to_export(&mut told, self.place, self.tdr)?;
        Ok(Verdict::done(Act::NONE))
    }

    // The words tell again what the session is.
    fn write(&self, _act: Act, told: &[u64], number: usize, _hand: &mut Hand) -> Option<Write> {
        let mut told = Told { left: told };
        match to_export(&mut told, self.place, self.tdr) {
            Ok(export) => export.session.write(self.place.machine, number),
            Err(_) => None,
        }
    }

    ghost means = { λ l. immutable-means l.place l.tdr l.slot };
}

/// The conditions of the call, the session that it begins, and MRTD.
fn to_export<'a>(told: &mut Told<'a>, place: Place, tdr: u64) -> Result<Export<'a>, Stop>
    ensures goes { Goes place.machine.pages (λ f. export_tree place.machine tdr f) told.old.left.now told.new.left.now (exported_in result) }
    ensures feeds { Feeds (λ f. export_tree place.machine tdr f) told.old.left.now told.new.left.now (exported_in result) }
    ensures early { MatchResult result (λ e. Unit {0}) (λ e. StopEarly 26 (length told.old.left.now) e) }
    ensures inside { MatchResult result (λ e. IsSession place.machine e.session) (λ e. StopIn place.machine e) }
{
    let session = begin(told, place, tdr)?;
    let mrtd = words(told, session.tdcs, TDCS_MRTD, MRTD_WORDS)?;
    Ok(Export { session, mrtd })
}

/// The conditions of the call, and the session that it begins.
fn begin(told: &mut Told, place: Place, tdr: u64) -> Result<Session, Stop>
    ensures goes { Goes place.machine.pages (λ f. begun_tree place.machine tdr f) told.old.left.now told.new.left.now result }
    ensures feeds { Feeds (λ f. begun_tree place.machine tdr f) told.old.left.now told.new.left.now result }
    ensures early { MatchResult result (λ s. length told.old.left.now ≤ 20 + length told.new.left.now) (λ e. StopEarly 20 (length told.old.left.now) e) }
    ensures inside { MatchResult result (λ s. IsSession place.machine s) (λ e. StopIn place.machine e) }
{
    told.check(
        tdr < u64::from(place.machine.pages),
        Status::OperandInvalid(1),
    )?;
    let td = td_head(
        told,
        place,
        tdr as u16,
        Mode::Exclusive,
        &[OpState::Runnable],
    )?;
    new_session(told, place.machine, td.tdcs)
}

/// The key table is held alone, and there is a session for it to count.
fn new_session(told: &mut Told, machine: Machine, tdcs: u16) -> Result<Session, Stop>
    requires { tdcs < machine.pages }
    ensures goes { Goes machine.pages (λ f. session_rest machine.pages tdcs f) told.old.left.now told.new.left.now result }
    ensures feeds { Feeds (λ f. session_rest machine.pages tdcs f) told.old.left.now told.new.left.now result }
    ensures early { MatchResult result (λ s. length told.old.left.now ≤ 13 + length told.new.left.now) (λ e. StopEarly 13 (length told.old.left.now) e) }
    ensures inside { MatchResult result (λ s. IsSession machine s) (λ e. StopIn machine e) }
{
    let lock = key_address(machine.pages, KEY_LOCK);
    told.lock(LockName::Keys, lock, Mode::Exclusive)?;
    let streams = restored(told, machine, tdcs)?;
    number(told, machine, tdcs, streams)
}

/// The streams of the TD, of which there is one, where none of its entries is exported.
fn restored(told: &mut Told, machine: Machine, tdcs: u16) -> Result<ArrayVec<u16, STREAMS>, Stop>
    requires { tdcs < machine.pages }
    ensures goes { Goes machine.pages (λ f. restored_tree machine.pages tdcs f) told.old.left.now told.new.left.now result }
    ensures feeds { Feeds (λ f. restored_tree machine.pages tdcs f) told.old.left.now told.new.left.now result }
    ensures early { MatchResult result (λ ps. length told.old.left.now ≤ 10 + length told.new.left.now) (λ e. StopEarly 10 (length told.old.left.now) e) }
    ensures inside { MatchResult result (λ ps. All (λ p. p < machine.pages) ps.items × (length ps.items ≤ 4)) (λ e. StopIn machine e) }
{
    let streams = stream_pages(told, machine, tdcs)?;
    told.check(streams.len() > 0, Status::NoStream(0))?;
    let unrestored = told.load(word_address(tdcs, TDCS_UNRESTORED))?;
    let first = stream_sum(told, machine, streams.as_slice(), STREAM_FIRST_EXPORTS)?;
    let exported = unrestored.wrapping_add(first);
    told.check(exported == 0, Status::UnrestoredPages(exported))?;
    Ok(streams)
}

/// There is a number for another session.
fn number(
    told: &mut Told,
    machine: Machine,
    tdcs: u16,
    streams: ArrayVec<u16, STREAMS>,
) -> Result<Session, Stop>
    requires { (tdcs < machine.pages) × All (λ p. p < machine.pages) streams.items × (length streams.items ≤ 4) }
    ensures goes { Goes machine.pages (λ f. numbered_tree tdcs streams f) told.old.left.now told.new.left.now result }
    ensures feeds { Feeds (λ f. numbered_tree tdcs streams f) told.old.left.now told.new.left.now result }
    ensures uses { Uses 2 told.old.left.now told.new.left.now result }
    ensures inside { MatchResult result (λ s. IsSession machine s) (λ e. StopIn machine e) }
{
    let last = told.load(key_address(machine.pages, KEY_LAST_EXPORTED))?;
    told.check(last < 65535, Status::CounterLimit(Counter::Session))?;
    let count = told.load(word_address(tdcs, TDCS_VP_COUNT))?;
    Ok(Session {
        tdcs,
        streams,
        number: last as u16 + 1,
        vps: vps_told(count),
    })
}

/// The header of a session's first bundle, which has number 0 on the first stream, and belongs to
/// migration epoch 1.
fn header(session: &Session) -> Header
    ensures { clear_header result ≡ session_header session.now }
{
    Header {
        size: 64,
        version: 1,
        stream: 0,
        kind: 0,
        reserved: 0,
        counter: 0,
        epoch: 1,
        iv: 0,
        session: session.number,
        index: 0,
        info: u32::from(session.vps),
        gpa: 0,
        total: 0,
        tag: [0; 16],
    }
}

/// So many words of a page from that one on.
fn words<'a>(told: &mut Told<'a>, page: u16, at: u16, count: usize) -> Result<&'a [u64], Stop>
    requires { at + count ≤ 512 }
    ensures goes { (n : ℕ) → Goes n (λ f. words_tree page at count f) told.old.left.now told.new.left.now (passed_in (take count told.old.left.now) result) }
    ensures feeds { Feeds (λ f. words_tree page at count f) told.old.left.now told.new.left.now (passed_in (take count told.old.left.now) result) }
    ensures uses { Uses count told.old.left.now told.new.left.now result }
    ensures value { MatchResult result (λ xs. xs.now ≡ take count told.old.left.now) (λ e. (number : ℕ) × (number < count) × (e ≡ Stop.Load (word_at page (at + number)))) }
{
    let left = told.left;
    if left.len() < count {
        told.left = &[];
        return Err(Stop::Load(word_address(page, at + left.len() as u16)));
    }
    told.left = &left[count..];
    Ok(&left[..count])
}
