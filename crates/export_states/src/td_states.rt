//! EXPORT.STATE.TD.

ghost use Rattle.std.specs.Prelude.{◌≡◌, ℕ, ◌+◌, ◌<◌, ◌≤◌, true, false, length, MatchOption, MatchResult, Err};
ghost use Rattle.leaf_engine.specs.Decides.{HandsAt, need_for, told_then};
ghost use Rattle.leaf_engine.specs.Inside.{StopIn, TriesEarly, is_load};
ghost use Rattle.leaf_parts.specs.Parts.{Goes, Feeds, Uses};
ghost use Rattle.export_states.specs.TdStateTrees.{td_state_tree, td_asked, td_changes, TdComes};

use crate::states::{Exported, Stated, payload_of};
use arrayvec::ArrayVec;
use bundles::Bundle;
use leaf_engine::{Hand, Leaf, Need, Place, Stop, Told, Write};
use leaf_parts::td_head;
use mrtd_measure::Measure;
use stream_parts::{mig_epoch, room_on, session};
use td_words::places::{STREAM_COUNTER, TDCS_RTMRS, TDCS_TD_EXPORTED};
use td_words::{Machine, Mode, OpState, Reply, Status, Value, word_address};

/// How many words the four RTMRs have.
const RTMR_WORDS: u16 = 24;

/// At most how many tries and words the leaf has: 12 up to the RTMRs, and these.
const ANSWERS: usize = 36;

/// The kind of a bundle that has the state of a TD.
const TD_STATE: u8 = 1;

/// EXPORT.STATE.TD TDR SLOT: a bundle has the RTMRs. It is told more words than a plan is.
#[derive(Drop)]
pub struct StateTd {
    place: Place,
    tdr: u64,
    slot: u16,
    told: ArrayVec<u64, ANSWERS>,
    written: usize,
    waits: bool,
    ghost room: { waits ≡ true → length told.items < 36 },
}

impl StateTd {
    ghost use Rattle.std.specs.Prelude.{◌≡◌};
    ghost use Rattle.leaf_engine.specs.Turns.{IsFresh};
    ghost use Rattle.std.specs.Prelude.{[]};
    ghost use Rattle.leaf_engine.specs.Trees.{feed, answer_of, changes_of};
    ghost use Rattle.bundles.specs.Made.{made_in};
    ghost use Rattle.leaf_engine.specs.Decides.{DecidesAs};
    ghost use Rattle.export_states.specs.TdStateTrees.{td_state_task, td_tree};

    /// The leaf of a call at a place.
    pub fn leaf(place: Place, tdr: u64, slot: u16) -> StateTd
        ensures task { ⟦<StateTd as Leaf>⟧.task result ≡ td_state_task place tdr slot }
        ensures fresh { let leaf = ⟦<StateTd as Leaf>⟧ in IsFresh (leaf.task result).tree (leaf.rest result) (leaf.tries result) (leaf.written result) (leaf.waits result) }
    {
        StateTd {
            place,
            tdr,
            slot,
            told: ArrayVec::new(),
            written: 0,
            waits: false,
        }
    }

    /// The bundle that it made of the words told.
    pub fn bundle(&self) -> Option<Bundle<'_>>
        ensures { made_in result ≡ (answer_of (⟦<StateTd as Leaf>⟧.rest self.now)).bundles }
    {
        match td_exported(self.told.as_slice(), self.place, self.tdr) {
            Ok(exported) => Some(exported.bundle(self.slot, TD_STATE)),
            Err(_) => None,
        }
    }

    /// What its act depends on, once all is told.
    fn stated(&self) -> Option<Stated>
        ensures changes { MatchOption result (changes_of (feed (td_tree self.now.place.machine self.now.tdr self.now.slot) self.now.told.items) ≡ [])
            (λ x. changes_of (feed (td_tree self.now.place.machine self.now.tdr self.now.slot) self.now.told.items) ≡ td_changes x) }
        ensures inside { MatchOption result (Unit {0}) (λ x. (x.room.page < self.now.place.machine.pages) × (x.tdcs < self.now.place.machine.pages)) }
    {
        match td_exported(self.told.as_slice(), self.place, self.tdr) {
            Ok(exported) => Some(exported.stated),
            Err(_) => None,
        }
    }

    /// Whether all is told, and else what comes next.
    fn decided(&self) -> Result<(), Stop>
        ensures decides { DecidesAs self.now.place.machine.pages (td_tree self.now.place.machine self.now.tdr self.now.slot) self.now.told.items result }
        ensures inside { MatchResult result (λ u. Unit {0}) (λ e. StopIn self.now.place.machine e) }
        ensures early { MatchResult result (λ u. Unit {0}) (λ e. TriesEarly 12 36 (length self.now.told.items) e) }
    {
        match td_exported(self.told.as_slice(), self.place, self.tdr) {
            Ok(_) => Ok(()),
            Err(stop) => Err(stop),
        }
    }
}

impl Leaf for StateTd {
    ghost use Rattle.std.specs.Prelude.{◌≡◌, ℕ, ◌+◌, ◌-◌, ◌*◌, length, if◌then◌else◌};
    ghost use Rattle.leaf_engine.specs.Trees.{feed};
    ghost use Rattle.export_states.specs.TdStateTrees.{td_state_task, td_tree};
    ghost use Rattle.export_states.specs.TdStateMeanings.{td_state-means};

    ghost task = { λ l. td_state_task l.place l.tdr l.slot };

    ghost rest = { λ l. feed (td_tree l.place.machine l.tdr l.slot) l.told.items };

    ghost written = { λ l. l.written };

    ghost waits = { λ l. l.waits };

    ghost bound = { λ l. 2 * (36 - length l.told.items) + (2 - l.written) - (if l.waits then 1 else 0) };

    ghost tries = { λ l. 12 - length l.told.items };

    ghost Origin = { Unit {0} };

    ghost origin = { λ l. tt };

    fn need(&mut self) -> Need {
        match self.decided() {
            Ok(()) => Need::Verdict(Reply::Done(Value::Nothing)),
            Err(stop) => need_more(stop, &mut self.told, &mut self.waits),
        }
    }

    fn tell(&mut self, word: u64) {
        self.waits = false;
        self.told.push(word);
    }

    fn write(&mut self, hasher: &mut Option<Measure>) -> Option<Write> {
        let stated = self.stated()?;
        let write = td_write(self.place.machine, stated, self.written, hasher)?;
        self.written += 1;
        Some(write)
    }

    ghost means = { λ l. td_state-means l.place l.tdr l.slot };
}

/// What is needed where a decision stops. A lock counts as granted at the next one.
fn need_more(stop: Stop, told: &mut ArrayVec<u64, ANSWERS>, waits: &mut bool) -> Need
    requires early { TriesEarly 12 36 (length told.old.items) stop }
    requires ready { waits.old ≡ false }
    ensures need { result ≡ need_for (Err stop) }
    ensures told { told.new.items ≡ told_then told.old.items stop }
    ensures waits { waits.new ≡ is_load result }
{
    match stop {
        Stop::Lock { name, at, mode } => {
            told.push(0);
            Need::Lock { name, at, mode }
        }
        Stop::Load(at) => {
            *waits = true;
            Need::Load(at)
        }
        Stop::Refused(reply) => Need::Verdict(reply),
    }
}

/// What is exported, where these words are told.
fn td_exported<'a>(told: &'a [u64], place: Place, tdr: u64) -> Result<Exported<'a>, Stop>
    ensures comes { (slot : ℕ) → TdComes place tdr slot told.now result }
    ensures inside { MatchResult result (λ x. (x.stated.room.page < place.machine.pages) × (x.stated.tdcs < place.machine.pages)) (λ e. StopIn place.machine e) }
    ensures early { MatchResult result (λ x. Unit {0}) (λ e. TriesEarly 12 36 (length told.now) e) }
{
    let mut told = Told { left: told };
    let stated = to_export(&mut told, place, tdr)?;
    let payload = payload_of(told.left, stated.tdcs, TDCS_RTMRS, RTMR_WORDS)?;
    Ok(Exported { stated, payload })
}

/// The conditions of the call, and what they tell.
fn to_export(told: &mut Told, place: Place, tdr: u64) -> Result<Stated, Stop>
    ensures goes { Goes place.machine.pages (λ f. td_asked place.machine tdr f) told.old.left.now told.new.left.now result }
    ensures feeds { Feeds (λ f. td_asked place.machine tdr f) told.old.left.now told.new.left.now result }
    ensures uses { Uses 12 told.old.left.now told.new.left.now result }
    ensures inside { MatchResult result (λ x. (x.room.page < place.machine.pages) × (x.tdcs < place.machine.pages)) (λ e. StopIn place.machine e) }
{
    let pages = place.machine.pages;
    told.check(tdr < u64::from(pages), Status::OperandInvalid(1))?;
    let td = td_head(
        told,
        place,
        tdr as u16,
        Mode::Exclusive,
        &[OpState::PausedExport],
    )?;
    td_state(told, place.machine, td.tdcs)
}

/// The TD's state wasn't exported in the session; and what else its bundle says.
fn td_state(told: &mut Told, machine: Machine, tdcs: u16) -> Result<Stated, Stop>
    requires { tdcs < machine.pages }
    ensures goes { Goes machine.pages (λ f. td_state_tree machine.pages tdcs f) told.old.left.now told.new.left.now result }
    ensures feeds { Feeds (λ f. td_state_tree machine.pages tdcs f) told.old.left.now told.new.left.now result }
    ensures uses { Uses 5 told.old.left.now told.new.left.now result }
    ensures inside { MatchResult result (λ x. (x.room.page < machine.pages) × (x.tdcs < machine.pages)) (λ e. StopIn machine e) }
{
    let exported = told.load(word_address(tdcs, TDCS_TD_EXPORTED))?;
    told.check(exported == 0, Status::AlreadyExported)?;
    let room = room_on(told, machine, tdcs, 0)?;
    let session = session(told, machine, tdcs)?;
    let epoch = mig_epoch(told, machine, tdcs)?;
    Ok(Stated {
        tdcs,
        count: 0,
        room,
        session,
        epoch,
        index: 0,
        info: 0,
    })
}

/// The write of that number: that the state was exported is the act, then the bundle is counted.
fn td_write(machine: Machine, stated: Stated, number: usize, hand: &mut Hand) -> Option<Write>
    requires { (stated.room.page < machine.pages) × (stated.tdcs < machine.pages) }
    ensures hands { HandsAt machine (td_changes stated) number hand.old hand.new result }
    ensures few { MatchOption result Unit (λ w. number < 2) }
{
    let write = match number {
        0 => Write::store(word_address(stated.tdcs, TDCS_TD_EXPORTED), 1),
        1 => Write::store(
            word_address(stated.room.page, STREAM_COUNTER),
            u64::from(stated.room.counter) + 1,
        ),
        _ => return None,
    };
    Some(write)
}
