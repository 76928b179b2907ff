//! IMPORT.STATE.TD.

ghost use Rattle.std.specs.Prelude.{◌≡◌, ℕ, ◌-◌, ◌^◌, ◌<◌, true, length, MatchOption, MatchResult};
ghost use Rattle.flat_core.specs.Opening.{clear_header};
ghost use Rattle.flat_core.specs.Inputs.{input_in};
ghost use Rattle.leaf_engine.specs.Decides.{HandsAt};
ghost use Rattle.leaf_engine.specs.Inside.{StopIn, StopEarly};
ghost use Rattle.leaf_parts.specs.Parts.{Goes, Uses};
ghost use Rattle.import_states.specs.TdImportTrees.{td_due_tree, td_import_asked, td_import_changes};

use crate::sessions::Begun;
use arrayvec::ArrayVec;
use import_parts::{
    Run, counter_due, epoch_same, header_of, input_of, session_same, tag_holds, word_given,
};
use incoming::Incoming;
use leaf_engine::{ANSWERS, Hand, Leaf, Need, Place, Stop, Told, Write, need_at};
use leaf_parts::td_head;
use mrtd_measure::Measure;
use stream_parts::Room;
use td_words::places::{STREAM_COUNTER, TDCS_OP, TDCS_RTMRS};
use td_words::{Header, Machine, Mode, OpState, Reply, Status, Value, word_address};

/// The type of a bundle that has the state of a TD.
const TD_STATE: [u8; 1] = [1];

/// How many words the four RTMRs have behind the first one.
const MORE_RTMR_WORDS: u16 = 23;

/// The operation state in which the state of a TD comes in.
const MEMORY: [OpState; 1] = [OpState::MemoryImport];

/// IMPORT.STATE.TD TDR SLOT: a TD gets its RTMRs. It makes more writes than a plan does.
#[derive(Drop)]
pub struct ImportTd<'a> {
    place: Place,
    tdr: u64,
    slot: u64,
    input: Option<Incoming<'a>>,
    told: ArrayVec<u64, ANSWERS>,
    written: usize,
    waits: bool,
    ghost room: { waits ≡ true → length told.items < 32 },
}

impl<'a> ImportTd<'a> {
    ghost use Rattle.std.specs.Prelude.{◌≡◌, [], MatchOption};
    ghost use Rattle.leaf_engine.specs.Turns.{IsFresh};
    ghost use Rattle.leaf_engine.specs.Trees.{feed, changes_of};
    ghost use Rattle.leaf_engine.specs.Decides.{Decides};
    ghost use Rattle.import_states.specs.TdImportTrees.{td_import_tree, import_td_task, DecidesOn};

    /// The leaf of a call at a place, with the bundle in its slot.
    pub fn leaf(place: Place, tdr: u64, slot: u64, input: Option<Incoming<'a>>) -> ImportTd<'a>
        ensures task { ⟦<ImportTd<'a> as Leaf>⟧.task result ≡ import_td_task place input.entry tdr slot }
        ensures fresh { let leaf = ⟦<ImportTd<'a> as Leaf>⟧ in IsFresh (leaf.task result).tree (leaf.rest result) (leaf.tries result) (leaf.written result) (leaf.waits result) }
        ensures input { (result.slot ≡ slot) × (result.input ≡ input.entry) }
    {
        ImportTd {
            place,
            tdr,
            slot,
            input,
            told: ArrayVec::new(),
            written: 0,
            waits: false,
        }
    }

    /// The slot of its bundle.
    pub fn slot(&self) -> u64
        ensures { result ≡ self.now.slot }
    {
        self.slot
    }

    /// The same leaf, as far as it is, with this bundle in place of its own.
    pub fn with_input<'b>(self, input: Option<Incoming<'b>>) -> ImportTd<'b>
        ensures call { (result.place ≡ self.entry.place) × (result.tdr ≡ self.entry.tdr) }
        ensures input { (result.slot ≡ self.entry.slot) × (result.input ≡ input.entry) }
        ensures progress { (result.told ≡ self.entry.told) × (result.written ≡ self.entry.written) × (result.waits ≡ self.entry.waits) }
    {
        let ImportTd {
            place,
            tdr,
            slot,
            input: _,
            told,
            written,
            waits,
        } = self;
        ImportTd {
            place,
            tdr,
            slot,
            input,
            told,
            written,
            waits,
        }
    }

    /// Where its act is stored, once all is told, and else what comes next.
    fn decided(&self) -> Result<Begun, Stop>
        ensures decides { DecidesOn self.now.place.machine (input_in self.now.input) self.now.tdr self.now.slot self.now.told.items result }
        ensures inside { MatchResult result (λ g. (g.tdcs < self.now.place.machine.pages) × (g.page < self.now.place.machine.pages)) (λ e. StopIn self.now.place.machine e) }
        ensures early { MatchResult result (λ g. Unit {0}) (λ e. StopEarly 32 (length self.now.told.items) e) }
    {
        let mut told = Told {
            left: self.told.as_slice(),
        };
        td_import(&mut told, self.place, self.tdr, self.slot, &self.input)
    }

    /// Where its act is stored, if all is told.
    fn given(&self) -> Option<Begun>
        ensures changes { MatchOption result (changes_of (feed (td_import_tree self.now.place.machine (input_in self.now.input) self.now.tdr self.now.slot) self.now.told.items) ≡ [])
            (λ g. changes_of (feed (td_import_tree self.now.place.machine (input_in self.now.input) self.now.tdr self.now.slot) self.now.told.items) ≡ td_import_changes (input_in self.now.input) g) }
        ensures inside { MatchOption result (Unit {0}) (λ g. (g.tdcs < self.now.place.machine.pages) × (g.page < self.now.place.machine.pages)) }
    {
        match self.decided() {
            Ok(begun) => Some(begun),
            Err(_) => None,
        }
    }
}

impl<'a> Leaf for ImportTd<'a> {
    ghost use Rattle.std.specs.Prelude.{◌≡◌, ℕ, ◌+◌, ◌-◌, ◌*◌, length, if◌then◌else◌, Option};
    ghost use Rattle.flat_core.specs.Opening.{Incoming as Arrived};
    ghost use Rattle.flat_core.specs.Inputs.{input_in};
    ghost use Rattle.leaf_engine.specs.Trees.{feed};
    ghost use Rattle.import_states.specs.TdImportTrees.{td_import_tree, import_td_task};
    ghost use Rattle.import_states.specs.TdImportMeanings.{import_td-means};

    ghost task = { λ l. import_td_task l.place l.input l.tdr l.slot };

    ghost rest = { λ l. feed (td_import_tree l.place.machine (input_in l.input) l.tdr l.slot) l.told.items };

    ghost written = { λ l. l.written };

    ghost waits = { λ l. l.waits };

    ghost bound = { λ l. 2 * (32 - length l.told.items) + (26 - l.written) - (if l.waits then 1 else 0) };

    ghost tries = { λ l. 32 - length l.told.items };

    ghost Origin = { ℕ × Option Arrived };

    ghost origin = { λ l. (l.slot, l.input) };

    fn need(&mut self) -> Need {
        match self.decided() {
            Ok(_) => Need::Verdict(Reply::Done(Value::Nothing)),
            Err(stop) => need_at(stop, &mut self.told, &mut self.waits),
        }
    }

    fn tell(&mut self, word: u64) {
        self.waits = false;
        self.told.push(word);
    }

    fn write(&mut self, hasher: &mut Option<Measure>) -> Option<Write> {
        let begun = self.given()?;
        let write = td_write(self.place.machine, &self.input, begun, self.written, hasher)?;
        self.written += 1;
        Some(write)
    }

    ghost means = { λ l. import_td-means l.place l.input l.tdr l.slot };
}

/// The conditions of the call, which tell where its act is stored.
fn td_import(
    told: &mut Told,
    place: Place,
    tdr: u64,
    slot: u64,
    input: &Option<Incoming<'_>>,
) -> Result<Begun, Stop>
    ensures goes { Goes place.machine.pages (λ f. td_import_asked place.machine (input_in input.now) tdr slot f) told.old.left.now told.new.left.now result }
    ensures early { MatchResult result (λ g. Unit {0}) (λ e. StopEarly 32 (length told.old.left.now) e) }
    ensures inside { MatchResult result (λ g. (g.tdcs < place.machine.pages) × (g.page < place.machine.pages)) (λ e. StopIn place.machine e) }
{
    told.check(
        tdr < u64::from(place.machine.pages),
        Status::OperandInvalid(1),
    )?;
    input_of(told, slot, input, &TD_STATE)?;
    let td = td_head(told, place, tdr as u16, Mode::Exclusive, &MEMORY)?;
    let header = header_of(input);
    let room = td_due(told, place.machine, td.tdcs, &header, input)?;
    Ok(Begun {
        tdcs: td.tdcs,
        page: room.page,
    })
}

/// The bundle is the one that is due.
fn td_due(
    told: &mut Told,
    machine: Machine,
    tdcs: u16,
    header: &Header,
    input: &Option<Incoming<'_>>,
) -> Result<Room, Stop>
    requires { tdcs < machine.pages }
    ensures goes { Goes machine.pages (λ f. td_due_tree machine.pages tdcs (clear_header header.now) (input_in input.now) f) told.old.left.now told.new.left.now result }
    ensures uses { Uses 4 told.old.left.now told.new.left.now result }
    ensures inside { MatchResult result (λ r. r.page < machine.pages) (λ e. StopIn machine e) }
{
    session_same(told, machine, tdcs, header)?;
    epoch_same(told, machine, tdcs, header)?;
    let room = counter_due(told, machine, tdcs, 0, header)?;
    tag_holds(told, input)?;
    Ok(room)
}

/// The write of that number: the first word of the RTMRs is the act.
fn td_write(
    machine: Machine,
    input: &Option<Incoming<'_>>,
    begun: Begun,
    number: usize,
    _hand: &mut Hand,
) -> Option<Write>
    requires { (begun.tdcs < machine.pages) × (begun.page < machine.pages) }
    ensures hands { HandsAt machine (td_import_changes (input_in input.now) begun) number _hand.old _hand.new result }
    ensures few { MatchOption result Unit (λ w. number < 26) }
{
    let write = match number {
        0 => Write::store(word_address(begun.tdcs, TDCS_RTMRS), word_given(input, 0)),
        1 => Write::store(
            word_address(begun.tdcs, TDCS_OP),
            OpState::StateImport as u64,
        ),
        2 => Write::store(
            word_address(begun.page, STREAM_COUNTER),
            u64::from(header_of(input).counter) + 1,
        ),
        _ => {
            let rtmrs = Run {
                page: begun.tdcs,
                at: TDCS_RTMRS,
                from: 1,
                count: MORE_RTMR_WORDS,
            };
            return rtmrs.write(machine, input, number - 3);
        }
    };
    Some(write)
}
