//! IMPORT.STATE.IMMUTABLE.

ghost use Rattle.std.specs.Prelude.{◌≡◌, ℕ, ◌<◌, length, MatchResult};
ghost use Rattle.flat_core.specs.Opening.{clear_header};
ghost use Rattle.flat_core.specs.Inputs.{input_in};
ghost use Rattle.leaf_engine.specs.Inside.{StopIn, StopEarly};
ghost use Rattle.leaf_parts.specs.Parts.{Goes, Feeds, Uses};
ghost use Rattle.import_states.specs.BeginImportTrees.{keys_held_tree, stream_there_tree, session_first_tree, begin_import_tree, begin_import_asked};

use import_parts::{Run, header_of, input_of, is_due, tag_holds};
use incoming::Incoming;
use leaf_engine::{Act, Hand, Place, Plan, Stop, Told, Verdict, Write};
use leaf_parts::td_head;
use stream_parts::stream_page;
use td_words::places::{
    KEY_LAST_IMPORTED, KEY_LOCK, STREAM_COUNTER, TDCS_EPOCH, TDCS_MIG_EPOCH, TDCS_MRTD, TDCS_OP,
    TDCS_SESSION, TDCS_STREAM_COUNT, TDCS_VPS_EXPECTED,
};
use td_words::{
    Header, HeaderField, LockName, Machine, Mode, OpState, Status, key_address, word_address,
};

/// The type of a bundle that has what doesn't change of a TD.
const IMMUTABLE_STATE: [u8; 1] = [0];

/// How many words MRTD has.
const MRTD_WORDS: u16 = 6;

/// The operation state in which an import begins.
const FIRST: [OpState; 1] = [OpState::Uninitialized];

/// IMPORT.STATE.IMMUTABLE TDR SLOT: a session of the TD's import begins.
#[derive(Drop)]
pub struct ImportImmutable<'a> {
    place: Place,
    tdr: u64,
    slot: u64,
    input: Option<Incoming<'a>>,
}

/// Where a session's beginning is stored: the TDCS page, and the page of the first stream.
#[derive(Clone, Copy, Debug, PartialEq, Eq)]
pub struct Begun {
    pub tdcs: u16,
    pub page: u16,
}

impl<'a> ImportImmutable<'a> {
    ghost use Rattle.std.specs.Prelude.{◌≡◌, Option};
    ghost use Rattle.flat_core.specs.Opening.{Incoming as Arrived};
    ghost use Rattle.import_states.specs.BeginImportTrees.{import_immutable_task};

    /// The plan of a call at a place, with the bundle in its slot.
    pub fn plan(
        place: Place,
        tdr: u64,
        slot: u64,
        input: Option<Incoming<'a>>,
    ) -> ImportImmutable<'a>
        ensures task { ⟦<ImportImmutable<'a> as Plan>⟧.task result ≡ import_immutable_task place input.entry tdr slot }
        ensures input { (result.slot ≡ slot) × (result.input ≡ input.entry) }
    {
        ImportImmutable {
            place,
            tdr,
            slot,
            input,
        }
    }

    /// The slot of its bundle.
    pub fn slot(&self) -> u64
        ensures { result ≡ self.now.slot }
    {
        self.slot
    }

    /// The same plan, with this bundle in place of its own.
    pub fn with_input<'b>(self, input: Option<Incoming<'b>>) -> ImportImmutable<'b>
        ensures task { (b : Option Arrived) → import_immutable_task result.place b result.tdr result.slot ≡ import_immutable_task self.entry.place b self.entry.tdr self.entry.slot }
        ensures input { (result.slot ≡ self.entry.slot) × (result.input ≡ input.entry) }
    {
        let ImportImmutable {
            place,
            tdr,
            slot,
            input: _,
        } = self;
        ImportImmutable {
            place,
            tdr,
            slot,
            input,
        }
    }
}

impl<'a> Plan for ImportImmutable<'a> {
    ghost use Rattle.std.specs.Prelude.{nat_lt, ◌&&◌};
    ghost use Rattle.flat_core.specs.Inputs.{input_in};
    ghost use Rattle.import_states.specs.BeginImportTrees.{begin_import_changes, import_immutable_task};
    ghost use Rattle.import_states.specs.BeginImportMeanings.{import_immutable-means};

    ghost task = { λ l. import_immutable_task l.place l.input l.tdr l.slot };

    ghost changes = { λ l told a. begin_import_changes (input_in l.input) (record { tdcs = a.page; page = a.named }) };

    ghost shown = { λ l told a. nat_lt a.page l.place.machine.pages && nat_lt a.named l.place.machine.pages };

    fn decide(&self, told: Told) -> Result<Verdict, Stop> {
        let mut told = told;
        let begun = to_begin(&mut told, self.place, self.tdr, self.slot, &self.input)?;
        Ok(Verdict::done(Act {
            page: begun.tdcs,
            named: begun.page,
            ..Act::NONE
        }))
    }

    // The operation state is the act.
    fn write(&self, act: Act, _told: &[u64], number: usize, _hand: &mut Hand) -> Option<Write> {
        let machine = self.place.machine;
        let header = header_of(&self.input);
        let session = u64::from(header.session);
        let write = match number {
            0 => Write::store(
                word_address(act.page, TDCS_OP),
                OpState::MemoryImport as u64,
            ),
            1 => Write::store(word_address(act.page, TDCS_EPOCH), 1),
            2 => Write::store(word_address(act.page, TDCS_MIG_EPOCH), 1),
            3 => Write::store(word_address(act.page, TDCS_SESSION), session),
            4 => Write::store(
                word_address(act.page, TDCS_VPS_EXPECTED),
                u64::from(header.info),
            ),
            5 => Write::store(key_address(machine.pages, KEY_LAST_IMPORTED), session),
            6 => Write::store(word_address(act.named, STREAM_COUNTER), 1),
            _ => {
                let mrtd = Run {
                    page: act.page,
                    at: TDCS_MRTD,
                    from: 0,
                    count: MRTD_WORDS,
                };
                return mrtd.write(machine, &self.input, number - 7);
            }
        };
        Some(write)
    }

    ghost means = { λ l. import_immutable-means l.place l.input l.tdr l.slot };
}

/// The conditions of the call, which tell where the session is stored.
fn to_begin(
    told: &mut Told,
    place: Place,
    tdr: u64,
    slot: u64,
    input: &Option<Incoming<'_>>,
) -> Result<Begun, Stop>
    ensures goes { Goes place.machine.pages (λ f. begin_import_asked place.machine (input_in input.now) tdr slot f) told.old.left.now told.new.left.now result }
    ensures early { MatchResult result (λ g. Unit {0}) (λ e. StopEarly 11 (length told.old.left.now) e) }
    ensures inside { MatchResult result (λ g. (g.tdcs < place.machine.pages) × (g.page < place.machine.pages)) (λ e. StopIn place.machine e) }
{
    told.check(
        tdr < u64::from(place.machine.pages),
        Status::OperandInvalid(1),
    )?;
    input_of(told, slot, input, &IMMUTABLE_STATE)?;
    let td = td_head(told, place, tdr as u16, Mode::Exclusive, &FIRST)?;
    let header = header_of(input);
    let page = begin(told, place.machine, td.tdcs, &header, input)?;
    Ok(Begun {
        tdcs: td.tdcs,
        page,
    })
}

/// What comes behind the beginning of the row, which tells the page of the first stream.
fn begin(
    told: &mut Told,
    machine: Machine,
    tdcs: u16,
    header: &Header,
    input: &Option<Incoming<'_>>,
) -> Result<u16, Stop>
    requires { tdcs < machine.pages }
    ensures goes { Goes machine.pages (λ f. begin_import_tree machine.pages tdcs (clear_header header.now) (input_in input.now) f) told.old.left.now told.new.left.now result }
    ensures uses { Uses 4 told.old.left.now told.new.left.now result }
    ensures inside { MatchResult result (λ p. p < machine.pages) (λ e. StopIn machine e) }
{
    hold_keys(told, machine)?;
    has_stream(told, machine, tdcs)?;
    is_first(told, machine, header)?;
    let page = stream_page(told, machine, tdcs, 0)?;
    tag_holds(told, input)?;
    Ok(page)
}

/// The key table is held alone.
fn hold_keys(told: &mut Told, machine: Machine) -> Result<(), Stop>
    ensures goes { Goes machine.pages (λ f. keys_held_tree (f tt)) told.old.left.now told.new.left.now result }
    ensures uses { Uses 1 told.old.left.now told.new.left.now result }
    ensures inside { MatchResult result (λ u. Unit {0}) (λ e. StopIn machine e) }
{
    let lock = key_address(machine.pages, KEY_LOCK);
    told.lock(LockName::Keys, lock, Mode::Exclusive)
}

/// The TD has a stream.
fn has_stream(told: &mut Told, machine: Machine, tdcs: u16) -> Result<(), Stop>
    requires { tdcs < machine.pages }
    ensures goes { Goes machine.pages (λ f. stream_there_tree tdcs (f tt)) told.old.left.now told.new.left.now result }
    ensures uses { Uses 1 told.old.left.now told.new.left.now result }
    ensures inside { MatchResult result (λ u. Unit {0}) (λ e. StopIn machine e) }
{
    let count = told.load(word_address(tdcs, TDCS_STREAM_COUNT))?;
    told.check(0 < count, Status::NoStream(0))
}

/// The bundle is the first one of a session that is later than the last imported one.
fn is_first(told: &mut Told, machine: Machine, header: &Header) -> Result<(), Stop>
    ensures goes { Goes machine.pages (λ f. session_first_tree (clear_header header.now) (f tt)) told.old.left.now told.new.left.now result }
    ensures uses { Uses 1 told.old.left.now told.new.left.now result }
    ensures inside { MatchResult result (λ u. Unit {0}) (λ e. StopIn machine e) }
{
    let last = told.load(key_address(machine.pages, KEY_LAST_IMPORTED))?;
    told.check(
        last < u64::from(header.session),
        Status::BundleHeader(HeaderField::Session),
    )?;
    told.check(header.epoch == 1, Status::BundleHeader(HeaderField::Epoch))?;
    told.check(
        is_due(header, 0),
        Status::BundleCounter {
            expected: 0,
            got: u64::from(header.counter),
        },
    )
}
