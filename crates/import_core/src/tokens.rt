//! IMPORT.TRACK.

ghost use Rattle.std.specs.Prelude.{◌≡◌, ◌+◌, ◌-◌, ◌^◌, ◌<◌, length, MatchResult};
ghost use Rattle.flat_core.specs.Opening.{clear_header};
ghost use Rattle.flat_core.specs.Inputs.{input_in};
ghost use Rattle.flat_core.specs.ImportRows.{is_start, import_token_ops};
ghost use Rattle.leaf_engine.specs.Inside.{StopIn, StopEarly};
ghost use Rattle.leaf_parts.specs.Parts.{Goes, Uses};
ghost use Rattle.import_core.specs.TokenTrees.{token_epoch_tree, total_same_tree, token_due_tree};

use import_parts::{counter_due, header_of, input_alone, session_same, tag_holds};
use incoming::Incoming;
use leaf_engine::{Act, Hand, Place, Plan, Stop, Told, Verdict, Write};
use stream_parts::{Room, mig_epoch, stream_pages, stream_sum};
use td_words::places::{STREAM_COUNTER, TDCS_MIG_EPOCH, TDCS_OP};
use td_words::{Header, HeaderField, Machine, OpState, Status, word_address};

/// The types of an epoch token and of a start token.
const TOKENS: [u8; 2] = [4, 5];

/// The operation states in which an epoch token comes in.
const FILLING: [OpState; 2] = [OpState::MemoryImport, OpState::StateImport];

/// The one in which the start token does.
const LAST: [OpState; 1] = [OpState::StateImport];

/// IMPORT.TRACK TDR SLOT: a token ends the migration epoch of an import. With the start token all of
/// the session have come in.
#[derive(Drop)]
pub struct ImportToken<'a> {
    place: Place,
    tdr: u64,
    slot: u64,
    input: Option<Incoming<'a>>,
}

impl<'a> ImportToken<'a> {
    ghost use Rattle.std.specs.Prelude.{◌≡◌, Option};
    ghost use Rattle.flat_core.specs.Opening.{Incoming as Arrived};
    ghost use Rattle.import_core.specs.TokenTrees.{import_token_task};

    /// The plan of a call at a place, with the bundle in its slot.
    pub fn plan(place: Place, tdr: u64, slot: u64, input: Option<Incoming<'a>>) -> ImportToken<'a>
        ensures task { ⟦<ImportToken<'a> as Plan>⟧.task result ≡ import_token_task place input.entry tdr slot }
        ensures input { (result.slot ≡ slot) × (result.input ≡ input.entry) }
    {
        ImportToken {
            place,
            tdr,
            slot,
            input,
        }
    }

    /// The slot of its bundle.
    pub fn slot(&self) -> u64
        ensures { result ≡ self.now.slot }
    {
        self.slot
    }

    /// The same plan, with this bundle in place of its own.
    pub fn with_input<'b>(self, input: Option<Incoming<'b>>) -> ImportToken<'b>
        ensures task { (b : Option Arrived) → import_token_task result.place b result.tdr result.slot ≡ import_token_task self.entry.place b self.entry.tdr self.entry.slot }
        ensures input { (result.slot ≡ self.entry.slot) × (result.input ≡ input.entry) }
    {
        let ImportToken {
            place,
            tdr,
            slot,
            input: _,
        } = self;
        ImportToken {
            place,
            tdr,
            slot,
            input,
        }
    }
}

impl<'a> Plan for ImportToken<'a> {
    ghost use Rattle.std.specs.Prelude.{◌^◌, ◌-◌, ◌&&◌, nat_lt};
    ghost use Rattle.import_core.specs.TokenTrees.{import_token_task, import_token_changes};
    ghost use Rattle.import_core.specs.TokenMeanings.{import_token-means};

    ghost task = { λ l. import_token_task l.place l.input l.tdr l.slot };

    ghost changes = { λ l told a. import_token_changes (is_start (input_in l.input).header) a.page a.named a.epoch a.count };

    ghost shown = { λ l told a. nat_lt a.page l.place.machine.pages && nat_lt a.named l.place.machine.pages && nat_lt a.count (2 ^ 32 - 1) };

    fn decide(&self, told: Told) -> Result<Verdict, Stop> {
        let mut told = told;
        let header = header_of(&self.input);
        let tdcs = input_alone(
            &mut told,
            self.place,
            self.tdr,
            self.slot,
            &self.input,
            &TOKENS,
            token_ops(&header),
        )?;
        let room = token_due(&mut told, self.place.machine, tdcs, &header, &self.input)?;
        Ok(Verdict::done(Act {
            page: tdcs,
            named: room.page,
            count: u64::from(room.counter),
            epoch: u64::from(header.epoch),
            ..Act::NONE
        }))
    }

    // The store of the migration epoch is the act; then the start token ends the import of memory and
    // states, and stream 0 counts the bundle.
    fn write(&self, act: Act, _told: &[u64], number: usize, _hand: &mut Hand) -> Option<Write> {
        let header = header_of(&self.input);
        let epoch = Write::store(word_address(act.page, TDCS_MIG_EPOCH), act.epoch);
        let counted = Write::store(word_address(act.named, STREAM_COUNTER), act.count + 1);
        match (is_start(&header), number) {
            (_, 0) => Some(epoch),
            (false, 1) => Some(counted),
            (false, _) => None,
            (true, 1) => Some(Write::store(
                word_address(act.page, TDCS_OP),
                OpState::PostImport as u64,
            )),
            (true, 2) => Some(counted),
            (true, _) => None,
        }
    }

    ghost means = { λ l. import_token-means l.place l.input l.tdr l.slot };
}

/// Whether a token is the start token.
fn is_start(header: &Header) -> bool
    ensures { result ≡ is_start (clear_header header.now) }
{
    header.kind == 5
}

/// The operation states in which a token comes in.
fn token_ops(header: &Header) -> &'static [OpState]
    ensures { result.now ≡ import_token_ops (is_start (clear_header header.now)) }
{
    if is_start(header) { &LAST } else { &FILLING }
}

/// The token is the one that is due: of the session, the migration epoch, and stream 0. It tells that
/// stream.
fn token_due(
    told: &mut Told,
    machine: Machine,
    tdcs: u16,
    header: &Header,
    input: &Option<Incoming<'_>>,
) -> Result<Room, Stop>
    requires { tdcs < machine.pages }
    ensures goes { Goes machine.pages (λ f. token_due_tree machine.pages tdcs (clear_header header.now) (input_in input.now) f) told.old.left.now told.new.left.now result }
    ensures early { MatchResult result (λ r. Unit {0}) (λ e. StopEarly 13 (length told.old.left.now) e) }
    ensures inside { MatchResult result (λ r. (r.page < machine.pages) × (r.counter < 2 ^ 32 - 1)) (λ e. StopIn machine e) }
{
    session_same(told, machine, tdcs, header)?;
    token_epoch(told, machine, tdcs, header)?;
    let room = counter_due(told, machine, tdcs, 0, header)?;
    tag_holds(told, input)?;
    total_same(told, machine, tdcs, header)?;
    Ok(room)
}

/// The migration epoch is the one that the token begins, and of a start token the last one.
fn token_epoch(told: &mut Told, machine: Machine, tdcs: u16, header: &Header) -> Result<(), Stop>
    requires { tdcs < machine.pages }
    ensures goes { Goes machine.pages (λ f. token_epoch_tree tdcs (clear_header header.now) (f tt)) told.old.left.now told.new.left.now result }
    ensures uses { Uses 1 told.old.left.now told.new.left.now result }
    ensures inside { MatchResult result (λ u. Unit {0}) (λ e. StopIn machine e) }
{
    let epoch = mig_epoch(told, machine, tdcs)?;
    told.check(
        u64::from(header.epoch) == epoch_due(header, epoch),
        Status::BundleHeader(HeaderField::Epoch),
    )
}

ghost use Rattle.flat_core.specs.ImportRows.{epoch_due};

/// The migration epoch of a token, by the one before.
fn epoch_due(header: &Header, own: u32) -> u64
    ensures { result ≡ epoch_due (is_start (clear_header header.now)) own }
{
    if is_start(header) {
        u64::from(u32::MAX)
    } else {
        u64::from(own) + 1
    }
}

/// So many bundles of the session came in before it, on all streams, as it says.
fn total_same(told: &mut Told, machine: Machine, tdcs: u16, header: &Header) -> Result<(), Stop>
    requires { tdcs < machine.pages }
    ensures goes { Goes machine.pages (λ f. total_same_tree machine.pages tdcs (clear_header header.now) (f tt)) told.old.left.now told.new.left.now result }
    ensures early { MatchResult result (λ u. Unit {0}) (λ e. StopEarly 9 (length told.old.left.now) e) }
    ensures inside { MatchResult result (λ u. Unit {0}) (λ e. StopIn machine e) }
{
    let pages = stream_pages(told, machine, tdcs)?;
    let total = stream_sum(told, machine, pages.as_slice(), STREAM_COUNTER)?;
    told.check(
        total == header.total,
        Status::TokenTotal {
            own: total,
            got: header.total,
        },
    )
}
