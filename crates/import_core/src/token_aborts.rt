//! EXPORT.ABORT with a bundle, which is the token of a destination that has given an import up.

ghost use Rattle.std.specs.Prelude.{◌≡◌, ◌<◌, length, MatchResult};
ghost use Rattle.flat_core.specs.Opening.{clear_header};
ghost use Rattle.flat_core.specs.Inputs.{input_in};
ghost use Rattle.leaf_engine.specs.Inside.{StopIn};
ghost use Rattle.leaf_parts.specs.Parts.{Goes, Uses};
ghost use Rattle.import_core.specs.TokenAbortTrees.{given_up_tree};

use import_parts::{header_of, input_alone, is_due, session_same, tag_holds};
use incoming::Incoming;
use leaf_engine::{Act, Hand, Place, Plan, Stop, Told, Verdict, Write};
use stream_parts::op_write;
use td_words::{Header, Machine, OpState, Status};

/// The operation state of a TD whose export has its start token.
const SENT: [OpState; 1] = [OpState::PostExport];

/// The type of an abort token.
const ABORT: [u8; 1] = [6];

/// EXPORT.ABORT TDR SLOT: the destination has given the import up, and the TD runs on here.
#[derive(Drop)]
pub struct AbortByToken<'a> {
    place: Place,
    tdr: u64,
    slot: u64,
    input: Option<Incoming<'a>>,
}

impl<'a> AbortByToken<'a> {
    ghost use Rattle.std.specs.Prelude.{◌≡◌, Option};
    ghost use Rattle.flat_core.specs.Opening.{Incoming as Arrived};
    ghost use Rattle.import_core.specs.TokenAbortTrees.{abort_by_token_task};

    /// The plan of a call at a place, with the bundle in its slot.
    pub fn plan(place: Place, tdr: u64, slot: u64, input: Option<Incoming<'a>>) -> AbortByToken<'a>
        ensures task { ⟦<AbortByToken<'a> as Plan>⟧.task result ≡ abort_by_token_task place input.entry tdr slot }
        ensures input { (result.slot ≡ slot) × (result.input ≡ input.entry) }
    {
        AbortByToken {
            place,
            tdr,
            slot,
            input,
        }
    }

    /// The slot of its bundle.
    pub fn slot(&self) -> u64
        ensures { result ≡ self.now.slot }
    {
        self.slot
    }

    /// The same plan, with this bundle in place of its own.
    pub fn with_input<'b>(self, input: Option<Incoming<'b>>) -> AbortByToken<'b>
        ensures task { (b : Option Arrived) → abort_by_token_task result.place b result.tdr result.slot ≡ abort_by_token_task self.entry.place b self.entry.tdr self.entry.slot }
        ensures input { (result.slot ≡ self.entry.slot) × (result.input ≡ input.entry) }
    {
        let AbortByToken {
            place,
            tdr,
            slot,
            input: _,
        } = self;
        AbortByToken {
            place,
            tdr,
            slot,
            input,
        }
    }
}

impl<'a> Plan for AbortByToken<'a> {
    ghost use Rattle.std.specs.Prelude.{nat_lt};
    ghost use Rattle.td_words.specs.declared.names.OpState.TheVariants.{Runnable};
    ghost use Rattle.stream_parts.specs.AloneTrees.{op_changes};
    ghost use Rattle.import_core.specs.TokenAbortTrees.{abort_by_token_task};
    ghost use Rattle.import_core.specs.TokenAbortMeanings.{abort_by_token-means};

    ghost task = { λ l. abort_by_token_task l.place l.input l.tdr l.slot };

    ghost changes = { λ l told a. op_changes Runnable a.page };

    ghost shown = { λ l told a. nat_lt a.page l.place.machine.pages };

    fn decide(&self, told: Told) -> Result<Verdict, Stop> {
        let mut told = told;
        let header = header_of(&self.input);
        let tdcs = input_alone(
            &mut told,
            self.place,
            self.tdr,
            self.slot,
            &self.input,
            &ABORT,
            &SENT,
        )?;
        given_up(&mut told, self.place.machine, tdcs, &header, &self.input)?;
        Ok(Verdict::done(Act {
            page: tdcs,
            ..Act::NONE
        }))
    }

    fn write(&self, act: Act, _told: &[u64], number: usize, hand: &mut Hand) -> Option<Write> {
        op_write(
            self.place.machine,
            act.page,
            OpState::Runnable,
            number,
            hand,
        )
    }

    ghost means = { λ l. abort_by_token-means l.place l.input l.tdr l.slot };
}

/// The token is of the TD's session, and right.
fn given_up(
    told: &mut Told,
    machine: Machine,
    tdcs: u16,
    header: &Header,
    input: &Option<Incoming<'_>>,
) -> Result<(), Stop>
    requires { tdcs < machine.pages }
    ensures goes { Goes machine.pages (λ f. given_up_tree tdcs (clear_header header.now) (input_in input.now) (f tt)) told.old.left.now told.new.left.now result }
    ensures uses { Uses 1 told.old.left.now told.new.left.now result }
    ensures inside { MatchResult result (λ u. Unit {0}) (λ e. StopIn machine e) }
{
    session_same(told, machine, tdcs, header)?;
    told.check(
        is_due(header, 0),
        Status::BundleCounter {
            expected: 0,
            got: u64::from(header.counter),
        },
    )?;
    tag_holds(told, input)
}
