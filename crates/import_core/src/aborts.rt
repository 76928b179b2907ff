//! IMPORT.ABORT.

ghost use Rattle.std.specs.Prelude.{◌≡◌, ◌<◌, length, MatchResult};
ghost use Rattle.leaf_engine.specs.Inside.{StopIn, StopEarly};
ghost use Rattle.leaf_parts.specs.Parts.{Goes, Feeds};
ghost use Rattle.import_core.specs.AbortTrees.{abort_words_tree};

use bundles::Bundle;
use leaf_engine::{Act, Hand, Place, Plan, Stop, Told, Verdict, Write};
use stream_parts::{op_write, session, td_alone};
use td_words::{Header, OpState, Status};

/// The operation states in which an import can be given up.
const GIVEN_UP: [OpState; 3] = [
    OpState::MemoryImport,
    OpState::StateImport,
    OpState::PostImport,
];

/// IMPORT.ABORT TDR SLOT: a TD that was to be imported never runs here, and a token says so to its
/// source.
#[derive(Drop)]
pub struct ImportAbort {
    place: Place,
    tdr: u64,
    slot: u16,
}

/// What an abort token is made of: the TDCS page, and the session.
#[derive(Clone, Copy, Debug, PartialEq, Eq)]
struct AbortWords {
    tdcs: u16,
    session: u16,
}

impl ImportAbort {
    ghost use Rattle.std.specs.Prelude.{◌≡◌};
    ghost use Rattle.import_core.specs.AbortTrees.{import_abort_task};

    /// The plan of a call at a place.
    pub fn plan(place: Place, tdr: u64, slot: u16) -> ImportAbort
        ensures { ⟦<ImportAbort as Plan>⟧.task result ≡ import_abort_task place tdr slot }
    {
        ImportAbort { place, tdr, slot }
    }

    ghost use Rattle.bundles.specs.Made.{made_in};
    ghost use Rattle.leaf_engine.specs.Trees.{feed, answer_of};

    /// The bundle that the call makes where it was told these words, if it is done then.
    pub fn bundle<'a>(&self, told: &'a [u64]) -> Option<Bundle<'a>>
        ensures { made_in result ≡ (answer_of (feed (⟦<ImportAbort as Plan>⟧.task self.now).tree told.now)).bundles }
    {
        let mut told = Told { left: told };
        match abort_words(&mut told, self.place, self.tdr) {
            Ok(words) => Some(Bundle {
                slot: self.slot,
                header: abort_header(words.session),
                payload: &[],
            }),
            Err(_) => None,
        }
    }
}

ghost use Rattle.flat_core.specs.Opening.{clear_header};
ghost use Rattle.import_core.specs.AbortTrees.{abort_token};

/// The header of an abort token, which stands on no stream.
fn abort_header(session: u16) -> Header
    ensures { clear_header result ≡ abort_token session }
{
    Header {
        size: 64,
        version: 1,
        stream: 0,
        kind: 6,
        reserved: 0,
        counter: 0,
        epoch: 0,
        iv: 0,
        session,
        index: 0,
        info: 0,
        gpa: 0,
        total: 0,
        tag: [0; 16],
    }
}

impl Plan for ImportAbort {
    ghost use Rattle.std.specs.Prelude.{nat_lt};
    ghost use Rattle.td_words.specs.declared.names.OpState.TheVariants.{FailedImport};
    ghost use Rattle.stream_parts.specs.AloneTrees.{op_changes};
    ghost use Rattle.import_core.specs.AbortTrees.{import_abort_task};
    ghost use Rattle.import_core.specs.AbortMeanings.{import_abort-means};

    ghost task = { λ l. import_abort_task l.place l.tdr l.slot };

    ghost changes = { λ l told a. op_changes FailedImport a.page };

    ghost shown = { λ l told a. nat_lt a.page l.place.machine.pages };

    fn decide(&self, told: Told) -> Result<Verdict, Stop> {
        let mut told = told;
        let words = abort_words(&mut told, self.place, self.tdr)?;
        Ok(Verdict::done(Act {
            page: words.tdcs,
            ..Act::NONE
        }))
    }

    fn write(&self, act: Act, _told: &[u64], number: usize, hand: &mut Hand) -> Option<Write> {
        op_write(
            self.place.machine,
            act.page,
            OpState::FailedImport,
            number,
            hand,
        )
    }

    ghost means = { λ l. import_abort-means l.place l.tdr l.slot };
}

/// What its token is made of, where its conditions hold.
fn abort_words(told: &mut Told, place: Place, tdr: u64) -> Result<AbortWords, Stop>
    ensures goes { Goes place.machine.pages (λ f. abort_words_tree place.machine tdr f) told.old.left.now told.new.left.now result }
    ensures feeds { Feeds (λ f. abort_words_tree place.machine tdr f) told.old.left.now told.new.left.now result }
    ensures early { MatchResult result (λ x. Unit {0}) (λ e. StopEarly 9 (length told.old.left.now) e) }
    ensures inside { MatchResult result (λ x. x.tdcs < place.machine.pages) (λ e. StopIn place.machine e) }
{
    told.check(
        tdr < u64::from(place.machine.pages),
        Status::OperandInvalid(1),
    )?;
    let tdcs = td_alone(told, place, tdr as u16, &GIVEN_UP)?;
    let session = session(told, place.machine, tdcs)?;
    Ok(AbortWords { tdcs, session })
}
