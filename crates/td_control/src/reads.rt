//! MNG.RD.

ghost use Rattle.std.specs.Prelude.{◌≡◌, ◌<◌, length, MatchResult};
ghost use Rattle.flat_core.specs.Digests.{digest_bytes};
ghost use Rattle.leaf_engine.specs.Inside.{StopIn, StopEarly};
ghost use Rattle.leaf_parts.specs.Parts.{Goes, Uses};
ghost use Rattle.td_control.specs.ReadTrees.{value_tree, life_tree, op_tree, epoch_tree, mrtd_tree, words_tree};

use leaf_engine::{Act, Hand, Place, Plan, Stop, Told, Verdict, Write};
use leaf_parts::{life_told, put_bytes, root, td_head};
use td_words::places::{TDCS_EPOCH, TDCS_EPOCH_LOCK, TDCS_MRTD, TDR_LIFE};
use td_words::{LockName, Mode, OpState, ReadField, Status, Value, word_address};

/// The operation states of a TD that is built, or is imported.
const LATER: [OpState; 9] = [
    OpState::Runnable,
    OpState::LiveExport,
    OpState::PausedExport,
    OpState::PostExport,
    OpState::MemoryImport,
    OpState::StateImport,
    OpState::PostImport,
    OpState::LiveImport,
    OpState::FailedImport,
];

/// With the one of a TD that is being built.
const BEGUN: [OpState; 10] = [
    OpState::Initialized,
    OpState::Runnable,
    OpState::LiveExport,
    OpState::PausedExport,
    OpState::PostExport,
    OpState::MemoryImport,
    OpState::StateImport,
    OpState::PostImport,
    OpState::LiveImport,
    OpState::FailedImport,
];

/// All of them.
const ALL: [OpState; 11] = [
    OpState::Uninitialized,
    OpState::Initialized,
    OpState::Runnable,
    OpState::LiveExport,
    OpState::PausedExport,
    OpState::PostExport,
    OpState::MemoryImport,
    OpState::StateImport,
    OpState::PostImport,
    OpState::LiveImport,
    OpState::FailedImport,
];

/// MNG.RD TDR FIELD: a field of a TD.
#[derive(Drop)]
pub struct Rd {
    place: Place,
    tdr: u64,
    field: ReadField,
}

impl Rd {
    ghost use Rattle.std.specs.Prelude.{◌≡◌};
    ghost use Rattle.td_control.specs.ReadTrees.{read_task};

    /// The plan of a call at a place.
    pub fn plan(place: Place, tdr: u64, field: ReadField) -> Rd
        ensures { ⟦<Rd as Plan>⟧.task result ≡ read_task place tdr field }
    {
        Rd { place, tdr, field }
    }
}

impl Plan for Rd {
    ghost use Rattle.std.specs.Prelude.{true, []};
    ghost use Rattle.td_control.specs.ReadTrees.{read_task};
    ghost use Rattle.td_control.specs.ReadMeanings.{read-means};

    ghost task = { λ l. read_task l.place l.tdr l.field };

    ghost changes = { λ l told a. [] };

    ghost shown = { λ l told a. true };

    fn decide(&self, told: Told) -> Result<Verdict, Stop> {
        let mut told = told;
        let pages = self.place.machine.pages;
        told.check(self.tdr < u64::from(pages), Status::OperandInvalid(1))?;
        let value = value_read(&mut told, self.place, self.tdr as u16, self.field)?;
        Ok(Verdict::answer(value))
    }

    fn write(&self, _act: Act, _told: &[u64], _number: usize, _hand: &mut Hand) -> Option<Write> {
        None
    }

    ghost means = { λ l. read-means l.place l.tdr l.field };
}

/// The value of a field, behind the conditions of its reading.
fn value_read(told: &mut Told, place: Place, tdr: u16, field: ReadField) -> Result<Value, Stop>
    requires { tdr < place.machine.pages }
    ensures goes { Goes place.machine.pages (λ f. value_tree place.machine.pages tdr field f) told.old.left.now told.new.left.now result }
    ensures early { MatchResult result (λ v. Unit {0}) (λ e. StopEarly 13 (length told.old.left.now) e) }
    ensures inside { MatchResult result (λ v. Unit {0}) (λ e. StopIn place.machine e) }
{
    match field {
        ReadField::Life => life(told, place, tdr),
        ReadField::Op => op(told, place, tdr),
        ReadField::Epoch => epoch(told, place, tdr),
        ReadField::Mrtd => mrtd(told, place, tdr),
    }
}

/// The life state.
fn life(told: &mut Told, place: Place, tdr: u16) -> Result<Value, Stop>
    requires { tdr < place.machine.pages }
    ensures goes { Goes place.machine.pages (λ f. life_tree tdr f) told.old.left.now told.new.left.now result }
    ensures uses { Uses 3 told.old.left.now told.new.left.now result }
    ensures inside { MatchResult result (λ v. Unit {0}) (λ e. StopIn place.machine e) }
{
    root(told, place, tdr, Mode::Shared)?;
    let life = told.load(word_address(tdr, TDR_LIFE))?;
    Ok(Value::Life(life_told(life)))
}

/// The operation state.
fn op(told: &mut Told, place: Place, tdr: u16) -> Result<Value, Stop>
    requires { tdr < place.machine.pages }
    ensures goes { Goes place.machine.pages (λ f. op_tree place.machine.pages tdr f) told.old.left.now told.new.left.now result }
    ensures uses { Uses 7 told.old.left.now told.new.left.now result }
    ensures inside { MatchResult result (λ v. Unit {0}) (λ e. StopIn place.machine e) }
{
    let td = td_head(told, place, tdr, Mode::Shared, &ALL)?;
    Ok(Value::Op(td.op))
}

/// TD_EPOCH.
fn epoch(told: &mut Told, place: Place, tdr: u16) -> Result<Value, Stop>
    requires { tdr < place.machine.pages }
    ensures goes { Goes place.machine.pages (λ f. epoch_tree place.machine.pages tdr f) told.old.left.now told.new.left.now result }
    ensures uses { Uses 9 told.old.left.now told.new.left.now result }
    ensures inside { MatchResult result (λ v. Unit {0}) (λ e. StopIn place.machine e) }
{
    let td = td_head(told, place, tdr, Mode::Shared, &BEGUN)?;
    let at = word_address(td.tdcs, TDCS_EPOCH_LOCK);
    told.lock(LockName::Epoch, at, Mode::Shared)?;
    let epoch = told.load(word_address(td.tdcs, TDCS_EPOCH))?;
    Ok(Value::Number(epoch))
}

/// MRTD.
fn mrtd(told: &mut Told, place: Place, tdr: u16) -> Result<Value, Stop>
    requires { tdr < place.machine.pages }
    ensures goes { Goes place.machine.pages (λ f. mrtd_tree place.machine.pages tdr f) told.old.left.now told.new.left.now result }
    ensures uses { Uses 13 told.old.left.now told.new.left.now result }
    ensures inside { MatchResult result (λ v. Unit {0}) (λ e. StopIn place.machine e) }
{
    let td = td_head(told, place, tdr, Mode::Shared, &LATER)?;
    let words = mrtd_words(told, place, td.tdcs)?;
    Ok(Value::Digest(digest(&words)))
}

/// The six words of MRTD.
fn mrtd_words(told: &mut Told, place: Place, tdcs: u16) -> Result<[u64; 6], Stop>
    requires { tdcs < place.machine.pages }
    ensures goes { Goes place.machine.pages (λ f. words_tree tdcs f) told.old.left.now told.new.left.now result }
    ensures uses { Uses 6 told.old.left.now told.new.left.now result }
    ensures inside { MatchResult result (λ v. Unit {0}) (λ e. StopIn place.machine e) }
{
    let a = told.load(word_address(tdcs, TDCS_MRTD))?;
    let b = told.load(word_address(tdcs, TDCS_MRTD + 1))?;
    let c = told.load(word_address(tdcs, TDCS_MRTD + 2))?;
    let d = told.load(word_address(tdcs, TDCS_MRTD + 3))?;
    let e = told.load(word_address(tdcs, TDCS_MRTD + 4))?;
    let f = told.load(word_address(tdcs, TDCS_MRTD + 5))?;
    Ok([a, b, c, d, e, f])
}

/// The bytes of a digest's words.
fn digest(words: &[u64; 6]) -> [u8; 48]
    ensures { result ≡ digest_bytes words.now }
{
    let mut bytes = [0; 48];
    put_bytes(words, &mut bytes);
    bytes
}
