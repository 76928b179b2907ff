//! The beginnings of the rows of a TD's calls.

ghost use Rattle.std.specs.Prelude.{◌≡◌, ℕ, ◌<◌, MatchResult};
ghost use Rattle.leaf_engine.specs.Inside.{StopIn};
ghost use Rattle.leaf_parts.specs.Parts.{Goes, Feeds, Uses};
ghost use Rattle.leaf_parts.specs.Heads.{root_tree, life_tree, tdcs_tree, op_tree, td_head_tree, tdr_head_tree};

use crate::words::{is_among, is_life_among, life_told, op_told, page_told, says_kind};
use leaf_engine::{Place, Stop, Told};
use td_words::places::{TDCS_OP, TDCS_OP_LOCK, TDR_LIFE, TDR_TDCS, TDR_TDCX_COUNT};
use td_words::{
    LifeState, LockName, Mode, OpState, PageKind, Status, lock_address, pamt_address, word_address,
};

/// What the beginning of a row tells of its TD: the TDCS page, and the operation state.
#[derive(Clone, Copy, Debug, PartialEq, Eq)]
pub struct Td {
    pub tdcs: u16,
    pub op: OpState,
}

/// The lock of the TDR page is tried in that mode, and the page is one.
pub fn root(told: &mut Told, place: Place, tdr: u16, mode: Mode) -> Result<(), Stop>
    requires { tdr < place.machine.pages }
    ensures goes { Goes place.machine.pages (λ f. root_tree tdr mode (f tt)) told.old.left.now told.new.left.now result }
    ensures feeds { Feeds (λ f. root_tree tdr mode (f tt)) told.old.left.now told.new.left.now result }
    ensures uses { Uses 2 told.old.left.now told.new.left.now result }
    ensures inside { MatchResult result (λ u. Unit {0}) (λ e. StopIn place.machine e) }
{
    told.lock(LockName::Page(tdr), lock_address(tdr), mode)?;
    let pamt = told.load(pamt_address(tdr))?;
    told.check(
        says_kind(PageKind::Tdr, pamt),
        Status::PageMetadataIncorrect(tdr),
    )
}

/// The life state is one of these.
pub fn life_in(told: &mut Told, place: Place, tdr: u16, allowed: &[LifeState]) -> Result<(), Stop>
    requires { tdr < place.machine.pages }
    ensures goes { Goes place.machine.pages (λ f. life_tree tdr allowed.now (f tt)) told.old.left.now told.new.left.now result }
    ensures feeds { Feeds (λ f. life_tree tdr allowed.now (f tt)) told.old.left.now told.new.left.now result }
    ensures uses { Uses 1 told.old.left.now told.new.left.now result }
    ensures inside { MatchResult result (λ u. Unit {0}) (λ e. StopIn place.machine e) }
{
    let life = life_told(told.load(word_address(tdr, TDR_LIFE))?);
    told.check(
        is_life_among(life, allowed),
        Status::LifecycleStateIncorrect(life),
    )
}

/// The two TDCX pages are there. The first one is TDCS.
pub fn tdcs(told: &mut Told, place: Place, tdr: u16) -> Result<u16, Stop>
    requires { tdr < place.machine.pages }
    ensures goes { Goes place.machine.pages (λ f. tdcs_tree place.machine.pages tdr f) told.old.left.now told.new.left.now result }
    ensures feeds { Feeds (λ f. tdcs_tree place.machine.pages tdr f) told.old.left.now told.new.left.now result }
    ensures uses { Uses 2 told.old.left.now told.new.left.now result }
    ensures inside { MatchResult result (λ p. p < place.machine.pages) (λ e. StopIn place.machine e) }
{
    let count = told.load(word_address(tdr, TDR_TDCX_COUNT))?;
    told.check(count == 2, Status::TdcxNumIncorrect(count))?;
    let page = told.load(word_address(tdr, TDR_TDCS))?;
    Ok(page_told(place.machine.pages, page))
}

/// The operation state is held in that mode, and is one of these.
pub fn op_in(
    told: &mut Told,
    place: Place,
    tdcs: u16,
    mode: Mode,
    allowed: &[OpState],
) -> Result<Td, Stop>
    requires { tdcs < place.machine.pages }
    ensures goes { (t : ℕ) → Goes place.machine.pages (λ f. op_tree t tdcs mode allowed.now f) told.old.left.now told.new.left.now result }
    ensures feeds { (t : ℕ) → Feeds (λ f. op_tree t tdcs mode allowed.now f) told.old.left.now told.new.left.now result }
    ensures uses { Uses 2 told.old.left.now told.new.left.now result }
    ensures inside { MatchResult result (λ td. td.tdcs ≡ tdcs) (λ e. StopIn place.machine e) }
{
    told.lock(LockName::Op, word_address(tdcs, TDCS_OP_LOCK), mode)?;
    let op = op_told(told.load(word_address(tdcs, TDCS_OP))?);
    told.check(is_among(op, allowed), Status::OpStateIncorrect(op))?;
    Ok(Td { tdcs, op })
}

/// The beginning of the rows of a TD's calls.
pub fn td_head(
    told: &mut Told,
    place: Place,
    tdr: u16,
    mode: Mode,
    allowed: &[OpState],
) -> Result<Td, Stop>
    requires { tdr < place.machine.pages }
    ensures goes { Goes place.machine.pages (λ f. td_head_tree place.machine.pages tdr mode allowed.now f) told.old.left.now told.new.left.now result }
    ensures feeds { Feeds (λ f. td_head_tree place.machine.pages tdr mode allowed.now f) told.old.left.now told.new.left.now result }
    ensures uses { Uses 7 told.old.left.now told.new.left.now result }
    ensures inside { MatchResult result (λ td. td.tdcs < place.machine.pages) (λ e. StopIn place.machine e) }
{
    root(told, place, tdr, Mode::Shared)?;
    life_in(told, place, tdr, &[LifeState::KeysConfigured])?;
    let tdcs = tdcs(told, place, tdr)?;
    op_in(told, place, tdcs, mode, allowed)
}

/// The beginning of the rows that begin and end a TD's life.
pub fn tdr_head(told: &mut Told, place: Place, tdr: u16, allowed: &[LifeState]) -> Result<(), Stop>
    requires { tdr < place.machine.pages }
    ensures goes { Goes place.machine.pages (λ f. tdr_head_tree tdr allowed.now (f tt)) told.old.left.now told.new.left.now result }
    ensures uses { Uses 3 told.old.left.now told.new.left.now result }
    ensures inside { MatchResult result (λ u. Unit {0}) (λ e. StopIn place.machine e) }
{
    root(told, place, tdr, Mode::Exclusive)?;
    life_in(told, place, tdr, allowed)
}
