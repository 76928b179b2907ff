//! The beginning of the rows that hold a TD's map alone, and the act that gives a TD another operation
//! state.

ghost use Rattle.std.specs.Prelude.{◌<◌, ℕ, length, MatchOption, MatchResult};
ghost use Rattle.td_words.specs.declared.names.OpState.{OpState as Next};
ghost use Rattle.leaf_engine.specs.Decides.{Decides, HandsAt, ending};
ghost use Rattle.leaf_engine.specs.Inside.{StopIn, DecisionIn, DecidesEarly};
ghost use Rattle.leaf_parts.specs.Parts.{Goes, Feeds, Uses};
ghost use Rattle.stream_parts.specs.AloneTrees.{td_alone_tree, op_tree, op_changes};

use leaf_engine::{Act, Hand, Place, Stop, Told, Verdict, Write};
use leaf_parts::td_head;
use sept_parts::tree_lock;
use td_words::places::TDCS_OP;
use td_words::{Machine, Mode, OpState, Status, word_address};

/// The TD is in one of these operation states, which is held alone, and so is its secure EPT. It
/// tells the TDCS page.
pub fn td_alone(told: &mut Told, place: Place, tdr: u16, allowed: &[OpState]) -> Result<u16, Stop>
    requires { tdr < place.machine.pages }
    ensures goes { Goes place.machine.pages (λ f. td_alone_tree place.machine.pages tdr allowed.now f) told.old.left.now told.new.left.now result }
    ensures feeds { Feeds (λ f. td_alone_tree place.machine.pages tdr allowed.now f) told.old.left.now told.new.left.now result }
    ensures uses { Uses 8 told.old.left.now told.new.left.now result }
    ensures inside { MatchResult result (λ d. d < place.machine.pages) (λ e. StopIn place.machine e) }
{
    let td = td_head(told, place, tdr, Mode::Exclusive, allowed)?;
    tree_lock(told, place, td.tdcs, Mode::Exclusive)?;
    Ok(td.tdcs)
}

/// The decision of a call that gives such a TD another operation state, whichever that is.
pub fn op_verdict(told: Told, place: Place, tdr: u64, allowed: &[OpState]) -> Result<Verdict, Stop>
    ensures decides { (next : Next) → Decides place.machine.pages (op_tree place.machine allowed.now next tdr) told.entry.left.now (ending (λ a. op_changes next a.page) result) }
    ensures inside { DecisionIn place.machine (λ a. a.page < place.machine.pages) result }
    ensures early { DecidesEarly 8 (length told.entry.left.now) result }
{
    let mut told = told;
    told.check(
        tdr < u64::from(place.machine.pages),
        Status::OperandInvalid(1),
    )?;
    let tdcs = td_alone(&mut told, place, tdr as u16, allowed)?;
    Ok(Verdict::done(Act {
        page: tdcs,
        ..Act::NONE
    }))
}

/// The write of that number of an act that gives a TD another operation state: its store is all.
pub fn op_write(
    machine: Machine,
    tdcs: u16,
    next: OpState,
    number: usize,
    hand: &mut Hand,
) -> Option<Write>
    requires { tdcs < machine.pages }
    ensures hands { HandsAt machine (op_changes next tdcs) number hand.old hand.new result }
    ensures few { MatchOption result Unit (λ w. number < 1) }
{
    match number {
        0 => Some(Write::store(word_address(tdcs, TDCS_OP), next as u64)),
        _ => None,
    }
}
