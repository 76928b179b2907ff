//! The act of a shared access, the reply that it comes to, and the lock that it holds.

ghost use Rattle.std.specs.Prelude.{◌≡◌, ◌<◌, None};
ghost use Rattle.leaf_engine.specs.Turns.{Turned};
ghost use Rattle.leaf_engine.specs.declared.events.Event.TheVariants.{Act};
ghost use Rattle.guest_turns.specs.declared.runs.SharedStage.TheVariants.{Locked};
ghost use Rattle.guest_turns.specs.Turns.{act_of, HasMoved};
ghost use Rattle.guest_turns.specs.SharedTurns.{held_by, standing_at, IsIn, source, target};

use crate::runs::{LeafTurn, SharedRun, SharedStage};
use crate::words::{Moved, load, move_word};
use access_core::{register_address, word_of_gpa};
use leaf_engine::{Event, HeldLock};
use leaf_parts::says_host;
use step_core::Bench;
use td_words::{Access, Outcome, Reply, Value, pamt_address, word_address};

/// The locks that a shared access holds, if there is one.
pub fn held_of(kept: &Option<SharedRun>) -> &[HeldLock]
    ensures { result.now ≡ held_by kept.now }
{
    match kept {
        None => &[],
        Some(run) => match run.stage {
            SharedStage::Denied => &[],
            _ => &run.lock,
        },
    }
}

/// The act of an access that holds its page's lock, and how far it is then.
pub fn act<B: Bench>(bench: &mut B, run: &SharedRun) -> SharedStage
    requires inside { IsIn (B.machine bench.old) run.now }
    ensures turned { Turned (B.did bench.old) (B.machine bench.old) (standing_at run.now Locked) bench.new (standing_at run.now result) (record { event = Act; reply = None }) }
    ensures machine { B.machine bench.new ≡ B.machine bench.old }
{
    let pamt = load(bench, pamt_address(run.page));
    if says_host(pamt) {
        let moved = complete(bench, run);
        SharedStage::Completed {
            position: moved.position,
            word: moved.word,
        }
    } else {
        SharedStage::Violated
    }
}

/// Writes the act's turn, with the reply that the access has come to, where it has made its act.
pub fn write_act(run: &SharedRun, stage: SharedStage, turn: &mut LeafTurn)
    ensures { turn.new ≡ record { event = Act; act = act_of Act (standing_at run.now stage).stage; reply = None } }
{
    turn.event = Event::Act;
    turn.reply = None;
    match stage {
        SharedStage::Completed { position: _, word } => {
            turn.act = Some(Reply::Done(Value::Number(word)));
        }
        SharedStage::Violated => turn.act = Some(violation(run.access, run.gpa)),
        _ => turn.act = None,
    }
}

/// The reply of an access that isn't allowed.
pub fn violation(access: Access, gpa: u64) -> Reply
    ensures { result ≡ Reply.Exited (Outcome.EptViolation gpa access) }
{
    Reply::Exited(Outcome::EptViolation { gpa, access })
}

// Loads or stores the word of the host's page.
fn complete<B: Bench>(bench: &mut B, run: &SharedRun) -> Moved
    requires inside { IsIn (B.machine bench.old) run.now }
    ensures moved { HasMoved (B.did bench.old) run.now.vp (source run.now.access run.now.vp run.now.register run.now.gpa) (target run.now.access run.now.vp run.now.register run.now.gpa) bench.new result }
    ensures machine { B.machine bench.new ≡ B.machine bench.old }
{
    let shared = word_address(run.page, word_of_gpa(run.gpa));
    let register = register_address(run.vp, run.register);
    match run.access {
        Access::Read => move_word(bench, run.vp, shared, register),
        Access::Write => move_word(bench, run.vp, register, shared),
    }
}
