//! The events of a shared access.

ghost use Rattle.std.specs.Prelude.{◌≡◌, ◌<◌, ◌&&◌, not, ◌==◌, nat_lt, [], Some, None};
ghost use Rattle.td_words.specs.Address.{lock_at};
ghost use Rattle.leaf_engine.specs.Trees.{settle};
ghost use Rattle.leaf_engine.specs.Turns.{standing, TriedOnce};
ghost use Rattle.leaf_engine.specs.declared.events.Stage.TheVariants.{Trying};
ghost use Rattle.guest_turns.specs.SharedTurns.{access_tree, stage_behind, IsRunIn, SharedTurned, KeptTurned};

use crate::acts::{act, violation, write_act};
use crate::runs::{LeafTurn, SharedRun, SharedStage};
use access_core::shared_page;
use leaf_engine::{Event, HeldLock};
use step_core::{Bench, Tried, free, try_shared, undo};
use td_words::{Access, LockName, Mode, Reply, Status, Value, lock_address};

/// The first event of an access of a virtual processor at a call line, in a machine of so many pages. The
/// access is kept where its reply is still to come.
pub fn begin_shared<B: Bench>(
    kept: &mut Option<SharedRun>,
    bench: &mut B,
    pages: u16,
    access: Access,
    vp: u16,
    line: usize,
    register: u8,
    gpa: u64,
    turn: &mut LeafTurn,
)
    requires pages { pages ≡ (B.machine bench.old).pages }
    requires inside { vp < pages }
    requires few { register < 8 }
    ensures turned { SharedTurned (B.did bench.old) (B.machine bench.old) (standing (settle (access_tree (B.machine bench.old) access vp line register gpa)) Trying [] None) bench.new kept.new turn.new }
    ensures machine { B.machine bench.new ≡ B.machine bench.old }
{
    let named = shared_page(gpa);
    if names_other(named, pages, vp) {
        let page = named as u16;
        let granted = try_page(bench, page);
        let stage = stage_behind(granted);
        *kept = Some(SharedRun {
            access,
            register,
            vp,
            page,
            line,
            gpa,
            stage,
            lock: [HeldLock {
                name: LockName::Page(page),
                at: lock_address(page),
                mode: Mode::Shared,
            }],
        });
        *turn = LeafTurn {
            event: Event::Try {
                lock: LockName::Page(page),
                mode: Mode::Shared,
                granted,
            },
            act: None,
            reply: None,
        };
    } else {
        *kept = None;
        let reply = violation(access, gpa);
        *turn = LeafTurn {
            event: Event::Act,
            act: Some(reply),
            reply: Some(reply),
        };
    }
}

/// The next event of the access that is kept, which is kept until its reply comes.
pub fn turn_shared<B: Bench>(kept: &mut Option<SharedRun>, bench: &mut B, turn: &mut LeafTurn)
    requires { IsRunIn (B.machine bench.old) kept.old }
    ensures turned { KeptTurned (B.did bench.old) (B.machine bench.old) kept.old bench.new kept.new turn.new }
    ensures machine { B.machine bench.new ≡ B.machine bench.old }
{
    let Some(run) = kept else { unreachable!() };
    let at = lock_address(run.page);
    let name = LockName::Page(run.page);
    match run.stage {
        SharedStage::Denied => {
            undo(bench, at);
            end(kept, Event::Undo(name), turn);
            turn.reply = Some(Reply::Refused(Status::OperandBusy(name)));
        }
        SharedStage::Locked => {
            let stage = act(bench, run);
            run.stage = stage;
            write_act(run, stage, turn);
        }
        SharedStage::Violated => {
            let (access, gpa) = (run.access, run.gpa);
            free(bench, at, Mode::Shared);
            end(kept, Event::Free(name), turn);
            turn.reply = Some(violation(access, gpa));
        }
        SharedStage::Completed { position: _, word } => {
            free(bench, at, Mode::Shared);
            end(kept, Event::Free(name), turn);
            turn.reply = Some(Reply::Done(Value::Number(word)));
        }
    }
}

// The last event of an access, which is kept no more, and whose reply is still to be written.
fn end(kept: &mut Option<SharedRun>, event: Event, turn: &mut LeafTurn)
    ensures kept { kept.new ≡ None }
    ensures event { turn.new.event ≡ event }
    ensures act { turn.new.act ≡ None }
{
    *kept = None;
    turn.event = event;
    turn.act = None;
}

// Whether it is a page of the machine, and not the processor's own.
fn names_other(named: u64, pages: u16, vp: u16) -> bool
    ensures { result ≡ (nat_lt named pages && not (named == vp)) }
{
    named < u64::from(pages) && named != u64::from(vp)
}

/// The try of a page's lock, which is held shared, and whether it was granted.
pub fn try_page<B: Bench>(bench: &mut B, page: u16) -> bool
    requires { page < (B.machine bench.old).pages }
    ensures tried { TriedOnce (B.did bench.old) (lock_at page) Mode.Shared bench.new result }
    ensures machine { B.machine bench.new ≡ B.machine bench.old }
{
    match try_shared(bench, lock_address(page)) {
        Tried::Granted => true,
        Tried::Denied(_) => false,
    }
}

fn stage_behind(granted: bool) -> SharedStage
    ensures { result ≡ stage_behind granted }
{
    if granted {
        SharedStage::Locked
    } else {
        SharedStage::Denied
    }
}
