//! The events of a host access.

ghost use Rattle.std.specs.Prelude.{◌≡◌, nat_lt, [], Some, None};
ghost use Rattle.td_words.specs.declared.replies.Reply.TheVariants.{Refused};
ghost use Rattle.leaf_engine.specs.Trees.{settle};
ghost use Rattle.leaf_engine.specs.Turns.{standing};
ghost use Rattle.leaf_engine.specs.declared.events.Event.TheVariants.{Act};
ghost use Rattle.leaf_engine.specs.declared.events.Stage.TheVariants.{Trying};
ghost use Rattle.host_turns.specs.HostTurns.{access_tree, stage_behind, IsRunIn, HostTurned, KeptTurned};

use crate::acts::{act, write_reply};
use crate::runs::{HostAccess, HostRun, HostStage};
use guest_turns::{LeafTurn, try_page};
use leaf_engine::{Event, HeldLock};
use step_core::{Bench, free, undo};
use td_words::{LockName, Mode, Reply, Status, lock_address};

/// The first event of an access to a word of a page, as its call names them, in a machine of so many pages:
/// it is refused where either isn't the machine's, and else tries the page's lock. The access is kept where
/// its reply is still to come.
pub fn begin_host<B: Bench>(
    kept: &mut Option<HostRun>,
    bench: &mut B,
    pages: u16,
    access: HostAccess,
    page: u64,
    word: u64,
    turn: &mut LeafTurn,
)
    requires pages { pages ≡ (B.machine bench.old).pages }
    ensures turned { HostTurned (B.did bench.old) (B.machine bench.old) (standing (settle (access_tree (B.machine bench.old) access page word)) Trying [] None) bench.new kept.new turn.new }
    ensures machine { B.machine bench.new ≡ B.machine bench.old }
{
    if is_page(page, pages) {
        if is_word(word) {
            let named = page as u16;
            let granted = try_page(bench, named);
            let stage = stage_behind(granted);
            *kept = Some(HostRun {
                access,
                page: named,
                word: word as u16,
                stage,
                lock: [HeldLock {
                    name: LockName::Page(named),
                    at: lock_address(named),
                    mode: Mode::Shared,
                }],
            });
            *turn = LeafTurn {
                event: Event::Try {
                    lock: LockName::Page(named),
                    mode: Mode::Shared,
                    granted,
                },
                act: None,
                reply: None,
            };
        } else {
            refuse(kept, Status::OperandInvalid(2), turn);
        }
    } else {
        refuse(kept, Status::OperandInvalid(1), turn);
    }
}

/// The next event of the access that is kept, which is kept until its reply comes.
pub fn turn_host<B: Bench>(kept: &mut Option<HostRun>, bench: &mut B, turn: &mut LeafTurn)
    requires { IsRunIn (B.machine bench.old) kept.old }
    ensures turned { KeptTurned (B.did bench.old) (B.machine bench.old) kept.old bench.new kept.new turn.new }
    ensures machine { B.machine bench.new ≡ B.machine bench.old }
{
    let Some(run) = kept else { unreachable!() };
    let at = lock_address(run.page);
    let name = LockName::Page(run.page);
    match run.stage {
        HostStage::Denied => {
            undo(bench, at);
            *kept = None;
            *turn = LeafTurn {
                event: Event::Undo(name),
                act: None,
                reply: Some(Reply::Refused(Status::OperandBusy(name))),
            };
        }
        HostStage::Locked => {
            let came = act(bench, run);
            run.stage = HostStage::Ended(came);
            turn.event = Event::Act;
            turn.reply = None;
            write_reply(came, &mut turn.act);
        }
        HostStage::Ended(came) => {
            free(bench, at, Mode::Shared);
            *kept = None;
            turn.event = Event::Free(name);
            turn.act = None;
            write_reply(came, &mut turn.reply);
        }
    }
}

// An access that is refused before a lock is tried.
fn refuse(kept: &mut Option<HostRun>, status: Status, turn: &mut LeafTurn)
    ensures kept { kept.new ≡ None }
    ensures turn { turn.new ≡ record { event = Act; act = Some (Refused status); reply = Some (Refused status) } }
{
    *kept = None;
    let reply = Reply::Refused(status);
    *turn = LeafTurn {
        event: Event::Act,
        act: Some(reply),
        reply: Some(reply),
    };
}

fn is_page(page: u64, pages: u16) -> bool
    ensures { result ≡ nat_lt page pages }
{
    page < u64::from(pages)
}

fn is_word(word: u64) -> bool
    ensures { result ≡ nat_lt word 512 }
{
    word < 512
}

fn stage_behind(granted: bool) -> HostStage
    ensures { result ≡ stage_behind granted }
{
    if granted {
        HostStage::Locked
    } else {
        HostStage::Denied
    }
}
