//! The act of a host access, the reply that it comes to, and the lock that it holds.

ghost use Rattle.std.specs.Prelude.{◌≡◌, ◌+◌, ◌<◌, Some, None};
ghost use Rattle.td_words.specs.Address.{word_at};
ghost use Rattle.leaf_engine.specs.Turns.{Turned};
ghost use Rattle.leaf_engine.specs.declared.events.Event.TheVariants.{Act};
ghost use Rattle.host_turns.specs.declared.runs.HostStage.TheVariants.{Locked, Ended};
ghost use Rattle.host_turns.specs.HostTurns.{held_by, reply_of, refused, standing_at, IsIn, HasAccessed};

use crate::runs::{HostAccess, HostEnd, HostRun, HostStage};
use guest_turns::load;
use leaf_engine::HeldLock;
use leaf_parts::says_host;
use step_core::{Bench, WordStep};
use td_words::{Reply, Status, Value, pamt_address, word_address};

/// The locks that a host access holds, if there is one.
pub fn held_of(kept: &Option<HostRun>) -> &[HeldLock]
    ensures { result.now ≡ held_by kept.now }
{
    match kept {
        None => &[],
        Some(run) => match run.stage {
            HostStage::Denied => &[],
            _ => &run.lock,
        },
    }
}

/// The act of an access that holds its page's lock, and what it came to.
pub fn act<B: Bench>(bench: &mut B, run: &HostRun) -> HostEnd
    requires inside { IsIn (B.machine bench.old) run.now }
    ensures turned { Turned (B.did bench.old) (B.machine bench.old) (standing_at run.now Locked) bench.new (standing_at run.now (Ended result)) (record { event = Act; reply = None }) }
    ensures machine { B.machine bench.new ≡ B.machine bench.old }
{
    let pamt = load(bench, pamt_address(run.page));
    if says_host(pamt) {
        access(bench, run)
    } else {
        refused(run.access)
    }
}

/// Writes the reply of an access that came to this into its place.
pub fn write_reply(came: HostEnd, place: &mut Option<Reply>)
    ensures { place.new ≡ Some (reply_of came) }
{
    match came {
        HostEnd::Loaded { word } => *place = Some(Reply::Done(Value::Number(word))),
        HostEnd::Stored => *place = Some(Reply::Done(Value::Nothing)),
        HostEnd::NotHost => *place = Some(Reply::Refused(Status::NotHost)),
    }
}

// Loads or stores the word of the host's page.
fn access<B: Bench>(bench: &mut B, run: &HostRun) -> HostEnd
    requires inside { IsIn (B.machine bench.old) run.now }
    ensures accessed { HasAccessed (B.did bench.old) run.now.access (word_at run.now.page run.now.word) bench.new result }
    ensures machine { B.machine bench.new ≡ B.machine bench.old }
{
    let at = word_address(run.page, run.word);
    match run.access {
        HostAccess::Read => HostEnd::Loaded {
            word: load(bench, at),
        },
        HostAccess::Write { value } => {
            bench.perform(WordStep::Store(at, value));
            HostEnd::Stored
        }
    }
}

// What an access of another page comes to.
fn refused(access: HostAccess) -> HostEnd
    ensures { result ≡ refused access }
{
    match access {
        HostAccess::Read => HostEnd::Loaded { word: 0 },
        HostAccess::Write { value: _ } => HostEnd::NotHost,
    }
}
