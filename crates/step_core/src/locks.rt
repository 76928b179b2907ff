//! Tries of lock words, and how they are taken back.

ghost use Rattle.std.specs.Prelude.{◌≡◌, ◌<◌, ◌^◌};
ghost use Rattle.step_core.specs.Words.{word_count};
ghost use Rattle.step_core.specs.Locks.{TriedBy, DidStep, shared_outcome, exclusive_outcome, weight_of};

use crate::benches::Bench;
use crate::steps::WordStep;
use td_words::Mode;

/// The outcome of a try. A denied one tells the word that it saw.
#[derive(Clone, Copy, Debug, PartialEq, Eq)]
pub enum Tried {
    Granted,
    Denied(u64),
}

/// The bit of the exclusive holder.
const HOLDER: u64 = 1 << 63;

/// Tries to share a lock: its count is raised by one, and the try is denied where an exclusive
/// holder was there. A denied try is to be undone.
pub fn try_shared<B: Bench>(bench: &mut B, at: u32) -> Tried
    requires { at < word_count (B.machine bench.old) }
    ensures machine { B.machine bench.new ≡ B.machine bench.old }
    ensures tried { TriedBy (B.did bench.old) (WordStep.Add at 1) shared_outcome bench.new result }
{
    let seen = bench.perform(WordStep::Add(at, 1));
    if seen < HOLDER {
        Tried::Granted
    } else {
        Tried::Denied(seen)
    }
}

/// Tries to hold a lock alone, which is granted where nobody held it or was being refused.
pub fn try_exclusive<B: Bench>(bench: &mut B, at: u32) -> Tried
    requires { at < word_count (B.machine bench.old) }
    ensures machine { B.machine bench.new ≡ B.machine bench.old }
    ensures tried { TriedBy (B.did bench.old) (WordStep.Exchange at 0 (2 ^ 63)) exclusive_outcome bench.new result }
{
    let seen = bench.perform(WordStep::Exchange {
        at,
        old: 0,
        new: HOLDER,
    });
    if seen == 0 {
        Tried::Granted
    } else {
        Tried::Denied(seen)
    }
}

/// Takes back the count that a denied shared try left.
pub fn undo<B: Bench>(bench: &mut B, at: u32)
    requires { at < word_count (B.machine bench.old) }
    ensures machine { B.machine bench.new ≡ B.machine bench.old }
    ensures did { DidStep (B.did bench.old) (WordStep.Sub at 1) bench.new }
{
    bench.perform(WordStep::Sub(at, 1));
}

/// Gives a lock back that was held in a mode.
pub fn free<B: Bench>(bench: &mut B, at: u32, mode: Mode)
    requires { at < word_count (B.machine bench.old) }
    ensures machine { B.machine bench.new ≡ B.machine bench.old }
    ensures did { DidStep (B.did bench.old) (WordStep.Sub at (weight_of mode)) bench.new }
{
    let weight = match mode {
        Mode::Shared => 1,
        Mode::Exclusive => HOLDER,
    };
    bench.perform(WordStep::Sub(at, weight));
}
