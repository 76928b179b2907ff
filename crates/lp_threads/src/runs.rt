//! Running lanes to their ends.

ghost use Rattle.std.specs.Prelude.{All};
ghost use Rattle.lp_threads.specs.Running.{FitsBench, HasRun, HaveRun};

use crate::lanes::Lane;
use leaf_engine::{Gate, Processor, Turn};
use std::thread;
use std::thread::Threads;

// Makes all turns of a lane.
fn run_one<P: Processor, G: Gate>(lane: &mut Lane<'_, P>, gate: &G)
    requires { FitsBench P.machine lane.old }
    ensures { HasRun P.has_ended P.moves lane.old lane.new }
{
    let mut events = 0u64;
    gate.pass(lane.lp, events);
    while let Turn::Moved(_) = lane.processor.turn(&mut lane.bench) {
        events = events.saturating_add(1);
        gate.pass(lane.lp, events);
    }
}

/// Makes all turns of each lane's processor. The lanes are halved until each is in a thread of its own, or
/// as far as threads can be made. Before each turn the gate is asked, before the one that tells the end
/// too, with the lane's number and with how many events its processor has made here, from 0.
pub fn run_all<R: Threads + Sync, P: Processor + Send, G: Gate + Sync>(
    threads: &R,
    lanes: &mut [Lane<'_, P>],
    gate: &G,
)
    requires { All (FitsBench P.machine) lanes.old }
    ensures { HaveRun P.has_ended P.moves lanes.old lanes.new }
{
    let run = |_, lane: &mut Lane<'_, P>| run_one(lane, gate);
    let count = lanes.len().max(1);
    thread::for_each_mut(threads, lanes, count, &run);
}
