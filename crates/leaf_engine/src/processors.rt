//! Logical processors, event by event, and the gate that is asked before each event.

ghost use Rattle.std.specs.Prelude.{◌≡◌, ℕ, Bool, not, List};
ghost use Rattle.td_words.specs.declared.machines.Machine.{Machine};
ghost use Rattle.leaf_engine.specs.declared.events.Event.{Event};
ghost use Rattle.leaf_engine.specs.OwnLists.{Piece};
ghost use Rattle.leaf_engine.specs.Processors.{Turned, has_moved};

use crate::events::Event;
use step_core::Bench;

/// What a turn of a processor comes to: its event, or that it has no line left.
#[derive(Clone, Copy, Debug, PartialEq, Eq)]
pub enum Turn {
    Moved(Event),
    Ended,
}

/// A logical processor with its lines.
pub trait Processor {
    /// The machine that it is a processor of.
    ghost machine: { Self → Machine };

    /// Whether it has no line left.
    ghost has_ended: { Self → Bool };

    /// How many events it can still give at most.
    ghost bound: { Self → ℕ };

    /// From the first state this event, in these pieces, leads to the second.
    ghost moves: { Self → Event → List Piece → Self → Type 0 };

    /// Makes its next event.
    fn turn<B: Bench>(&mut self, bench: &mut B) -> Turn
        requires { machine self.old ≡ B.machine bench.old }
        ensures turned { Turned moves bound (B.did bench.old) self.old bench.new self.new result }
        ensures ended { has_moved result ≡ not (has_ended self.old) }
        ensures same { (B.machine bench.new ≡ B.machine bench.old) × (machine self.new ≡ machine self.old) };
}

/// What is asked before each event of a logical processor, with the number of its events so far.
pub trait Gate {
    fn pass(&self, lp: u8, event: u64);
}

/// The gate that never waits.
#[derive(Clone, Copy, Debug, PartialEq, Eq)]
pub struct NoGate;

impl Gate for NoGate {
    fn pass(&self, _lp: u8, _event: u64) {}
}
