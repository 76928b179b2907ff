//! The run of a call.

ghost use Rattle.std.specs.Prelude.{◌≡◌};
ghost use Rattle.leaf_dispatch.specs.Ended.{made_by_run};
ghost use Rattle.leaf_dispatch.specs.Held.{held_by};
ghost use Rattle.leaf_dispatch.specs.CallRuns.{call_run_seen};

use crate::running::{Running, held_of, made_by_run};
use host_turns::HostRun;
use leaf_engine::HeldLock;
use leaf_table::Given;

/// The run of a call, if there is one: of a host access, or else of another leaf.
#[derive(Drop)]
pub struct CallRun<'a> {
    pub host: Option<HostRun>,
    pub other: Option<Running<'a>>,
}

impl<'a> CallRun<'a> {
    ghost use Rattle.std.specs.Prelude.{◌≡◌};
    ghost use Rattle.leaf_table.specs.Given.{given_in};
    ghost use Rattle.leaf_dispatch.specs.Pausing.{AreWithoutInput, AreWithInput};

    /// The same run, as far as it is, without the bundle that its leaf was given, so that nothing is borrowed.
    pub fn without_input<'b>(self) -> CallRun<'b>
        ensures host { result.host ≡ self.entry.host }
        ensures other { AreWithoutInput self.entry.other result.other }
    {
        let CallRun { host, other } = self;
        let other = match other {
            Some(running) => Some(running.without_input()),
            None => None,
        };
        CallRun { host, other }
    }

    /// The same run, as far as it is, with the bundle that its leaf's slot has here.
    pub fn with_input_of<'b>(self, given: Given<'b>) -> CallRun<'b>
        ensures host { result.host ≡ self.entry.host }
        ensures other { AreWithInput (given_in given.entry) self.entry.other result.other }
    {
        let CallRun { host, other } = self;
        let other = match other {
            Some(running) => Some(running.with_input_of(given)),
            None => None,
        };
        CallRun { host, other }
    }
}

/// The locks that it holds, the oldest first.
pub fn call_held_of<'b>(kept: &'b CallRun<'_>) -> &'b [HeldLock]
    ensures { result.now ≡ held_by (call_run_seen kept.now) }
{
    match kept.host {
        Some(_) => host_turns::held_of(&kept.host),
        None => held_of(&kept.other),
    }
}

/// How many bundles it has made: none, if it is of a host access.
pub fn made_by_call(kept: &CallRun<'_>) -> usize
    ensures { result ≡ made_by_run (call_run_seen kept.now) }
{
    match kept.host {
        Some(_) => 0,
        None => made_by_run(&kept.other),
    }
}
