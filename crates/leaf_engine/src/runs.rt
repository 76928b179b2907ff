//! Runs of leaves, event by event.

ghost use Rattle.std.specs.Prelude.{◌≡◌, ◌≤◌, ◌<◌, ◌==◌, ℕ, [], ◌∷◌, ◌++◌, length, None, true, false, if◌then◌else◌};
ghost use Rattle.leaf_engine.specs.declared.events.Stage.TheVariants.{Trying, Answered};
ghost use Rattle.leaf_engine.specs.Trees.{settle};
ghost use Rattle.leaf_engine.specs.Turns.{standing, CanRun, IsFresh, Turned, Went, GaveBack, AreIn, TriedOnce, has_ended, busy, last_reply, denied};
ghost use Rattle.leaf_engine.specs.Guests.{is_epoch_name, gives_epoch_back};
ghost use Rattle.step_core.specs.Words.{word_count};
ghost use Rattle.td_words.specs.declared.machines.Machine.{Machine};

use crate::asking::{Choice, ask, change};
use crate::events::{Event, HeldLock, RunTurn, Stage};
use crate::leaves::Leaf;
use arrayvec::ArrayVec;
use mrtd_measure::Measure;
use std::mem;
use step_core::{Bench, Tried, free, try_exclusive, try_shared, undo};
use td_words::{LockName, Mode, Reply, Status};

/// At most how many locks a leaf holds at once.
pub const LOCKS: usize = 32;

/// How far a run is, apart from its leaf.
#[derive(Drop)]
pub struct RunProgress {
    hasher: Option<Measure>,
    stage: Stage,
    held: ArrayVec<HeldLock, LOCKS>,
}

/// A leaf on its way through its row, or giving its locks back.
pub struct Run<L: Leaf> {
    leaf: L,
    hasher: Option<Measure>,
    stage: Stage,
    held: ArrayVec<HeldLock, LOCKS>,
}

impl<L: Leaf> Run<L> {
    /// At the leaf's first event. It holds nothing.
    pub fn new(leaf: L) -> Run<L>
        requires { IsFresh (L.task leaf).tree (L.rest leaf) (L.tries leaf) (L.written leaf) (L.waits leaf) }
        ensures leaf { result.leaf ≡ leaf }
        ensures at_start { standing (L.rest result.leaf) result.stage result.held.items result.hasher ≡ standing (settle (L.task leaf).tree) Trying [] None }
        ensures can_run { (m : Machine) → CanRun m (standing (L.rest result.leaf) result.stage result.held.items result.hasher) (L.tries result.leaf) (L.written result.leaf) (L.waits result.leaf) }
    {
        Run {
            leaf,
            hasher: None,
            stage: Stage::Trying,
            held: ArrayVec::new(),
        }
    }

    /// Whether its last event is done.
    pub fn has_ended(&self) -> bool
        ensures { result ≡ has_ended self.now.stage self.now.held.items }
    {
        match self.stage {
            Stage::Answered(_) => self.held.is_empty(),
            _ => false,
        }
    }

    /// How far it is.
    pub fn stage(&self) -> Stage
        ensures { result ≡ self.now.stage }
    {
        self.stage
    }

    /// The locks that it holds, the oldest first.
    pub fn held(&self) -> &[HeldLock]
        ensures { result.now ≡ self.now.held.items }
    {
        self.held.as_slice()
    }

    /// Whether the newest lock that it holds is an E.
    pub fn gives_epoch_back(&self) -> bool
        ensures { result ≡ gives_epoch_back self.now.held.items }
    {
        gives_epoch_back(self.held.as_slice())
    }

    /// The leaf.
    pub fn leaf(&self) -> &L
        ensures { result.now ≡ self.now.leaf }
    {
        &self.leaf
    }

    /// Answers this from now on, as VP.ENTER does once its guest is left.
    pub fn answer(&mut self, reply: Reply)
        ensures leaf { self.new.leaf ≡ self.old.leaf }
        ensures stands { standing (L.rest self.new.leaf) self.new.stage self.new.held.items self.new.hasher ≡ standing (L.rest self.old.leaf) (Answered reply) self.old.held.items self.old.hasher }
    {
        self.stage = Stage::Answered(reply);
    }

    /// The leaf, as it now is.
    pub fn into_leaf(self) -> L
        ensures { result ≡ self.leaf }
    {
        let Run {
            leaf,
            hasher: _,
            stage: _,
            held: _,
        } = self;
        leaf
    }

    /// The leaf, as it now is, and how far the run is besides.
    pub fn into_parts(self) -> (L, RunProgress)
        ensures leaf { result.0 ≡ self.leaf }
        ensures stage { result.1.stage ≡ self.stage }
        ensures held { result.1.held ≡ self.held }
        ensures hasher { result.1.hasher ≡ self.hasher }
    {
        let Run {
            leaf,
            hasher,
            stage,
            held,
        } = self;
        (
            leaf,
            RunProgress {
                hasher,
                stage,
                held,
            },
        )
    }

    /// The run of a leaf that is as far as this.
    pub fn resumed(leaf: L, progress: RunProgress) -> Run<L>
        ensures leaf { result.leaf ≡ leaf }
        ensures stage { result.stage ≡ progress.stage }
        ensures held { result.held ≡ progress.held }
        ensures hasher { result.hasher ≡ progress.hasher }
    {
        let RunProgress {
            hasher,
            stage,
            held,
        } = progress;
        Run {
            leaf,
            hasher,
            stage,
            held,
        }
    }

    /// Makes the word steps up to the leaf's next event. The reply comes with the last one.
    pub fn turn<B: Bench>(&mut self, bench: &mut B) -> RunTurn
        requires machine { (L.task self.old.leaf).place.machine ≡ B.machine bench.old }
        requires can_run { CanRun (B.machine bench.old) (standing (L.rest self.old.leaf) self.old.stage self.old.held.items self.old.hasher) (L.tries self.old.leaf) (L.written self.old.leaf) (L.waits self.old.leaf) }
        requires going { has_ended self.old.stage self.old.held.items ≡ false }
        ensures turned { Turned (B.did bench.old) (B.machine bench.old) (standing (L.rest self.old.leaf) self.old.stage self.old.held.items self.old.hasher) bench.new (standing (L.rest self.new.leaf) self.new.stage self.new.held.items self.new.hasher) result }
        ensures can_run { CanRun (B.machine bench.new) (standing (L.rest self.new.leaf) self.new.stage self.new.held.items self.new.hasher) (L.tries self.new.leaf) (L.written self.new.leaf) (L.waits self.new.leaf) }
        ensures same { (B.machine bench.new ≡ B.machine bench.old) × (L.task self.new.leaf ≡ L.task self.old.leaf) }
        ensures origin { L.origin self.new.leaf ≡ L.origin self.old.leaf }
    {
        let event = match self.stage {
            Stage::Trying => self.go_on(bench),
            Stage::Undoing { name, at } => {
                undo(bench, at);
                self.stage = busy(name);
                Event::Undo(name)
            }
            Stage::Answered(_) => give_back(&mut self.held, bench),
        };
        let reply = last_reply(self.stage, &self.held);
        RunTurn { event, reply }
    }

    /// Up to the try of a lock, or through the act.
    fn go_on<B: Bench>(&mut self, bench: &mut B) -> Event
        requires machine { (L.task self.old.leaf).place.machine ≡ B.machine bench.old }
        requires can_run { CanRun (B.machine bench.old) (standing (L.rest self.old.leaf) self.old.stage self.old.held.items self.old.hasher) (L.tries self.old.leaf) (L.written self.old.leaf) (L.waits self.old.leaf) }
        requires trying { self.old.stage ≡ Trying }
        ensures went { Went (B.did bench.old) (B.machine bench.old) (standing (L.rest self.old.leaf) self.old.stage self.old.held.items self.old.hasher) bench.new (standing (L.rest self.new.leaf) self.new.stage self.new.held.items self.new.hasher) result }
        ensures can_run { CanRun (B.machine bench.new) (standing (L.rest self.new.leaf) self.new.stage self.new.held.items self.new.hasher) (L.tries self.new.leaf) (L.written self.new.leaf) (L.waits self.new.leaf) }
        ensures same { (B.machine bench.new ≡ B.machine bench.old) × (L.task self.new.leaf ≡ L.task self.old.leaf) }
        ensures origin { L.origin self.new.leaf ≡ L.origin self.old.leaf }
    {
        match ask(&mut self.leaf, bench) {
            Choice::Lock { name, at, mode } => {
                let granted = try_lock(bench, at, mode);
                note_try(
                    &mut self.stage,
                    &mut self.held,
                    HeldLock { name, at, mode },
                    granted,
                );
                Event::Try {
                    lock: name,
                    mode,
                    granted,
                }
            }
            Choice::Verdict(reply) => {
                change(&mut self.leaf, &mut self.hasher, bench);
                self.stage = Stage::Answered(reply);
                Event::Act
            }
        }
    }
}

/// Gives the newest lock back.
fn give_back<B: Bench>(held: &mut ArrayVec<HeldLock, LOCKS>, bench: &mut B) -> Event
    requires in_machine { AreIn (B.machine bench.old) held.old.items }
    requires some { (length held.old.items == 0) ≡ false }
    ensures gave { GaveBack (B.did bench.old) held.old.items bench.new held.new.items result }
    ensures in_machine { AreIn (B.machine bench.new) held.new.items }
    ensures machine { B.machine bench.new ≡ B.machine bench.old }
    ensures shorter { length held.new.items ≤ length held.old.items }
{
    let Some(newest) = held.pop() else {
        unreachable!()
    };
    free(bench, newest.at, newest.mode);
    Event::Free(newest.name)
}

fn gives_epoch_back(held: &[HeldLock]) -> bool
    ensures { result ≡ gives_epoch_back held.now }
{
    match held.last() {
        Some(newest) => is_epoch(newest.name),
        None => false,
    }
}

fn is_epoch(name: LockName) -> bool
    ensures { result ≡ is_epoch_name name }
{
    match name {
        LockName::Epoch => true,
        _ => false,
    }
}

/// What a run knows after a try.
fn note_try(stage: &mut Stage, held: &mut ArrayVec<HeldLock, LOCKS>, lock: HeldLock, granted: bool)
    requires { granted ≡ true → length held.old.items < 32 }
    ensures stage { stage.new ≡ (if granted then stage.old else denied lock.name lock.at lock.mode) }
    ensures held { held.new.items ≡ (if granted then held.old.items ++ lock ∷ [] else held.old.items) }
{
    if granted {
        held.push(lock);
    } else {
        *stage = match lock.mode {
            Mode::Shared => Stage::Undoing {
                name: lock.name,
                at: lock.at,
            },
            Mode::Exclusive => busy(lock.name),
        };
    }
}

fn busy(name: LockName) -> Stage
    ensures { result ≡ busy name }
{
    Stage::Answered(Reply::Refused(Status::OperandBusy(name)))
}

/// The reply, if nothing is left to do.
fn last_reply(stage: Stage, held: &ArrayVec<HeldLock, LOCKS>) -> Option<Reply>
    ensures { result ≡ last_reply stage held.now.items }
{
    match stage {
        Stage::Answered(reply) if held.is_empty() => Some(reply),
        _ => None,
    }
}

/// One try, and whether it was granted.
fn try_lock<B: Bench>(bench: &mut B, at: u32, mode: Mode) -> bool
    requires { at < word_count (B.machine bench.old) }
    ensures tried { TriedOnce (B.did bench.old) at mode bench.new result }
    ensures machine { B.machine bench.new ≡ B.machine bench.old }
{
    let tried = match mode {
        Mode::Shared => try_shared(bench, at),
        Mode::Exclusive => try_exclusive(bench, at),
    };
    match tried {
        Tried::Granted => true,
        Tried::Denied(_) => false,
    }
}
