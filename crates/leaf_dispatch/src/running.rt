//! The run of a leaf.

ghost use Rattle.std.specs.Prelude.{◌≡◌, ℕ, ◌+◌, ◌<◌, ◌≤◌, true, length, vec_capacity, List, [], Option, None, option_map};
ghost use Rattle.td_words.specs.declared.machines.Machine.{Machine};
ghost use Rattle.td_words.specs.Limits.{IsMachine};
ghost use Rattle.flat_core.specs.World.{Made};
ghost use Rattle.bundles.specs.Made.{made_in};
ghost use Rattle.leaf_engine.specs.Turns.{Standing};
ghost use Rattle.leaf_engine.specs.OwnLists.{running};
ghost use Rattle.leaf_engine.specs.Merges.{IsStepOf};
ghost use Rattle.leaf_table.specs.Steps.{step_seen};
ghost use Rattle.leaf_table.specs.Given.{Given as Inputs, given_in};
ghost use Rattle.leaf_table.specs.Origins.{TakesFrom};
ghost use Rattle.leaf_table.specs.Table.{task_of, step_task};
ghost use Rattle.leaf_table.specs.Ends.{Ends, call_makes, call_ends, step_reports, step_ends};
ghost use Rattle.report_core.specs.declared.facts.Facts.{Facts};
ghost use Rattle.leaf_dispatch.specs.Guests.{facts_in, HasReported};
ghost use Rattle.guest_turns.specs.Turns.{turn_of, act_of};
ghost use Rattle.leaf_dispatch.specs.NoteRooms.{run_room};
ghost use Rattle.leaf_dispatch.specs.BundleRooms.{count_of, words_of, payload_words, HasAdded};
ghost use Rattle.leaf_table.specs.PageRooms.{is_spare, leaf_room};
ghost use Rattle.leaf_dispatch.specs.Ended.{made_by_run};
ghost use Rattle.leaf_dispatch.specs.Held.{held_by};
ghost use Rattle.leaf_dispatch.specs.Running.{standing_of, run_seen, answered_with, IsAnswered, act_in, made_in_run, facts_in_run, kept_until, holds_room, IsUnderWay, IsRunOf, IsFirst, BeginsWith, TakesIts, IsKept, CanTurn, HasTurned, RunTurned};

use crate::rooms::{add_bundle, add_facts};
use bundles::{Bundle, Bundles};
use export_pages::PageWords;
use guest_turns::LeafTurn;
use leaf_engine::{Event, HeldLock, Place, Run, RunTurn, Stage};
use leaf_table::{AnyLeaf, Given, Step, leaf_of, step_leaf};
use report_core::Facts;
use std::mem;
use step_core::Bench;
use td_words::{Call, Reply};

/// A run of any leaf, which may be given up.
pub struct Running<'a> {
    pub run: Run<AnyLeaf<'a>>,
}

impl<'a> Running<'a> {
    ghost use Rattle.std.specs.Prelude.{◌≡◌};
    ghost use Rattle.leaf_table.specs.Given.{given_in};
    ghost use Rattle.leaf_dispatch.specs.Pausing.{IsWithoutInput, IsWithInput};

    /// The same run, as far as it is, without the bundle that its leaf was given, so that nothing is borrowed.
    pub fn without_input<'b>(self) -> Running<'b>
        ensures { IsWithoutInput self.entry result }
    {
        let Running { run } = self;
        let (leaf, progress) = run.into_parts();
        Running {
            run: Run::resumed(leaf.without_input(), progress),
        }
    }

    /// The same run, as far as it is, with the bundle that its leaf's slot has here.
    pub fn with_input_of<'b>(self, given: Given<'b>) -> Running<'b>
        ensures { IsWithInput (given_in given.entry) self.entry result }
    {
        let Running { run } = self;
        let (leaf, progress) = run.into_parts();
        Running {
            run: Run::resumed(leaf.with_input_of(given), progress),
        }
    }

    /// Its leaf, as it now is.
    fn into_leaf(self) -> AnyLeaf<'a>
        ensures { result ≡ self.entry.run.leaf }
    {
        let Running { run } = self;
        run.into_leaf()
    }
}

impl<'a> Drop for Running<'a> {
    fn drop(self) {
        let Running { run } = self;
        let _leaf = run.into_leaf();
    }
}

/// The next turn of a call's run, which is kept until its reply comes, and begins where none is kept; the
/// bundle that it makes is added, for which there is room. The room for a page's words is spare, or the run
/// has it, which gives it back with its reply.
///
/// It is apart from its caller, and its rare steps are apart from it, since a function clears the
/// places of its large values where it begins.
#[inline(never)]
pub fn turn_call_run<'a, B: Bench>(
    kept: &mut Option<Running<'a>>,
    spare: &mut Option<PageWords>,
    bundles: &mut Bundles,
    place: Place,
    call: &Call,
    given: Given<'a>,
    bench: &mut B,
    turn: &mut LeafTurn,
)
    requires machine { IsMachine place.machine }
    requires at { place.machine ≡ B.machine bench.old }
    requires under_way { IsRunOf place.machine (call_ends place.machine call.now) kept.old }
    requires room { run_room (count_of (call_makes call.now)) (run_seen kept.old) ≤ bundles.old.room }
    requires word_room { run_room (words_of (call_makes call.now)) (run_seen kept.old) ≤ bundles.old.word_room }
    requires page_room { holds_room spare.old kept.old ≡ true }
    requires takes { TakesIts (given_in given) kept.old }
    ensures turned { (made : List Made) × HasAdded bundles.old made bundles.new × RunTurned (B.did bench.old) place.machine (call_ends place.machine call.now) (running (task_of (given_in given.entry) place call.now) (run_seen kept.old)) bench.new kept.new turn.new made None }
    ensures page_room { holds_room spare.new kept.new ≡ true }
    ensures takes { TakesIts (given_in given.entry) kept.new }
    ensures machine { B.machine bench.new ≡ B.machine bench.old }
{
    begin_where_none(kept, spare, place, call, given);
    let made = turn_kept(kept, bench);
    add_made(kept, made.event, bundles);
    leave_call(kept, spare, &made, turn);
}

/// The next turn of the run of a guest's step, which is kept until its reply comes, and begins where
/// none is kept.
#[inline(never)]
pub fn turn_step_run<B: Bench>(
    kept: &mut Option<Running<'static>>,
    reports: &mut Vec<Facts>,
    place: Place,
    given: Given<'_>,
    tdr: u16,
    vp: u16,
    line: usize,
    step: Step,
    bench: &mut B,
    turn: &mut LeafTurn,
)
    requires machine { IsMachine place.machine }
    requires inside { (tdr < place.machine.pages) × (vp < place.machine.pages) }
    requires limits { IsStepOf (step_seen step) }
    requires at { place.machine ≡ B.machine bench.old }
    requires under_way { IsRunOf place.machine (step_ends tdr line (step_seen step)) kept.old }
    requires fact_room { length reports.old.items + run_room (count_of (step_reports line (step_seen step))) (run_seen kept.old) ≤ vec_capacity reports.old }
    ensures turned { (f : Option Facts) × HasReported reports.old f reports.new × RunTurned (B.did bench.old) place.machine (step_ends tdr line (step_seen step)) (running (step_task (given_in given.entry) place tdr vp line (step_seen step)) (run_seen kept.old)) bench.new kept.new turn.new [] f }
    ensures machine { B.machine bench.new ≡ B.machine bench.old }
{
    begin_step_where_none(kept, place, given, tdr, vp, line, step);
    let step_made = turn_kept(kept, bench);
    add_reported(kept, step_made.event, reports);
    leave_step(kept, &step_made, turn);
}

// What a turn of a call's run comes to. It is kept no more once its reply has come, and gives back the
// room that it has.
fn leave_call(
    kept: &mut Option<Running<'_>>,
    spare: &mut Option<PageWords>,
    made: &RunTurn,
    turn: &mut LeafTurn,
)
    requires page_room { holds_room spare.old kept.old ≡ true }
    ensures turn { turn_of turn.new ≡ made.now }
    ensures act { turn.new.act ≡ act_in kept.old made.now.event }
    ensures kept { kept.new ≡ kept_until made.now.reply kept.old }
    ensures page_room { holds_room spare.new kept.new ≡ true }
{
    note_act(kept, made, turn);
    if let Some(_) = made.reply {
        give_up(kept, spare);
    }
}

// That of a step's run, which has no room.
fn leave_step(kept: &mut Option<Running<'_>>, made: &RunTurn, turn: &mut LeafTurn)
    ensures turn { turn_of turn.new ≡ made.now }
    ensures act { turn.new.act ≡ act_in kept.old made.now.event }
    ensures kept { kept.new ≡ kept_until made.now.reply kept.old }
{
    note_act(kept, made, turn);
    match made.reply {
        Some(_) => forget(kept),
        None => (),
    }
}

// A turn, with the reply that its act has come to.
fn note_act(kept: &Option<Running<'_>>, made: &RunTurn, turn: &mut LeafTurn)
    ensures turn { turn_of turn.new ≡ made.now }
    ensures act { turn.new.act ≡ act_in kept.now made.now.event }
{
    turn.event = made.event;
    match made.event {
        Event::Act => turn.act = act_in(kept, made.event),
        _ => turn.act = None,
    }
    match made.reply {
        Some(reply) => turn.reply = Some(reply),
        None => turn.reply = None,
    }
}

/// What a kept run that was answered answers from now on, as VP.ENTER does once its guest is left.
pub fn answer_kept(kept: &mut Option<Running<'_>>, reply: Reply)
    ensures seen { run_seen kept.new ≡ option_map (answered_with reply) (run_seen kept.old) }
    ensures under_way { (m : Machine) (e : Ends) → IsRunOf m e kept.old → IsAnswered kept.old → e.fits reply ≡ true → IsRunOf m e kept.new }
    ensures answered { IsAnswered kept.new }
    ensures page_room { (spare : Option (List ℕ)) → holds_room spare kept.old ≡ true → holds_room spare kept.new ≡ true }
    ensures takes { (g : Inputs) → TakesIts g kept.old → TakesIts g kept.new }
{
    match kept {
        Some(Running { run }) => run.answer(reply),
        None => (),
    }
}

/// How many bundles a kept run has made: at most one, with its act.
pub fn made_by_run(kept: &Option<Running<'_>>) -> usize
    ensures { result ≡ made_by_run (run_seen kept.now) }
{
    match kept {
        Some(Running { run }) => match run.stage() {
            Stage::Answered(Reply::Done(_)) => count_of(run.leaf().bundle()),
            _ => 0,
        },
        None => 0,
    }
}

fn count_of(bundle: Option<Bundle<'_>>) -> usize
    ensures { result ≡ length (made_in bundle.entry) }
{
    match bundle {
        Some(_) => 1,
        None => 0,
    }
}

// Adds the bundle that a run has made with its last event, for which there is room.
fn add_made(kept: &Option<Running<'_>>, event: Event, bundles: &mut Bundles)
    requires room { length (made_in_run kept.now event) ≤ bundles.old.room }
    requires word_room { payload_words (made_in_run kept.now event) ≤ bundles.old.word_room }
    ensures { HasAdded bundles.old (made_in_run kept.now event) bundles.new }
{
    match event {
        Event::Act => match kept {
            Some(Running { run }) => add_bundle(bundles, run.leaf().bundle()),
            None => (),
        },
        _ => (),
    }
}

// Adds the facts that a run has reported with its last event, for which there is room.
fn add_reported(kept: &Option<Running<'_>>, event: Event, reports: &mut Vec<Facts>)
    requires room { length reports.old.items + length (facts_in (facts_in_run kept.now event)) ≤ vec_capacity reports.old }
    ensures { HasReported reports.old (facts_in_run kept.now event) reports.new }
{
    match event {
        Event::Act => match kept {
            Some(Running { run }) => add_facts(reports, run.leaf().facts()),
            None => (),
        },
        _ => (),
    }
}

// The reply that a run has come to with its act.
fn act_in(kept: &Option<Running<'_>>, event: Event) -> Option<Reply>
    ensures { result ≡ act_in kept.now event }
{
    match kept {
        Some(Running { run }) => act_of(event, run.stage()),
        None => None,
    }
}

fn act_of(event: Event, stage: Stage) -> Option<Reply>
    ensures { result ≡ act_of event stage }
{
    match (event, stage) {
        (Event::Act, Stage::Answered(reply)) => Some(reply),
        _ => None,
    }
}

// Where no run is kept, that of a call begins.
fn begin_where_none<'a>(
    kept: &mut Option<Running<'a>>,
    spare: &mut Option<PageWords>,
    place: Place,
    call: &Call,
    given: Given<'a>,
)
    requires machine { IsMachine place.machine }
    requires under_way { IsRunOf place.machine (call_ends place.machine call.now) kept.old }
    requires page_room { holds_room spare.old kept.old ≡ true }
    requires takes { TakesIts (given_in given) kept.old }
    ensures kept { IsKept place.machine (call_ends place.machine call.now) (running (task_of (given_in given.entry) place call.now) (run_seen kept.old)) kept.new }
    ensures page_room { holds_room spare.new kept.new ≡ true }
    ensures takes { BeginsWith (given_in given.entry) kept.new }
{
    match kept {
        Some(_) => (),
        None => begin_kept(kept, spare, place, call, given),
    }
}

#[inline(never)]
fn begin_kept<'a>(
    kept: &mut Option<Running<'a>>,
    spare: &mut Option<PageWords>,
    place: Place,
    call: &Call,
    given: Given<'a>,
)
    requires machine { IsMachine place.machine }
    requires page_room { is_spare spare.old ≡ true }
    ensures kept { IsKept place.machine (call_ends place.machine call.now) (running (task_of (given_in given.entry) place call.now) None) kept.new }
    ensures page_room { holds_room spare.new kept.new ≡ true }
    ensures takes { BeginsWith (given_in given.entry) kept.new }
{
    *kept = Some(begin(place, call, given, spare));
}

// Keeps no run any more. The room that it has is spare then.
#[inline(never)]
fn give_up(kept: &mut Option<Running<'_>>, spare: &mut Option<PageWords>)
    requires { holds_room spare.old kept.old ≡ true }
    ensures kept { kept.new ≡ None }
    ensures page_room { is_spare spare.new ≡ true }
{
    match spare {
        Some(_) => forget(kept),
        None => *spare = Some(words_of(kept)),
    }
}

// The room of a run, which is kept no more.
#[inline(never)]
fn words_of(kept: &mut Option<Running<'_>>) -> PageWords
    requires { holds_room None kept.old ≡ true }
    ensures { kept.new ≡ None }
{
    let Some(running) = mem::replace(kept, None) else {
        unreachable!()
    };
    let AnyLeaf::PageExport(leaf) = running.into_leaf() else {
        unreachable!()
    };
    leaf.into_words()
}

/// The locks that a kept run holds, the oldest first.
pub fn held_of<'b>(kept: &'b Option<Running<'_>>) -> &'b [HeldLock]
    ensures { result.now ≡ held_by (run_seen kept.now) }
{
    match kept {
        Some(Running { run }) => run.held(),
        None => &[],
    }
}

/// Keeps no run any more.
#[inline(never)]
pub fn forget(kept: &mut Option<Running<'_>>)
    ensures { kept.new ≡ None }
{
    *kept = None;
}

// The next turn of a run that is kept.
fn turn_kept<B: Bench>(kept: &mut Option<Running<'_>>, bench: &mut B) -> RunTurn
    requires { CanTurn (B.machine bench.old) kept.old }
    ensures turned { HasTurned (B.did bench.old) (B.machine bench.old) kept.old bench.new kept.new result }
    ensures machine { B.machine bench.new ≡ B.machine bench.old }
{
    match kept {
        Some(Running { run }) => run.turn(bench),
        None => unreachable!(),
    }
}

/// The run of a call at its first event.
fn begin<'a>(
    place: Place,
    call: &Call,
    given: Given<'a>,
    spare: &mut Option<PageWords>,
) -> Running<'a>
    requires machine { IsMachine place.machine }
    requires page_room { is_spare spare.old ≡ true }
    ensures stands { standing_of result ≡ running (task_of (given_in given.entry) place call.now) None }
    ensures under_way { IsUnderWay place.machine (call_ends place.machine call.now) result }
    ensures page_room { leaf_room spare.new result.run.leaf ≡ true }
    ensures takes { TakesFrom (given_in given.entry) result.run.leaf }
    ensures first { IsFirst result }
{
    Running {
        run: Run::new(leaf_of(place, call, given, spare)),
    }
}

// Where no run is kept, that of a step begins.
fn begin_step_where_none(
    kept: &mut Option<Running<'static>>,
    place: Place,
    given: Given<'_>,
    tdr: u16,
    vp: u16,
    line: usize,
    step: Step,
)
    requires machine { IsMachine place.machine }
    requires inside { (tdr < place.machine.pages) × (vp < place.machine.pages) }
    requires limits { IsStepOf (step_seen step) }
    requires under_way { IsRunOf place.machine (step_ends tdr line (step_seen step)) kept.old }
    ensures { IsKept place.machine (step_ends tdr line (step_seen step)) (running (step_task (given_in given.entry) place tdr vp line (step_seen step)) (run_seen kept.old)) kept.new }
{
    match kept {
        Some(_) => (),
        None => begin_kept_step(kept, place, given, tdr, vp, line, step),
    }
}

#[inline(never)]
fn begin_kept_step(
    kept: &mut Option<Running<'static>>,
    place: Place,
    given: Given<'_>,
    tdr: u16,
    vp: u16,
    line: usize,
    step: Step,
)
    requires machine { IsMachine place.machine }
    requires inside { (tdr < place.machine.pages) × (vp < place.machine.pages) }
    requires limits { IsStepOf (step_seen step) }
    ensures { IsKept place.machine (step_ends tdr line (step_seen step)) (running (step_task (given_in given.entry) place tdr vp line (step_seen step)) None) kept.new }
{
    *kept = Some(begin_step(place, given, tdr, vp, line, step));
}

/// The run of a step at its first event.
fn begin_step(
    place: Place,
    given: Given<'_>,
    tdr: u16,
    vp: u16,
    line: usize,
    step: Step,
) -> Running<'static>
    requires machine { IsMachine place.machine }
    requires inside { (tdr < place.machine.pages) × (vp < place.machine.pages) }
    requires limits { IsStepOf (step_seen step) }
    ensures stands { standing_of result ≡ running (step_task (given_in given.entry) place tdr vp line (step_seen step)) None }
    ensures under_way { IsUnderWay place.machine (step_ends tdr line (step_seen step)) result }
{
    Running {
        run: Run::new(step_leaf(place, given, tdr, vp, line, step)),
    }
}
