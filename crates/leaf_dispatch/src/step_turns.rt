//! The turns of a guest's steps.

ghost use Rattle.std.specs.Prelude.{◌≡◌, ℕ, ◌+◌, ◌<◌, ◌≤◌, true, length, vec_capacity, is_none, Option, Some, None};
ghost use Rattle.report_core.specs.declared.facts.Facts.{Facts};
ghost use Rattle.td_words.specs.Limits.{IsMachine};
ghost use Rattle.td_words.specs.declared.names.Access.{Access};
ghost use Rattle.td_words.specs.declared.replies.Reply.TheVariants.{Done, Exited};
ghost use Rattle.td_words.specs.declared.replies.Value.TheVariants.{Nothing, Number};
ghost use Rattle.leaf_engine.specs.declared.events.Event.TheVariants as event;
ghost use Rattle.leaf_engine.specs.Guests.{Operates};
ghost use Rattle.leaf_engine.specs.OwnLists.{running};
ghost use Rattle.leaf_engine.specs.Merges.{IsOperation, IsStepOf};
ghost use Rattle.leaf_parts.specs.Words.{page_told};
ghost use Rattle.access_core.specs.ReachTrees.{access_tree};
ghost use Rattle.access_core.specs.WalkTrees.{walk_tree};
ghost use Rattle.guest_turns.specs.Turns.{MadeAtOnce};
ghost use Rattle.leaf_table.specs.Steps.{step_seen};
ghost use Rattle.leaf_table.specs.Given.{given_in};
ghost use Rattle.leaf_table.specs.Table.{step_task};
ghost use Rattle.leaf_table.specs.Ends.{step_reports, step_ends, step_tries};
ghost use Rattle.leaf_dispatch.specs.BundleRooms.{count_of};
ghost use Rattle.leaf_dispatch.specs.Guests.{HasReported};
ghost use Rattle.leaf_dispatch.specs.NoteRooms.{run_room};
ghost use Rattle.leaf_dispatch.specs.StepRuns.{step_run_seen, IsStepRunOf, StepTurned};
ghost use Rattle.leaf_dispatch.specs.Exits.{StepCounted};

use crate::exits::leave_guest;
use crate::running::turn_step_run;
use crate::step_runs::StepRun;
use guest_turns::{
    LeafTurn, add_registers, begin_shared, load_entry, load_private, set_register, store_private,
    turn_shared,
};
use leaf_engine::{Event, Place};
use leaf_parts::page_told;
use leaf_table::{Given, Step};
use report_core::Facts;
use step_core::Bench;
use td_words::{Access, GuestOp, Outcome, Reply, Value};

/// The next turn of the run of a guest's step, which is kept until its reply comes, and begins where
/// none is kept. A step that has a short way takes it. Of an exit it answers the parity of the epoch whose
/// count was lowered.
pub fn turn_step<B: Bench>(
    kept: &mut StepRun,
    reports: &mut Vec<Facts>,
    place: Place,
    given: Given<'_>,
    tdr: u16,
    vp: u16,
    line: usize,
    step: Step,
    bench: &mut B,
    turn: &mut LeafTurn,
) -> u8
    requires machine { IsMachine place.machine }
    requires inside { (tdr < place.machine.pages) × (vp < place.machine.pages) }
    requires limits { IsStepOf (step_seen step) }
    requires at { place.machine ≡ B.machine bench.old }
    requires under_way { IsStepRunOf place.machine (step_ends tdr line (step_seen step)) kept.old }
    requires alone { step_tries (step_seen step) ≡ 0 → is_none (step_run_seen kept.old) ≡ true }
    requires fact_room { length reports.old.items + run_room (count_of (step_reports line (step_seen step))) (step_run_seen kept.old) ≤ vec_capacity reports.old }
    ensures turned { (f : Option Facts) × HasReported reports.old f reports.new × StepCounted (B.did bench.old) place.machine (step_ends tdr line (step_seen step)) (running (step_task (given_in given.entry) place tdr vp line (step_seen step)) (step_run_seen kept.old)) bench.new kept.new turn.new (step_seen step) result f }
    ensures machine { B.machine bench.new ≡ B.machine bench.old }
{
    match kept.shared {
        Some(_) => {
            turn_shared(&mut kept.shared, bench, turn);
            0
        }
        None => match kept.other {
            Some(_) => {
                turn_other_step(
                    kept, reports, place, given, tdr, vp, line, step, bench, turn,
                );
                0
            }
            None => turn_new_step(
                kept, reports, place, given, tdr, vp, line, step, bench, turn,
            ),
        },
    }
}

// That of a step of another leaf.
fn turn_other_step<B: Bench>(
    kept: &mut StepRun,
    reports: &mut Vec<Facts>,
    place: Place,
    given: Given<'_>,
    tdr: u16,
    vp: u16,
    line: usize,
    step: Step,
    bench: &mut B,
    turn: &mut LeafTurn,
)
    requires machine { IsMachine place.machine }
    requires inside { (tdr < place.machine.pages) × (vp < place.machine.pages) }
    requires limits { IsStepOf (step_seen step) }
    requires at { place.machine ≡ B.machine bench.old }
    requires alone { kept.old.shared ≡ None }
    requires fact_room { length reports.old.items + run_room (count_of (step_reports line (step_seen step))) (step_run_seen kept.old) ≤ vec_capacity reports.old }
    requires under_way { IsStepRunOf place.machine (step_ends tdr line (step_seen step)) kept.old }
    ensures turned { (f : Option Facts) × HasReported reports.old f reports.new × StepTurned (B.did bench.old) place.machine (step_ends tdr line (step_seen step)) (running (step_task (given_in given.entry) place tdr vp line (step_seen step)) (step_run_seen kept.old)) bench.new kept.new turn.new f }
    ensures machine { B.machine bench.new ≡ B.machine bench.old }
{
    turn_step_run(
        &mut kept.other,
        reports,
        place,
        given,
        tdr,
        vp,
        line,
        step,
        bench,
        turn,
    );
}

// The first turn of a step.
fn turn_new_step<B: Bench>(
    kept: &mut StepRun,
    reports: &mut Vec<Facts>,
    place: Place,
    given: Given<'_>,
    tdr: u16,
    vp: u16,
    line: usize,
    step: Step,
    bench: &mut B,
    turn: &mut LeafTurn,
) -> u8
    requires machine { IsMachine place.machine }
    requires inside { (tdr < place.machine.pages) × (vp < place.machine.pages) }
    requires limits { IsStepOf (step_seen step) }
    requires at { place.machine ≡ B.machine bench.old }
    requires none { (kept.old.shared ≡ None) × (kept.old.other ≡ None) }
    requires fact_room { length reports.old.items + count_of (step_reports line (step_seen step)) ≤ vec_capacity reports.old }
    ensures turned { (f : Option Facts) × HasReported reports.old f reports.new × StepCounted (B.did bench.old) place.machine (step_ends tdr line (step_seen step)) (running (step_task (given_in given.entry) place tdr vp line (step_seen step)) None) bench.new kept.new turn.new (step_seen step) result f }
    ensures machine { B.machine bench.new ≡ B.machine bench.old }
{
    match step {
        Step::Accesses {
            access,
            register,
            gpa,
            page,
        } => {
            let word = access_private(place, vp, access, register, gpa, page, bench);
            moved_at_once(word, turn);
            0
        }
        Step::Operates(operation) => {
            turn_new_operation(
                kept, reports, place, given, tdr, vp, line, operation, bench, turn,
            );
            0
        }
        Step::Loads {
            access: _,
            gpa,
            level,
            page,
        } => {
            let rights = load_walked(place, gpa, level, page, bench);
            moved_at_once(rights, turn);
            0
        }
        Step::Leaves(outcome) => {
            let parity = leave_guest(place, tdr, vp, bench);
            left_at_once(outcome, turn);
            parity
        }
    }
}

// The first turn of an operation.
fn turn_new_operation<B: Bench>(
    kept: &mut StepRun,
    reports: &mut Vec<Facts>,
    place: Place,
    given: Given<'_>,
    tdr: u16,
    vp: u16,
    line: usize,
    operation: GuestOp,
    bench: &mut B,
    turn: &mut LeafTurn,
)
    requires machine { IsMachine place.machine }
    requires inside { (tdr < place.machine.pages) × (vp < place.machine.pages) }
    requires limits { IsOperation operation }
    requires at { place.machine ≡ B.machine bench.old }
    requires none { (kept.old.shared ≡ None) × (kept.old.other ≡ None) }
    requires fact_room { length reports.old.items + count_of (step_reports line (Operates operation)) ≤ vec_capacity reports.old }
    ensures turned { (f : Option Facts) × HasReported reports.old f reports.new × StepTurned (B.did bench.old) place.machine (step_ends tdr line (Operates operation)) (running (step_task (given_in given.entry) place tdr vp line (Operates operation)) None) bench.new kept.new turn.new f }
    ensures machine { B.machine bench.new ≡ B.machine bench.old }
{
    let pages = place.machine.pages;
    match operation {
        GuestOp::Set { register, value } => {
            set_register(bench, vp, register, value);
            done_at_once(turn);
        }
        GuestOp::Secret { register, number } => {
            set_register(bench, vp, register, given.secrets[usize::from(number)]);
            done_at_once(turn);
        }
        GuestOp::Add { register, other } => {
            add_registers(bench, vp, register, other);
            done_at_once(turn);
        }
        GuestOp::Load { register, gpa } => {
            begin_shared(
                &mut kept.shared,
                bench,
                pages,
                Access::Read,
                vp,
                line,
                register,
                gpa,
                turn,
            )
        }
        GuestOp::Store { register, gpa } => {
            begin_shared(
                &mut kept.shared,
                bench,
                pages,
                Access::Write,
                vp,
                line,
                register,
                gpa,
                turn,
            )
        }
        _ => turn_other_step(
            kept,
            reports,
            place,
            given,
            tdr,
            vp,
            line,
            Step::Operates(operation),
            bench,
            turn,
        ),
    }
}

// An access to a private word of a page, which is the machine's; any other is read as page 0. It answers the
// word that it moved.
fn access_private<B: Bench>(
    place: Place,
    vp: u16,
    access: Access,
    register: u8,
    gpa: u64,
    page: u16,
    bench: &mut B,
) -> u64
    requires machine { IsMachine place.machine }
    requires at { place.machine ≡ B.machine bench.old }
    requires inside { vp < place.machine.pages }
    requires few { register < 8 }
    ensures made { (line : ℕ) → MadeAtOnce (B.did bench.old) place.machine (access_tree vp line access register gpa (page_told place.machine.pages page)) bench.new (Done (Number result)) }
    ensures machine { B.machine bench.new ≡ B.machine bench.old }
{
    let page = page_told(place.machine.pages, u64::from(page));
    match access {
        Access::Read => load_private(bench, vp, register, gpa, page),
        Access::Write => store_private(bench, vp, register, gpa, page),
    }
}

// The load of an entry in a walk, of a page which is the machine's; any other is read as page 0. It answers
// what the entry's word tells.
fn load_walked<B: Bench>(place: Place, gpa: u64, level: u8, page: u64, bench: &mut B) -> u64
    requires machine { IsMachine place.machine }
    requires at { place.machine ≡ B.machine bench.old }
    requires low { level ≤ 3 }
    ensures made { (tdr : ℕ) (access : Access) → MadeAtOnce (B.did bench.old) place.machine (walk_tree tdr access gpa level (page_told place.machine.pages page)) bench.new (Done (Number result)) }
    ensures machine { B.machine bench.new ≡ B.machine bench.old }
{
    let page = page_told(place.machine.pages, page);
    load_entry(bench, gpa, level, page)
}

// The turn of a step that is one event and has moved that word, or loaded what that number tells.
fn moved_at_once(word: u64, turn: &mut LeafTurn)
    ensures { turn.new ≡ record { event = event.Act; act = Some (Done (Number word)); reply = Some (Done (Number word)) } }
{
    turn.event = Event::Act;
    turn.act = Some(Reply::Done(Value::Number(word)));
    turn.reply = Some(Reply::Done(Value::Number(word)));
}

// That of one that answers nothing.
fn done_at_once(turn: &mut LeafTurn)
    ensures { turn.new ≡ record { event = event.Act; act = Some (Done Nothing); reply = Some (Done Nothing) } }
{
    turn.event = Event::Act;
    turn.act = Some(Reply::Done(Value::Nothing));
    turn.reply = Some(Reply::Done(Value::Nothing));
}

// That of an exit with an outcome.
fn left_at_once(outcome: Outcome, turn: &mut LeafTurn)
    ensures { turn.new ≡ record { event = event.Act; act = Some (Exited outcome); reply = Some (Exited outcome) } }
{
    turn.event = Event::Act;
    turn.act = Some(Reply::Exited(outcome));
    turn.reply = Some(Reply::Exited(outcome));
}
