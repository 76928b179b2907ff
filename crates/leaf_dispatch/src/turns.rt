//! A turn of a call line, and a turn in a guest.

ghost use Rattle.std.specs.Prelude.{◌≡◌, ℕ, ◌+◌, ◌<◌, ◌≤◌, ◌^◌, ◌++◌, true, length, map, vec_capacity, List, [], Option, IfSome, None, is_none, is_some, if◌then◌else◌, option_map};
ghost use Rattle.std.specs.List.{All};
ghost use Rattle.td_words.specs.declared.machines.Machine.{Machine};
ghost use Rattle.td_words.specs.declared.calls.Call.{Call};
ghost use Rattle.td_words.specs.Limits.{IsMachine};
ghost use Rattle.flat_core.specs.World.{Made};
ghost use Rattle.leaf_engine.specs.Trees.{added};
ghost use Rattle.leaf_engine.specs.Turns.{Standing};
ghost use Rattle.leaf_engine.specs.OwnLists.{running};
ghost use Rattle.leaf_engine.specs.Merges.{IsOperation, IsStepOf};
ghost use Rattle.leaf_table.specs.Ends.{call_answer, call_makes, call_ends, call_fits, step_answer, step_reports, step_ends, step_fits, step_tries};
ghost use Rattle.report_core.specs.declared.facts.Facts.{Facts};
ghost use Rattle.leaf_dispatch.specs.Answers.{guest_by, cached_by, answer_with, notes_by, tells_by};
ghost use Rattle.leaf_table.specs.Steps.{step_seen};
ghost use Rattle.leaf_dispatch.specs.Guests.{guest_seen, next_in, note_seen, facts_at, facts_in, HasReported, IsPlaced, IsLow, CanCount, IsReplyOf, unless, IsNextGuest};
ghost use Rattle.leaf_dispatch.specs.Inside.{acting, line_then, HasEntered};
ghost use Rattle.leaf_dispatch.specs.NoteRooms.{run_room};
ghost use Rattle.leaf_dispatch.specs.BundleRooms.{count_of, words_of, HasAdded};
ghost use Rattle.leaf_dispatch.specs.FirstLists.{AreFirstLists};
ghost use Rattle.leaf_dispatch.specs.StepRuns.{step_run_seen, IsStepRunOf};
ghost use Rattle.leaf_dispatch.specs.Exits.{StepCounted};
ghost use Rattle.leaf_dispatch.specs.CallRuns.{call_run_seen, IsCallRunOf, CallTurned};
ghost use Rattle.leaf_dispatch.specs.Running.{run_seen, holds_room, IsRunOf, TakesIts, IsAnswered};
ghost use Rattle.leaf_table.specs.Given.{Given as Inputs, given_in};
ghost use Rattle.leaf_table.specs.Table.{code_in, task_of, step_task};

use crate::answers::{cache_walk, drop_stale, entered, noted, told};
use crate::call_runs::CallRun;
use crate::call_turns::turn_call;
use crate::first_lists::FirstLists;
use crate::guests::{GuestAt, next_step, step_on};
use crate::rooms::{add_note, add_word};
use crate::running::{Running, answer_kept};
use crate::step_runs::StepRun;
use crate::step_turns::turn_step;
use bundles::Bundles;
use export_pages::PageWords;
use guest_turns::LeafTurn;
use leaf_engine::Place;
use leaf_table::{Given, Step};
use report_core::Facts;
use report_text::GuestNote;
use step_core::Bench;
use td_words::{Call, Code, Machine, Reply};
use tlb_epochs::Tlb;

/// The step of a turn in a guest, the parity of the epoch whose count it lowered, and whether the guest was
/// left.
#[derive(Clone, Copy)]
pub struct GuestTurn {
    pub step: Step,
    pub parity: u8,
    pub left: bool,
}

/// The next turn of a call's run, which is kept until its reply comes, and begins where none is kept; the
/// bundle that it makes is added, for which there is room. The room for a page's words is spare, or the run
/// has it, which gives it back with its reply. The guest that its act enters is the guest from then on.
#[inline(never)]
pub fn turn_line<'a, B: Bench>(
    kept: &mut CallRun<'a>,
    spare: &mut Option<PageWords>,
    bundles: &mut Bundles,
    cached: &mut Tlb,
    guest: &mut Option<GuestAt<'a>>,
    place: Place,
    given: Given<'a>,
    codes: &'a [Code],
    first_lists: &FirstLists,
    call: &Call,
    bench: &mut B,
    turn: &mut LeafTurn,
)
    requires machine { IsMachine place.machine }
    requires first_lists { AreFirstLists codes.now first_lists.now }
    requires at { place.machine ≡ B.machine bench.old }
    requires under_way { IsCallRunOf place.machine (call_ends place.machine call.now) kept.old }
    requires room { run_room (count_of (call_makes call.now)) (call_run_seen kept.old) ≤ bundles.old.room }
    requires word_room { run_room (words_of (call_makes call.now)) (call_run_seen kept.old) ≤ bundles.old.word_room }
    requires page_room { holds_room spare.old kept.old.other ≡ true }
    requires takes { TakesIts (given_in given) kept.old.other }
    ensures turned { (made : List Made) × HasAdded bundles.old made bundles.new × CallTurned (B.did bench.old) place.machine (call_ends place.machine call.now) (running (task_of (given_in given.entry) place call.now) (call_run_seen kept.old)) bench.new kept.new turn.new made }
    ensures cached { cached.new ≡ cached_by (call_answer call.now) turn.new.act cached.old }
    ensures entered { HasEntered place.machine codes.now (guest_by (call_answer call.now) turn.new.act None) guest.old guest.new }
    ensures page_room { holds_room spare.new kept.new.other ≡ true }
    ensures takes { TakesIts (given_in given.entry) kept.new.other }
    ensures stays { is_some kept.old.other ≡ true → is_none kept.new.host ≡ true }
    ensures machine { B.machine bench.new ≡ B.machine bench.old }
{
    turn_call(kept, spare, bundles, place, call, given, bench, turn);
    drop_by(place.machine, cached, call, &turn.act);
    enter_by(place.machine, codes, first_lists, guest, call, &turn.act);
}

fn drop_by(machine: Machine, cached: &mut Tlb, call: &Call, act: &Option<Reply>)
    requires { IfSome act.now (λ r. call_fits machine call.now r ≡ true) }
    ensures { cached.new ≡ cached_by (call_answer call.now) act.now cached.old }
{
    if let Some(reply) = act {
        drop_stale(machine, cached, call, *reply);
    }
}

fn enter_by<'a>(
    machine: Machine,
    codes: &'a [Code],
    first_lists: &FirstLists,
    guest: &mut Option<GuestAt<'a>>,
    call: &Call,
    act: &Option<Reply>,
)
    requires fits { IfSome act.now (λ r. call_fits machine call.now r ≡ true) }
    requires first_lists { AreFirstLists codes.now first_lists.now }
    ensures { HasEntered machine codes.now (guest_by (call_answer call.now) act.now None) guest.old guest.new }
{
    if let Some(reply) = act {
        if let Some(entered) = entered(machine, codes, first_lists, call, *reply) {
            *guest = Some(entered);
        }
    }
}

/// The next turn in a guest, at a call line: of the run of its step, which is kept until its reply
/// comes, and begins where none is kept.
pub fn turn_guest<B: Bench>(
    kept: &mut StepRun,
    reports: &mut Vec<Facts>,
    cached: &mut Tlb,
    guest: &mut GuestAt<'_>,
    place: Place,
    given: Given<'_>,
    line: u32,
    bench: &mut B,
    turn: &mut LeafTurn,
) -> GuestTurn
    requires machine { IsMachine place.machine }
    requires at { place.machine ≡ B.machine bench.old }
    requires inside { (guest.old.tdr < place.machine.pages) × (guest.old.vp < place.machine.pages) }
    requires limits { All IsOperation guest.old.list.now }
    requires low { IsLow guest.old.walk }
    requires under_way { IsStepRunOf place.machine (step_ends guest.old.tdr line (next_in cached.old guest.old None)) kept.old }
    requires alone { step_tries (next_in cached.old guest.old None) ≡ 0 → is_none (step_run_seen kept.old) ≡ true }
    requires fact_room { length reports.old.items + run_room (count_of (step_reports line (next_in cached.old guest.old None))) (step_run_seen kept.old) ≤ vec_capacity reports.old }
    ensures step { (run : Option Standing) → step_seen result.step ≡ next_in cached.old guest.old run }
    ensures counts { CanCount guest.old (step_seen result.step) }
    ensures within { IsStepOf (step_seen result.step) }
    ensures turned { (f : Option Facts) × HasReported reports.old f reports.new × StepCounted (B.did bench.old) place.machine (step_ends guest.old.tdr line (step_seen result.step)) (running (step_task (given_in given.entry) place guest.old.tdr guest.old.vp line (step_seen result.step)) (step_run_seen kept.old)) bench.new kept.new turn.new (step_seen result.step) result.parity f }
    ensures fits { IfSome turn.new.reply (λ r. IsReplyOf (step_seen result.step) r) }
    ensures cached { cached.new ≡ cached_by (step_answer guest.old.tdr line (step_seen result.step)) turn.new.act cached.old }
    ensures next { IsNextGuest guest.old (step_seen result.step) turn.new.reply (unless result.left guest.new) }
    ensures kept { IsLow guest.new.walk × (guest.new.list.now ≡ guest.old.list.now) }
    ensures machine { B.machine bench.new ≡ B.machine bench.old }
{
    let step = next_step(guest, cached);
    let parity = turn_step(
        kept,
        reports,
        place,
        given,
        guest.tdr,
        guest.vp,
        line as usize,
        step,
        bench,
        turn,
    );
    cache_by(cached, guest.tdr, step, &turn.act);
    let left = guest_then(guest, step, &turn.reply);
    GuestTurn { step, parity, left }
}

fn cache_by(cached: &mut Tlb, tdr: u16, step: Step, act: &Option<Reply>)
    requires { IfSome act.now (λ r. step_fits (step_seen step) r ≡ true) }
    ensures { (line : ℕ) → cached.new ≡ cached_by (step_answer tdr line (step_seen step)) act.now cached.old }
{
    if let Some(reply) = act {
        cache_walk(cached, tdr, step, *reply);
    }
}

/// The place of the facts that were added behind so many, if any were.
pub fn place_behind(count: usize, reports: &[Facts]) -> Option<u32>
    requires few { length reports.now < 2 ^ 32 }
    ensures facts { (before : List Facts) (f : Option Facts) → length before ≡ count → reports.now ≡ before ++ facts_in f → option_map (facts_at reports.now) result ≡ f }
    ensures placed { IfSome result (λ at. at < length reports.now) }
{
    if count < reports.len() {
        Some(count as u32)
    } else {
        None
    }
}

/// Adds what a guest noted with the act of its step, at a call line, for which there is room; `place` is
/// that of the facts that it reported.
pub fn note_by(
    notes: &mut Vec<GuestNote>,
    line: u32,
    step: Step,
    act: &Option<Reply>,
    place: Option<u32>,
)
    requires room { (tdr : ℕ) (f : Option Facts) → length notes.old.items + length (notes_by (answer_with (step_ends tdr line (step_seen step)) f) act.now) ≤ vec_capacity notes.old }
    ensures noted { (tdr : ℕ) (reports : List Facts) → map (note_seen reports) notes.new.items ≡ added (map (note_seen reports) notes.old.items) (notes_by (answer_with (step_ends tdr line (step_seen step)) (option_map (facts_at reports) place)) act.now) }
    ensures count { (tdr : ℕ) (reports : List Facts) → length notes.new.items ≡ length notes.old.items + length (notes_by (answer_with (step_ends tdr line (step_seen step)) (option_map (facts_at reports) place)) act.now) }
    ensures placed { (n : ℕ) → All (IsPlaced n) notes.old.items → IfSome place (λ at. at < n) → All (IsPlaced n) notes.new.items }
    ensures room { vec_capacity notes.old ≤ vec_capacity notes.new }
{
    if let Some(reply) = act {
        let note = noted(line, step, *reply, place);
        add_note(notes, note);
    }
}

/// Adds the word that a guest told with the act of its step, for which there is room.
pub fn tell_by(words: &mut Vec<u64>, step: Step, act: &Option<Reply>)
    requires room { (tdr line : ℕ) → length words.old.items + length (tells_by (step_answer tdr line (step_seen step)) act.now) ≤ vec_capacity words.old }
    ensures told { (tdr line : ℕ) → words.new.items ≡ added words.old.items (tells_by (step_answer tdr line (step_seen step)) act.now) }
    ensures count { (tdr line : ℕ) → length words.new.items ≡ length words.old.items + length (tells_by (step_answer tdr line (step_seen step)) act.now) }
    ensures room { vec_capacity words.old ≤ vec_capacity words.new }
{
    if let Some(reply) = act {
        let word = told(step, *reply);
        add_word(words, word);
    }
}

fn guest_then(guest: &mut GuestAt<'_>, step: Step, reply: &Option<Reply>) -> bool
    requires counted { CanCount guest.old (step_seen step) }
    requires fits { IfSome reply.now (λ r. IsReplyOf (step_seen step) r) }
    requires low { IsLow guest.old.walk }
    requires level { IsStepOf (step_seen step) }
    ensures next { IsNextGuest guest.old (step_seen step) reply.now (unless result guest.new) }
    ensures kept { IsLow guest.new.walk × (guest.new.list.now ≡ guest.old.list.now) }
{
    match reply {
        Some(reply) => step_on(guest, step, *reply),
        None => false,
    }
}

/// Whether a guest makes the next event: none does outside guests, and none while its VP.ENTER is to give
/// E back.
pub fn is_acting(guest: &Option<GuestAt<'_>>, run: &Option<Running<'_>>) -> bool
    ensures { result ≡ is_some (acting guest.now run.now) }
{
    match guest {
        None => false,
        Some(_) => match run {
            None => false,
            Some(Running { run }) => !run.gives_epoch_back(),
        },
    }
}

/// Keeps no guest any more that was left.
pub fn leave_where(guest: &mut Option<GuestAt<'_>>, left: bool)
    ensures { guest.new ≡ (if left then None else guest.old) }
{
    if left {
        *guest = None;
    }
}

/// VP.ENTER answers what the step answered by which its guest was left.
pub fn answer_exit(kept: &mut Option<Running<'_>>, step: Step, reply: &Option<Reply>)
    ensures seen { run_seen kept.new ≡ line_then (step_seen step) reply.now (run_seen kept.old) }
    ensures under_way { (m : Machine) (c : Call) → IsRunOf m (call_ends m c) kept.old → IsAnswered kept.old → IfSome reply.now (λ r. IsReplyOf (step_seen step) r) → IsRunOf m (call_ends m c) kept.new }
    ensures answered { IsAnswered kept.old → IsAnswered kept.new }
    ensures page_room { (spare : Option (List ℕ)) → holds_room spare kept.old ≡ true → holds_room spare kept.new ≡ true }
    ensures takes { (g : Inputs) → TakesIts g kept.old → TakesIts g kept.new }
{
    if let Step::Leaves(_) = step {
        if let Some(reply) = reply {
            answer_kept(kept, *reply);
        }
    }
}
