//! The turns of calls.

ghost use Rattle.std.specs.Prelude.{◌≡◌, ◌≤◌, true, is_none, is_some, List, None};
ghost use Rattle.td_words.specs.Limits.{IsMachine};
ghost use Rattle.flat_core.specs.World.{Made};
ghost use Rattle.leaf_engine.specs.OwnLists.{running};
ghost use Rattle.leaf_table.specs.Given.{given_in};
ghost use Rattle.leaf_table.specs.Table.{task_of};
ghost use Rattle.leaf_table.specs.Ends.{call_makes, call_ends};
ghost use Rattle.leaf_dispatch.specs.NoteRooms.{run_room};
ghost use Rattle.leaf_dispatch.specs.BundleRooms.{count_of, words_of, HasAdded};
ghost use Rattle.leaf_dispatch.specs.Running.{holds_room, TakesIts};
ghost use Rattle.leaf_dispatch.specs.CallRuns.{call_run_seen, IsCallRunOf, CallTurned};

use crate::call_runs::CallRun;
use crate::running::turn_call_run;
use bundles::Bundles;
use export_pages::PageWords;
use guest_turns::LeafTurn;
use host_turns::{HostAccess, begin_host, turn_host};
use leaf_engine::Place;
use leaf_table::Given;
use step_core::Bench;
use td_words::Call;

/// The next turn of a call's run, which is kept until its reply comes, and begins where none is kept; the
/// bundle that it makes is added, for which there is room. The room for a page's words is spare, or the run
/// has it, which gives it back with its reply. A host access takes its short way.
pub fn turn_call<'a, B: Bench>(
    kept: &mut CallRun<'a>,
    spare: &mut Option<PageWords>,
    bundles: &mut Bundles,
    place: Place,
    call: &Call,
    given: Given<'a>,
    bench: &mut B,
    turn: &mut LeafTurn,
)
    requires machine { IsMachine place.machine }
    requires at { place.machine ≡ B.machine bench.old }
    requires under_way { IsCallRunOf place.machine (call_ends place.machine call.now) kept.old }
    requires room { run_room (count_of (call_makes call.now)) (call_run_seen kept.old) ≤ bundles.old.room }
    requires word_room { run_room (words_of (call_makes call.now)) (call_run_seen kept.old) ≤ bundles.old.word_room }
    requires page_room { holds_room spare.old kept.old.other ≡ true }
    requires takes { TakesIts (given_in given) kept.old.other }
    ensures turned { (made : List Made) × HasAdded bundles.old made bundles.new × CallTurned (B.did bench.old) place.machine (call_ends place.machine call.now) (running (task_of (given_in given.entry) place call.now) (call_run_seen kept.old)) bench.new kept.new turn.new made }
    ensures page_room { holds_room spare.new kept.new.other ≡ true }
    ensures takes { TakesIts (given_in given.entry) kept.new.other }
    ensures stays { is_some kept.old.other ≡ true → is_none kept.new.host ≡ true }
    ensures machine { B.machine bench.new ≡ B.machine bench.old }
{
    match kept.host {
        Some(_) => turn_host(&mut kept.host, bench, turn),
        None => match kept.other {
            Some(_) => turn_other_call(kept, spare, bundles, place, call, given, bench, turn),
            None => turn_new_call(kept, spare, bundles, place, call, given, bench, turn),
        },
    }
}

// That of a call of another leaf.
fn turn_other_call<'a, B: Bench>(
    kept: &mut CallRun<'a>,
    spare: &mut Option<PageWords>,
    bundles: &mut Bundles,
    place: Place,
    call: &Call,
    given: Given<'a>,
    bench: &mut B,
    turn: &mut LeafTurn,
)
    requires machine { IsMachine place.machine }
    requires at { place.machine ≡ B.machine bench.old }
    requires alone { kept.old.host ≡ None }
    requires under_way { IsCallRunOf place.machine (call_ends place.machine call.now) kept.old }
    requires room { run_room (count_of (call_makes call.now)) (call_run_seen kept.old) ≤ bundles.old.room }
    requires word_room { run_room (words_of (call_makes call.now)) (call_run_seen kept.old) ≤ bundles.old.word_room }
    requires page_room { holds_room spare.old kept.old.other ≡ true }
    requires takes { TakesIts (given_in given) kept.old.other }
    ensures turned { (made : List Made) × HasAdded bundles.old made bundles.new × CallTurned (B.did bench.old) place.machine (call_ends place.machine call.now) (running (task_of (given_in given.entry) place call.now) (call_run_seen kept.old)) bench.new kept.new turn.new made }
    ensures page_room { holds_room spare.new kept.new.other ≡ true }
    ensures takes { TakesIts (given_in given.entry) kept.new.other }
    ensures alone { kept.new.host ≡ None }
    ensures machine { B.machine bench.new ≡ B.machine bench.old }
{
    turn_call_run(
        &mut kept.other,
        spare,
        bundles,
        place,
        call,
        given,
        bench,
        turn,
    );
}

// The first turn of a call.
fn turn_new_call<'a, B: Bench>(
    kept: &mut CallRun<'a>,
    spare: &mut Option<PageWords>,
    bundles: &mut Bundles,
    place: Place,
    call: &Call,
    given: Given<'a>,
    bench: &mut B,
    turn: &mut LeafTurn,
)
    requires machine { IsMachine place.machine }
    requires at { place.machine ≡ B.machine bench.old }
    requires none { (kept.old.host ≡ None) × (kept.old.other ≡ None) }
    requires room { run_room (count_of (call_makes call.now)) (call_run_seen kept.old) ≤ bundles.old.room }
    requires word_room { run_room (words_of (call_makes call.now)) (call_run_seen kept.old) ≤ bundles.old.word_room }
    requires page_room { holds_room spare.old kept.old.other ≡ true }
    requires takes { TakesIts (given_in given) kept.old.other }
    ensures turned { (made : List Made) × HasAdded bundles.old made bundles.new × CallTurned (B.did bench.old) place.machine (call_ends place.machine call.now) (running (task_of (given_in given.entry) place call.now) (call_run_seen kept.old)) bench.new kept.new turn.new made }
    ensures page_room { holds_room spare.new kept.new.other ≡ true }
    ensures takes { TakesIts (given_in given.entry) kept.new.other }
    ensures machine { B.machine bench.new ≡ B.machine bench.old }
{
    let pages = place.machine.pages;
    match *call {
        Call::HostRead { page, word } => {
            begin_host(
                &mut kept.host,
                bench,
                pages,
                HostAccess::Read,
                page,
                word,
                turn,
            )
        }
        Call::HostWrite { page, word, value } => {
            let access = HostAccess::Write { value };
            begin_host(&mut kept.host, bench, pages, access, page, word, turn)
        }
        _ => turn_other_call(kept, spare, bundles, place, call, given, bench, turn),
    }
}
