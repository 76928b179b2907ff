//! Room for what guests note and tell, and for the bundles that calls make.

ghost use Rattle.std.specs.Prelude.{◌≡◌, ℕ, ◌+◌, ◌≤◌, ◌<◌, ◌^◌, List, [], length, map, vec_capacity, IfSome, MatchOption};
ghost use Rattle.std.specs.List.{All};
ghost use Rattle.report_core.specs.declared.facts.Facts.{Facts};
ghost use Rattle.bundles.specs.Made.{made_in};
ghost use Rattle.leaf_engine.specs.Trees.{added};
ghost use Rattle.leaf_dispatch.specs.Guests.{note_seen, notes_in, words_in, facts_in, IsPlaced, HasReported};
ghost use Rattle.leaf_table.specs.Ends.{call_makes};
ghost use Rattle.leaf_dispatch.specs.NoteRooms.{longest_in, call_room, lines_room, reports_in, most_reports, call_reports, lines_reports};
ghost use Rattle.leaf_dispatch.specs.BundleRooms.{count_of, words_of, lines_make, payload_words, HasAdded};

use bundles::{Bundle, Bundles};
use report_core::Facts;
use report_text::GuestNote;
use td_words::{Call, Code, GuestOp};

/// How many operations the longest list has.
pub fn longest(codes: &[Code]) -> usize
    ensures { result ≡ longest_in codes.now }
{
    match codes {
        [] => 0,
        [code, further @ ..] => {
            let first = code.ops.len();
            let others = longest(further);
            if first < others { others } else { first }
        }
    }
}

/// How many notes the guests of these calls can make at most, where no list is longer than that; none
/// where that is 2^64 or more.
pub fn lines_room(longest: usize, calls: &[Call]) -> Option<usize>
    ensures { MatchOption result (2 ^ 64 ≤ lines_room longest calls.now) (λ n. n ≡ lines_room longest calls.now) }
{
    let mut room: usize = 0;
    for i in 0..calls.len() {
        let Some(more) = room.checked_add(call_room(longest, &calls[i])) else {
            return None;
        };
        room = more;
    }
    Some(room)
}

fn call_room(longest: usize, call: &Call) -> usize
    ensures { result ≡ call_room longest call.now }
{
    match *call {
        Call::VpEnter { max, .. } => {
            if max < longest as u64 {
                max as usize
            } else {
                longest
            }
        }
        _ => 0,
    }
}

/// How many reports the list has that has most.
pub fn most_reports(codes: &[Code]) -> usize
    ensures { result ≡ most_reports codes.now }
{
    match codes {
        [] => 0,
        [code, further @ ..] => {
            let first = reports_in(&code.ops);
            let others = most_reports(further);
            if first < others { others } else { first }
        }
    }
}

fn reports_in(ops: &[GuestOp]) -> usize
    ensures count { result ≡ reports_in ops.now }
    ensures few { result ≤ length ops.now }
{
    match ops {
        [] => 0,
        [op, further @ ..] => {
            let others = reports_in(further);
            match op {
                GuestOp::Report => others + 1,
                _ => others,
            }
        }
    }
}

/// How many reports the guests of these calls can make at most, where no list has more than that; none
/// where that is 2^64 or more.
pub fn lines_reports(most: usize, calls: &[Call]) -> Option<usize>
    ensures { MatchOption result (2 ^ 64 ≤ lines_reports most calls.now) (λ n. n ≡ lines_reports most calls.now) }
{
    let mut room: usize = 0;
    for i in 0..calls.len() {
        let Some(more) = room.checked_add(call_reports(most, &calls[i])) else {
            return None;
        };
        room = more;
    }
    Some(room)
}

fn call_reports(most: usize, call: &Call) -> usize
    ensures { result ≡ call_reports most call.now }
{
    match *call {
        Call::VpEnter { .. } => most,
        _ => 0,
    }
}

/// Adds what a guest noted, for which there is room.
pub fn add_note(notes: &mut Vec<GuestNote>, note: Option<GuestNote>)
    requires room { length notes.old.items + length (notes_in [] note) ≤ vec_capacity notes.old }
    ensures added { (reports : List Facts) → map (note_seen reports) notes.new.items ≡ added (map (note_seen reports) notes.old.items) (notes_in reports note) }
    ensures count { length notes.new.items ≡ length notes.old.items + length (notes_in [] note) }
    ensures placed { (n : ℕ) → All (IsPlaced n) notes.old.items → IfSome note (IsPlaced n) → All (IsPlaced n) notes.new.items }
    ensures room { vec_capacity notes.old ≤ vec_capacity notes.new }
{
    if let Some(note) = note {
        let Ok(()) = notes.push(note) else {
            unreachable!()
        };
    }
}

/// Adds the facts that a guest reported, for which there is room.
#[inline(never)]
pub fn add_facts(reports: &mut Vec<Facts>, facts: Option<Facts>)
    requires room { length reports.old.items + length (facts_in facts) ≤ vec_capacity reports.old }
    ensures { HasReported reports.old facts reports.new }
{
    if let Some(facts) = facts {
        let Ok(()) = reports.push(facts) else {
            unreachable!()
        };
    }
}

/// Adds a word that a guest told, for which there is room.
pub fn add_word(told: &mut Vec<u64>, word: Option<u64>)
    requires room { length told.old.items + length (words_in word) ≤ vec_capacity told.old }
    ensures added { told.new.items ≡ added told.old.items (words_in word) }
    ensures count { length told.new.items ≡ length told.old.items + length (words_in word) }
    ensures room { vec_capacity told.old ≤ vec_capacity told.new }
{
    if let Some(word) = word {
        let Ok(()) = told.push(word) else {
            unreachable!()
        };
    }
}

/// How many bundles these calls make at most.
pub fn lines_bundles(calls: &[Call]) -> usize
    requires { length calls.now < 2 ^ 32 }
    ensures { result ≡ lines_make count_of calls.now }
{
    let mut room = 0;
    for i in 0..calls.len() {
        room += call_bundles(&calls[i]);
    }
    room
}

/// How many payload words those have at most.
pub fn lines_payloads(calls: &[Call]) -> usize
    requires { length calls.now < 2 ^ 32 }
    ensures { result ≡ lines_make words_of calls.now }
{
    let mut room = 0;
    for i in 0..calls.len() {
        room += call_payload(&calls[i]);
    }
    room
}

fn call_bundles(call: &Call) -> usize
    ensures count { result ≡ count_of (call_makes call.now) }
    ensures few { result ≤ 1 }
{
    match call_makes(call) {
        Some(_) => 1,
        None => 0,
    }
}

fn call_payload(call: &Call) -> usize
    ensures count { result ≡ words_of (call_makes call.now) }
    ensures few { result ≤ 512 }
{
    match call_makes(call) {
        Some(most) => most,
        None => 0,
    }
}

// Of how many payload words at most the bundle is that a call makes, if it makes one.
fn call_makes(call: &Call) -> Option<usize>
    ensures made { result ≡ call_makes call.now }
    ensures few { IfSome result (λ n. n ≤ 512) }
{
    match *call {
        Call::ExportStateImmutable { .. } => Some(6),
        Call::ExportMem { .. } => Some(512),
        Call::ExportTrack { .. } => Some(0),
        Call::ExportStateTd { .. } => Some(24),
        Call::ExportStateVp { .. } => Some(8),
        Call::ImportAbort { .. } => Some(0),
        _ => None,
    }
}

/// Adds the bundle that a call made, for which there is room.
pub fn add_bundle(bundles: &mut Bundles, bundle: Option<Bundle<'_>>)
    requires room { length (made_in bundle) ≤ bundles.old.room }
    requires word_room { payload_words (made_in bundle) ≤ bundles.old.word_room }
    ensures { HasAdded bundles.old (made_in bundle.entry) bundles.new }
{
    if let Some(bundle) = bundle {
        bundles.push(bundle);
    }
}
