//! What the lines so far say.

ghost use Rattle.std.specs.Prelude.{◌≡◌, map, replicate, [], ◌∷◌, slice_set, true, false, ◌&&◌, is_some, Some, Ok, IfOk, MatchOption};
ghost use Rattle.line_words.specs.Words.{words, is_printable, is_comment, is_skipped};
ghost use Rattle.script_text.specs.Counted.{IsAnsweredAt};
ghost use Rattle.script_text.specs.Blocks.{with_slot, is_full};
ghost use Rattle.script_text.specs.Line.{is_list};
ghost use Rattle.script_text.specs.Reading.{draft_seen, with_call, called_of, with_op, closed_of, entered_of, worded_of, line_of};

use crate::accesses::short_access;
use crate::code_blocks::{CodePlace, list_place};
use crate::faults::{Reason, Taken, bad};
use crate::fields::field_in;
use crate::lines::{Block, Entry, Stage, entry_at, is_marked};
use crate::operations::{is_report, reports_in, short_operation};
use crate::schedules::schedule_line;
use line_words::{Line, first_numbers, is_skipped, next_word, without_front_spaces};
use std::alloc::{AllocError, Global};
use std::mem;
use td_words::{Call, Code, GuestOp};

/// The state before the next line; which lists of operations there were, and which output slots were
/// named; and so far the schedule's items, the lists that have ended, the operations of the one that is
/// open, and each processor's calls.
#[derive(Drop)]
pub struct Draft {
    pub stage: Stage,
    pub listed: [bool; 8192],
    pub named: [bool; 4096],
    pub schedule: Vec<u8>,
    pub codes: Vec<Code>,
    pub ops: Vec<GuestOp>,
    pub calls: Vec<Vec<Call>>,
}

const MOST_CALLS: usize = 4096;

const MOST_OPS: usize = 256;

const MOST_REPORTS: usize = 4;

fn no_calls(alloc: Global, lps: u8) -> Result<Vec<Vec<Call>>, AllocError>
    ensures { IfOk result (λ v. map (λ list. list.items) v.items ≡ replicate lps []) }
{
    let mut calls = Vec::new(alloc);
    for _lp in 0..lps {
        calls.push(Vec::new(alloc))?;
    }
    Ok(calls)
}

fn mark(marks: &mut [bool], place: usize)
    ensures { marks.new ≡ slice_set marks.old place true }
{
    if place < marks.len() {
        marks[place] = true;
    }
}

fn add_call(calls: &mut Vec<Vec<Call>>, number: u64, lp: u8, call: Call) -> Taken
    ensures { IsAnsweredAt number (with_call (map (λ list. list.items) calls.old.items) lp call) (map (λ list. list.items) calls.new.items) result }
{
    let lp = usize::from(lp);
    if lp >= calls.len() {
        return Ok(());
    }
    let list = &mut calls[lp];
    if list.len() >= MOST_CALLS {
        return Err(bad(number, Reason::Full));
    }
    list.push(call)?;
    Ok(())
}

fn name_slot(named: &mut [bool], number: u64, slot: Option<u16>) -> Taken
    ensures { IsAnsweredAt number (with_slot named.old slot) named.new result }
{
    let Some(slot) = slot else {
        return Ok(());
    };
    let place = usize::from(slot);
    if is_marked(named, place) {
        return Err(bad(number, Reason::Slot));
    }
    mark(named, place);
    Ok(())
}

fn take_call(draft: &mut Draft, number: u64, lp: u8, call: Call) -> Taken
    ensures { IsAnsweredAt number (called_of (draft_seen draft.old) lp call) (draft_seen draft.new) result }
{
    match add_call(&mut draft.calls, number, lp, call) {
        Ok(()) => name_slot(&mut draft.named, number, call.output_slot()),
        fault => fault,
    }
}

fn add_op(ops: &mut Vec<GuestOp>, number: u64, op: GuestOp) -> Taken
    ensures { IsAnsweredAt number (with_op ops.old.items op) ops.new.items result }
{
    if is_full(ops.as_slice(), op) {
        return Err(bad(number, Reason::Full));
    }
    ops.push(op)?;
    Ok(())
}

// Whether a list has no room for an operation.
fn is_full(ops: &[GuestOp], op: GuestOp) -> bool
    ensures { result ≡ is_full ops.now op }
{
    ops.len() >= MOST_OPS || is_report(op) && reports_in(ops) >= MOST_REPORTS
}

// The block that is open ends. A list keeps its operations where they are.
fn close(draft: &mut Draft, alloc: Global, number: u64) -> Taken
    ensures { IsAnsweredAt number (Ok (closed_of (draft_seen draft.old) draft.old.stage.block)) (draft_seen draft.new) result }
{
    if let Some(Block::Code(CodePlace { tdr, index })) = draft.stage.block {
        let ops = mem::replace(&mut draft.ops, Vec::new(alloc));
        draft.codes.push(Code { tdr, index, ops })?;
    }
    draft.stage.block = None;
    Ok(())
}

#[tactic(auto, unfolding(crate::specs::Reading::entered_of))]
fn enter(draft: &mut Draft, alloc: Global, number: u64, entry: Entry, text: &[u8]) -> Taken
    ensures { IsAnsweredAt number (entered_of (draft_seen draft.old) entry (words text.now)) (draft_seen draft.new) result }
{
    match entry {
        Entry::Machine(machine) => {
            draft.calls = no_calls(alloc, machine.lps)?;
            draft.stage.machine = Some(machine);
            Ok(())
        }
        Entry::Schedule(lps) => schedule_line(&mut draft.schedule, number, lps, text),
        Entry::Open(lp) => {
            mark(&mut draft.stage.had, usize::from(lp));
            draft.stage.block = Some(Block::Lp(lp));
            Ok(())
        }
        Entry::List(place) => {
            mark(&mut draft.listed, list_place(place));
            draft.stage.block = Some(Block::Code(place));
            Ok(())
        }
        Entry::End => close(draft, alloc, number),
        Entry::Call(lp, call) => take_call(draft, number, lp, call),
        Entry::Read(lp, tdr) => match field_in(text) {
            Ok(field) => add_call(&mut draft.calls, number, lp, Call::MngRd { tdr, field }),
            Err(reason) => Err(bad(number, reason)),
        },
        Entry::Operation(op) => add_op(&mut draft.ops, number, op),
    }
}

// Whether a list of operations is open, behind a machine.
fn is_in_list(stage: &Stage) -> bool
    ensures { result ≡ (is_some stage.now.machine && is_list stage.now.block) }
{
    stage.machine.is_some() && matches!(stage.block, Some(Block::Code(_)))
}

// A line's first word, and what stands behind it. It isn't inlined, so that what it clears as it begins
// costs nothing where a line is an operation.
#[inline(never)]
#[tactic(auto, unfolding(crate::specs::Reading::worded_of), using(crate::proofs::FiveWords::five_suffice))]
fn take_words(draft: &mut Draft, alloc: Global, number: u64, word: &[u8], text: &[u8]) -> Taken
    requires { is_comment word.now ≡ false }
    ensures { IsAnsweredAt number (worded_of (draft_seen draft.old) (word.now ∷ words text.now)) (draft_seen draft.new) result }
{
    let mut numbers = [None; 5];
    let count = first_numbers(text, &mut numbers);
    match entry_at(&draft.stage, &draft.listed, word, &numbers[..count]) {
        Ok(entry) => enter(draft, alloc, number, entry, text),
        Err(reason) => Err(bad(number, reason)),
    }
}

// The processor whose block is open, behind a machine.
fn open_processor(stage: &Stage) -> Option<u8>
    ensures { MatchOption result Unit (λ lp. (is_some stage.now.machine ≡ true) × (stage.now.block ≡ Some (Block.Lp lp))) }
{
    match stage.block {
        Some(Block::Lp(lp)) if stage.machine.is_some() => Some(lp),
        _ => None,
    }
}

// A line that isn't skipped and is no short operation. It isn't inlined, so that operations and comments
// don't pay for what it keeps.
#[inline(never)]
#[tactic(auto, unfolding(crate::specs::Reading::worded_of))]
fn take_other(draft: &mut Draft, alloc: Global, number: u64, text: &[u8]) -> Taken
    requires { is_skipped (words text.now) ≡ false }
    ensures { IsAnsweredAt number (worded_of (draft_seen draft.old) (words text.now)) (draft_seen draft.new) result }
{
    if let Some(lp) = open_processor(&draft.stage) {
        if let Some(call) = short_access(text) {
            return take_call(draft, number, lp, call);
        }
    }
    match next_word(text) {
        None => Ok(()),
        Some((word, rest)) => take_words(draft, alloc, number, word, rest),
    }
}

// A line without the spaces before its first word.
#[tactic(auto, unfolding(crate::specs::Reading::worded_of))]
fn take_text(draft: &mut Draft, alloc: Global, number: u64, text: &[u8]) -> Taken
    ensures { IsAnsweredAt number (worded_of (draft_seen draft.old) (words text.now)) (draft_seen draft.new) result }
{
    if is_in_list(&draft.stage) {
        if let Some(op) = short_operation(text) {
            return add_op(&mut draft.ops, number, op);
        }
    }
    if is_skipped(text) {
        return Ok(());
    }
    take_other(draft, alloc, number, text)
}

/// Takes in one line. After a fault the draft isn't read again.
#[tactic(auto, unfolding(crate::specs::Reading::line_of))]
pub fn take_line(draft: &mut Draft, alloc: Global, number: u64, line: Line<'_>) -> Taken
    requires { line.is_printable ≡ is_printable line.bytes.now }
    ensures { IsAnsweredAt number (line_of (draft_seen draft.old) line.entry.bytes.now) (draft_seen draft.new) result }
{
    if !line.is_printable {
        return Err(bad(number, Reason::Byte));
    }
    take_text(draft, alloc, number, without_front_spaces(line.bytes))
}
