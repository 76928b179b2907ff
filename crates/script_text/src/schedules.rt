//! The items of schedule lines.

ghost use Rattle.std.specs.Prelude.{◌≡◌, ◌<◌, ◌≤◌, [], Some, is_some, length, map, drop, IfOk, MatchOption};
ghost use Rattle.std.specs.List.{list_all};
ghost use Rattle.line_words.specs.Number.{number};
ghost use Rattle.line_words.specs.Words.{words};
ghost use Rattle.script_text.specs.Counted.{IsAnsweredAt};
ghost use Rattle.script_text.specs.Schedule.{item_from, item_of, in_range_of, turns_in, with_turns, written_of, IsCutTo, AreCutTo, first_reason, schedule_of};

use crate::faults::{Reason, ScriptFault, Taken, bad};
use line_words::{next_word, number, place_of};
use std::alloc::AllocError;

/// So many turns of a processor, one after the other.
#[derive(Clone, Copy, Debug, PartialEq, Eq)]
pub struct Item {
    pub lp: u64,
    pub times: u64,
}

/// The turns of a processor, as they are written into the schedule.
#[derive(Clone, Copy, Debug, PartialEq, Eq)]
pub struct Turns {
    pub lp: u8,
    pub times: u32,
}

const MOST_ITEMS: usize = 1 << 20;

fn item_from(lp: Option<u64>, times: Option<u64>) -> Option<Item>
    ensures { result ≡ item_from lp times }
{
    let lp = lp?;
    let times = times?;
    Some(Item { lp, times })
}

/// The item that a word is: `L`, or `L*K`.
#[tactic(auto, unfolding(crate::specs::Schedule::item_of), using(crate::proofs::Short::star_below))]
pub fn item_at(word: &[u8]) -> Option<Item>
    ensures { result ≡ item_of word.now }
{
    match place_of(word, b'*') {
        None => item_from(number(word), Some(1)),
        Some(star) => item_from(number(&word[..star]), number(&word[star + 1..])),
    }
}

/// The turns of an item whose processor the machine has, and which has 1 to 2^20 turns; else None.
pub fn turns_of(lps: u8, item: Option<Item>) -> Option<Turns>
    ensures { result ≡ in_range_of lps item }
{
    let item = item?;
    if item.lp < u64::from(lps) && 1 <= item.times && item.times <= 1 << 20 {
        let (lp, times) = (item.lp as u8, item.times as u32);
        Some(Turns { lp, times })
    } else {
        None
    }
}

fn are_items(text: &[u8]) -> bool
    ensures { result ≡ list_all (λ w. is_some (item_of w)) (words text.now) }
{
    let mut rest = text;
    while let Some((word, more)) = next_word(rest) {
        if item_at(word).is_none() {
            return false;
        }
        rest = more;
    }
    true
}

fn are_in_range(lps: u8, text: &[u8]) -> bool
    ensures { result ≡ list_all (λ w. is_some (turns_in lps w)) (words text.now) }
{
    let mut rest = text;
    while let Some((word, more)) = next_word(rest) {
        if turns_of(lps, item_at(word)).is_none() {
            return false;
        }
        rest = more;
    }
    true
}

fn write_turns(schedule: &mut Vec<u8>, line: u64, turns: Turns) -> Taken
    ensures { IsAnsweredAt line (with_turns schedule.old.items turns) schedule.new.items result }
{
    if schedule.len() + turns.times as usize > MOST_ITEMS {
        return Err(bad(line, Reason::Full));
    }
    for _turn in 0..turns.times {
        schedule.push(turns.lp)?;
    }
    Ok(())
}

// The processor that a text begins with, where it is one digit and a space follows, and what stands
// behind this.
#[tactic(auto, using(crate::proofs::Short::short_text))]
fn short_item(lps: u8, text: &[u8]) -> Option<(u8, &[u8])>
    ensures cut { MatchOption result Unit (λ x. IsCutTo lps text.now (Some (record { lp = x.0; times = 1 })) x.1.now) }
    ensures shorter { MatchOption result Unit (λ x. length x.1.now < length text.now) }
{
    if text.len() < 2 || text[1] != b' ' {
        return None;
    }
    let digit = text[0];
    if digit < b'0' || digit > b'9' {
        return None;
    }
    let lp = digit - b'0';
    if lp >= lps {
        return None;
    }
    Some((lp, &text[2..]))
}

// The turns of a text's first word, where they are in range, and what stands behind it. None exactly
// where the text has no word.
fn next_turns(lps: u8, text: &[u8]) -> Option<(Option<Turns>, &[u8])>
    ensures cut { MatchOption result (words text.now ≡ []) (λ x. IsCutTo lps text.now x.0 x.1.now) }
    ensures shorter { MatchOption result Unit (λ x. length x.1.now < length text.now) }
{
    if let Some((lp, more)) = short_item(lps, text) {
        return Some((Some(Turns { lp, times: 1 }), more));
    }
    let (word, more) = next_word(text)?;
    Some((turns_of(lps, item_at(word)), more))
}

// The processors of eight items of one digit, each with a space behind it, where a text begins with
// these. None tells nothing. Without a way out of the loop they are tested at once.
#[tactic(auto, using(crate::proofs::Eights::eight_cut))]
fn eight_items(lps: u8, text: &[u8]) -> Option<[u8; 8]>
    requires { 16 ≤ length text.now }
    ensures { MatchOption result Unit (λ items. AreCutTo lps text.now items (drop 16 text.now)) }
{
    let digits = if lps < 10 { lps } else { 10 };
    let mut items = [0; 8];
    let mut is_good = true;
    for place in 0..8 {
        let item = text[2 * place].wrapping_sub(b'0');
        is_good &= item < digits;
        is_good &= text[2 * place + 1] == b' ';
        items[place] = item;
    }
    if is_good { Some(items) } else { None }
}

// Writes items by eights, as long as they are that short and there is room, and answers what stands
// behind them.
fn write_eights<'a>(schedule: &mut Vec<u8>, lps: u8, text: &'a [u8]) -> Result<&'a [u8], AllocError>
    ensures { IfOk result (λ rest. written_of schedule.old.items (map (turns_in lps) (words text.now)) ≡ written_of schedule.new.items (map (turns_in lps) (words rest.now))) }
{
    let mut rest = text;
    while rest.len() >= 16 && schedule.len() + 8 <= MOST_ITEMS {
        let Some(items) = eight_items(lps, rest) else {
            return Ok(rest);
        };
        schedule.extend_from_slice(&items)?;
        rest = &rest[16..];
    }
    Ok(rest)
}

fn write_singly(schedule: &mut Vec<u8>, line: u64, lps: u8, text: &[u8]) -> Taken
    ensures { IsAnsweredAt line (written_of schedule.old.items (map (turns_in lps) (words text.now))) schedule.new.items result }
{
    let mut rest = text;
    while let Some((turns, more)) = next_turns(lps, rest) {
        let Some(turns) = turns else {
            return Err(bad(line, Reason::Range));
        };
        write_turns(schedule, line, turns)?;
        rest = more;
    }
    Ok(())
}

fn write_items(schedule: &mut Vec<u8>, line: u64, lps: u8, text: &[u8]) -> Taken
    ensures { IsAnsweredAt line (written_of schedule.old.items (map (turns_in lps) (words text.now))) schedule.new.items result }
{
    match write_eights(schedule, lps, text) {
        Ok(rest) => write_singly(schedule, line, lps, rest),
        Err(AllocError) => Err(ScriptFault::OutOfMemory),
    }
}

fn first_reason(lps: u8, text: &[u8], reason: Reason) -> Reason
    ensures { result ≡ first_reason lps (words text.now) reason }
{
    if !are_items(text) {
        Reason::Number
    } else if !are_in_range(lps, text) {
        Reason::Range
    } else {
        reason
    }
}

/// Puts the items of a schedule line behind those of the lines before, written out. `text` is what
/// stands in the line behind its first word. Items are written one after the other; only where one
/// can't be is the whole line judged for its first reason, and then the schedule isn't read again.
#[tactic(auto, unfolding(crate::specs::Schedule::schedule_of), using(crate::proofs::InRange::in_range_are_items, crate::proofs::Short::written_are_in_range, crate::proofs::Short::faulty))]
pub fn schedule_line(schedule: &mut Vec<u8>, line: u64, lps: u8, text: &[u8]) -> Taken
    ensures { IsAnsweredAt line (schedule_of lps schedule.old.items (words text.now)) schedule.new.items result }
{
    if next_word(text).is_none() {
        return Err(bad(line, Reason::Count));
    }
    match write_items(schedule, line, lps, text) {
        Err(ScriptFault::Bad { line, reason }) => Err(bad(line, first_reason(lps, text, reason))),
        written => written,
    }
}
