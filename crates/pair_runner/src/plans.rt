//! The plan of a run of several modules.

ghost use Rattle.std.specs.Prelude.{◌≡◌, ◌≤◌, ◌^◌, length};
ghost use Rattle.line_words.specs.Words.{pieces};
ghost use Rattle.pair_runner.specs.Plans.{is_plain, events_in, is_module, item_in, line_in, items_from, plan_in, IsAnswered};

use line_words::{first_line, number};
use std::alloc::Global;

/// A line of a plan: that module, 0 for `A`, has the next so many events.
#[derive(Clone, Copy, Debug, PartialEq, Eq)]
pub struct PlanItem {
    pub module: u8,
    pub events: u32,
}

/// Why a plan can't be read: its first bad line, numbered from 1 (0 where the whole plan is too
/// long), or memory wasn't found.
#[derive(Clone, Copy, Debug, PartialEq, Eq)]
pub enum PlanFault {
    At(u64),
    OutOfMemory,
}

const MOST_BYTES: usize = 1 << 16;

const MOST_LINES: u64 = 4096;

const MOST_EVENTS: u64 = 1 << 20;

fn is_plain(word: &[u8]) -> bool
    ensures { result ≡ is_plain word.now }
{
    !word.is_empty() && b'1' <= word[0] && word[0] <= b'9'
}

fn events_in(word: &[u8]) -> Option<u32>
    ensures { result ≡ events_in word.now }
{
    if !is_plain(word) {
        return None;
    }
    let events = number(word)?;
    if 1 <= events && events <= MOST_EVENTS {
        Some(events as u32)
    } else {
        None
    }
}

fn is_module(modules: u8, letter: u8) -> bool
    requires { modules ≤ 8 }
    ensures { result ≡ is_module modules letter }
{
    b'A' <= letter && letter < b'A' + modules
}

fn item_in(modules: u8, line: &[u8]) -> Option<PlanItem>
    requires { modules ≤ 8 }
    ensures { result ≡ item_in modules line.now }
{
    if line.len() >= 2 && is_module(modules, line[0]) && line[1] == b' ' {
        let events = events_in(&line[2..])?;
        let module = line[0] - b'A';
        Some(PlanItem { module, events })
    } else {
        None
    }
}

fn line_in(modules: u8, number: u64, line: &[u8]) -> Option<PlanItem>
    requires { modules ≤ 8 }
    ensures { result ≡ line_in modules number line.now }
{
    if number <= MOST_LINES {
        item_in(modules, line)
    } else {
        None
    }
}

fn read_lines(alloc: Global, modules: u8, bytes: &[u8]) -> Result<Vec<PlanItem>, PlanFault>
    requires modules { modules ≤ 8 }
    requires short { length bytes.now ≤ 2 ^ 16 }
    ensures { IsAnswered (items_from modules 1 (pieces bytes.now)) result }
{
    let mut plan = Vec::new(alloc);
    let mut number = 1;
    let mut rest = bytes;
    while let Some((line, more)) = first_line(rest) {
        let Some(item) = line_in(modules, number, line) else {
            return Err(PlanFault::At(number));
        };
        let Ok(()) = plan.push(item) else {
            return Err(PlanFault::OutOfMemory);
        };
        number += 1;
        rest = more;
    }
    if rest.is_empty() {
        Ok(plan)
    } else {
        Err(PlanFault::At(number))
    }
}

/// The plan of so many modules that the bytes say, or the first bad line.
pub fn read_plan(alloc: Global, modules: u8, bytes: &[u8]) -> Result<Vec<PlanItem>, PlanFault>
    requires some { 2 ≤ modules }
    requires most { modules ≤ 8 }
    ensures { IsAnswered (plan_in modules bytes.now) result }
{
    if bytes.len() > MOST_BYTES {
        return Err(PlanFault::At(0));
    }
    read_lines(alloc, modules, bytes)
}
