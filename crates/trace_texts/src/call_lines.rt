//! The call lines in a script's text.

ghost use Rattle.std.specs.Prelude.{◌≡◌, ◌-◌, ◌++◌, map, slice_index_or, IfOk, OnOk};
ghost use Rattle.line_words.specs.Words.{words};
ghost use Rattle.trace_texts.specs.CallLines.{line_seen, lists_seen, begin_with, opens, closes, is_open_behind, call_on, call_list, call_lists, no_line, line_of};

use line_words::{first_line, is, is_comment, next_word, number};
use std::alloc::{AllocError, Global};
use td_words::OutOfMemory;

/// A call's line in a script's text: its number, from 1, and its first word, which is the call's name.
#[derive(Clone, Copy, Drop)]
pub struct CallLine<'a> {
    pub number: u64,
    pub name: &'a [u8],
}

// Whether the first word of a text is that number.
fn begins_with(lp: u8, text: &[u8]) -> bool
    ensures { result ≡ begin_with lp (words text.now) }
{
    match next_word(text) {
        None => false,
        Some((word, _)) => match number(word) {
            None => false,
            Some(number) => number == u64::from(lp),
        },
    }
}

fn opens(lp: u8, line: &[u8]) -> bool
    ensures { result ≡ opens lp (words line.now) }
{
    match next_word(line) {
        None => false,
        Some((word, rest)) => is(word, "lp") && begins_with(lp, rest),
    }
}

fn closes(line: &[u8]) -> bool
    ensures { result ≡ closes (words line.now) }
{
    match next_word(line) {
        None => false,
        Some((word, _)) => is(word, "end"),
    }
}

fn is_open_behind(lp: u8, within: bool, line: &[u8]) -> bool
    ensures { result ≡ is_open_behind lp within (words line.now) }
{
    if within {
        !closes(line)
    } else {
        opens(lp, line)
    }
}

// Adds a line where it is a call's.
fn add_line<'a>(
    lines: &mut Vec<CallLine<'a>>,
    number: u64,
    within: bool,
    line: &'a [u8],
) -> Result<(), AllocError>
    ensures { OnOk result (map line_seen lines.new.items ≡ map line_seen lines.old.items ++ call_on number within (words line.now)) }
{
    if !within {
        return Ok(());
    }
    match next_word(line) {
        None => Ok(()),
        Some((name, _)) => {
            if !is_comment(name) && !is(name, "end") {
                lines.push(CallLine { number, name })?;
            }
            Ok(())
        }
    }
}

// The call lines of a processor.
fn call_list<'a>(alloc: Global, text: &'a [u8], lp: u8) -> Result<Vec<CallLine<'a>>, AllocError>
    ensures { IfOk result (λ v. map line_seen v.items ≡ call_list text.now lp) }
{
    let mut lines = Vec::new(alloc);
    let mut within = false;
    let mut number = 1;
    let mut rest = text;
    while let Some((line, more)) = first_line(rest) {
        add_line(&mut lines, number, within, line)?;
        within = is_open_behind(lp, within, line);
        number += 1;
        rest = more;
    }
    add_line(&mut lines, number, within, rest)?;
    Ok(lines)
}

/// The call lines of each of so many processors, in a script's text.
pub fn call_lists<'a>(
    alloc: Global,
    text: &'a [u8],
    lps: u8,
) -> Result<Vec<Vec<CallLine<'a>>>, OutOfMemory>
    ensures { IfOk result (λ v. lists_seen v.items ≡ call_lists text.now 0 lps) }
{
    let mut lists = Vec::new(alloc);
    for lp in 0..lps {
        let Ok(list) = call_list(alloc, text, lp) else {
            return Err(OutOfMemory);
        };
        let Ok(()) = lists.push(list) else {
            return Err(OutOfMemory);
        };
    }
    Ok(lists)
}

// Where there is none.
fn no_line<'a>() -> CallLine<'a>
    ensures { line_seen result ≡ no_line }
{
    CallLine {
        number: 0,
        name: &[],
    }
}

fn line_at<'a>(lines: &[CallLine<'a>], line: u64) -> CallLine<'a>
    ensures { line_seen result ≡ slice_index_or (map line_seen lines.now) (line - 1) no_line }
{
    let at = line.saturating_sub(1) as usize;
    if at < lines.len() {
        lines[at]
    } else {
        no_line()
    }
}

/// The line of a processor's call of that number, from 1.
pub fn line_of<'a>(lists: &[Vec<CallLine<'a>>], lp: u8, line: u64) -> CallLine<'a>
    ensures { line_seen result ≡ line_of (lists_seen lists.now) lp line }
{
    let lp = usize::from(lp);
    if lp < lists.len() {
        line_at(&lists[lp], line)
    } else {
        no_line()
    }
}
