//! Logs.

ghost use Rattle.std.specs.Prelude.{◌≡◌, ◌≤◌, ◌^◌, ◌∷◌, ◌++◌, [], map, length, IfOk, OnOk, MatchResult};
ghost use Rattle.line_words.specs.Words.{pieces, words, is_printable};
ghost use Rattle.line_words.specs.Lines.{words_text};
ghost use Rattle.reply_logs.specs.Logs.{line_seen, has_line, place_from, place_in, joined, is_told, told_at, worded_of, line_of, ended_of, read_from, log_of, answer_of, IsAnswered, IsAnsweredAt};

use crate::faults::{LogFault, LogReason, bad};
use line_words::{Line, is_comment, next_line, next_word, number, place_of};
use std::alloc::{AllocError, Global};
use td_words::Call;

/// A call line: the number of the processor, and that of the line, from 1.
#[derive(Clone, Copy)]
struct Place {
    lp: u64,
    line: u64,
}

/// What was answered to a call line: the number of the processor, that of the line, from 1, and the reply.
#[derive(Drop)]
pub struct LogLine {
    pub lp: u64,
    pub line: u64,
    pub reply: Vec<u8>,
}

fn has_line(calls: &[Vec<Call>], lp: u64, line: u64) -> bool
    ensures { result ≡ has_line (map (λ list. list.items) calls.now) lp line }
{
    if line == 0 || lp >= calls.len() as u64 {
        return false;
    }
    line <= calls[lp as usize].len() as u64
}

fn place_from(calls: &[Vec<Call>], lp: Option<u64>, line: Option<u64>) -> Option<Place>
    ensures { result ≡ place_from (map (λ list. list.items) calls.now) lp line }
{
    match (lp, line) {
        (Some(lp), Some(line)) => {
            if has_line(calls, lp, line) {
                Some(Place { lp, line })
            } else {
                None
            }
        }
        _ => None,
    }
}

// The call line that a word names.
#[tactic(auto, unfolding(crate::specs::Logs::place_in))]
fn place_in(calls: &[Vec<Call>], word: &[u8]) -> Option<Place>
    ensures { result ≡ place_in (map (λ list. list.items) calls.now) word.now }
{
    match place_of(word, b'.') {
        None => None,
        Some(dot) => place_from(calls, number(&word[..dot]), number(&word[dot + 1..])),
    }
}

fn is_told(log: &[LogLine], place: Place) -> bool
    ensures { result ≡ is_told place (map line_seen log.now) }
{
    for i in 0..log.len() {
        if log[i].lp == place.lp && log[i].line == place.line {
            return true;
        }
    }
    false
}

// A text's words, each behind a space.
fn push_words(reply: &mut Vec<u8>, text: &[u8]) -> Result<(), AllocError>
    ensures { OnOk result (reply.new.items ≡ reply.old.items ++ words_text (words text.now)) }
{
    let mut rest = text;
    while let Some((word, more)) = next_word(rest) {
        reply.extend_from_slice(" ".as_bytes())?;
        reply.extend_from_slice(word)?;
        rest = more;
    }
    Ok(())
}

// A text's words with a space between them, the first of which is given.
fn joined(alloc: Global, word: &[u8], rest: &[u8]) -> Result<Vec<u8>, AllocError>
    ensures { IfOk result (λ v. v.items ≡ joined (word.now ∷ words rest.now)) }
{
    let mut reply = word.to_vec(alloc)?;
    push_words(&mut reply, rest)?;
    Ok(reply)
}

// A reply of that place.
fn tell(
    log: &mut Vec<LogLine>,
    alloc: Global,
    number: u64,
    place: Place,
    text: &[u8],
) -> Result<(), LogFault>
    ensures { IsAnsweredAt number (told_at (map line_seen log.old.items) (Some place) (words text.now)) (map line_seen log.new.items) result }
{
    let Some((word, rest)) = next_word(text) else {
        return Err(bad(number, LogReason::Reply));
    };
    if is_told(log, place) {
        return Err(bad(number, LogReason::Twice));
    }
    let Place { lp, line } = place;
    let reply = joined(alloc, word, rest)?;
    log.push(LogLine { lp, line, reply })?;
    Ok(())
}

// A line's words.
fn take_words(
    log: &mut Vec<LogLine>,
    alloc: Global,
    number: u64,
    calls: &[Vec<Call>],
    text: &[u8],
) -> Result<(), LogFault>
    ensures { IsAnsweredAt number (worded_of (map (λ list. list.items) calls.now) (map line_seen log.old.items) (words text.now)) (map line_seen log.new.items) result }
{
    let Some((word, rest)) = next_word(text) else {
        return Ok(());
    };
    if is_comment(word) {
        return Ok(());
    }
    match place_in(calls, word) {
        None => Err(bad(number, LogReason::Place)),
        Some(place) => tell(log, alloc, number, place, rest),
    }
}

// Takes in one line. After a fault the log isn't read again.
#[tactic(auto, unfolding(crate::specs::Logs::line_of))]
fn take_line(
    log: &mut Vec<LogLine>,
    alloc: Global,
    number: u64,
    calls: &[Vec<Call>],
    line: Line<'_>,
) -> Result<(), LogFault>
    requires { line.is_printable ≡ is_printable line.bytes.now }
    ensures { IsAnsweredAt number (line_of (map (λ list. list.items) calls.now) (map line_seen log.old.items) line.entry.bytes.now) (map line_seen log.new.items) result }
{
    if !line.is_printable {
        return Err(bad(number, LogReason::Byte));
    }
    take_words(log, alloc, number, calls, line.bytes)
}

fn ended(log: Vec<LogLine>, number: u64, rest: &[u8]) -> Result<Vec<LogLine>, LogFault>
    ensures { answer_of result ≡ ended_of (map line_seen log.items) number rest.now }
{
    if !rest.is_empty() {
        return Err(bad(number, LogReason::Unterminated));
    }
    Ok(log)
}

fn read_lines(alloc: Global, calls: &[Vec<Call>], bytes: &[u8]) -> Result<Vec<LogLine>, LogFault>
    requires { length bytes.now ≤ 2 ^ 24 }
    ensures { IsAnswered (read_from (map (λ list. list.items) calls.now) [] 1 (pieces bytes.now)) (answer_of result) }
{
    let mut log = Vec::new(alloc);
    let mut number = 1;
    let mut rest = bytes;
    while let Some(line) = next_line(rest) {
        take_line(&mut log, alloc, number, calls, line)?;
        number += 1;
        rest = line.rest;
    }
    ended(log, number, rest)
}

/// The replies that the bytes tell of a script with these calls, or the first bad line with the first reason
/// that holds.
#[tactic(auto, unfolding(crate::specs::Logs::log_of))]
pub fn read_log(alloc: Global, calls: &[Vec<Call>], bytes: &[u8]) -> Result<Vec<LogLine>, LogFault>
    ensures { IsAnswered (log_of (map (λ list. list.items) calls.now) bytes.now) (answer_of result) }
{
    if bytes.len() > 1 << 24 {
        return Err(bad(0, LogReason::Length));
    }
    read_lines(alloc, calls, bytes)
}
