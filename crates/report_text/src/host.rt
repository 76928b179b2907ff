//! Replies as lines.

ghost use Rattle.std.specs.Prelude.{◌≡◌, ◌++◌, OnOk, IfOk, codes};
ghost use Rattle.std.specs.Fmt.{decimal};
ghost use Rattle.std.specs.List.{concat};
ghost use Rattle.report_text.specs.Lines.{line_text, reply_lines, reply_line};

use crate::lines::{ROOM, write_head, write_last};
use std::alloc::{AllocError, Global};
use std::fmt::Write;
use td_words::{OutOfMemory, Reply, Value};

/// Puts the line of a success without a value behind the text.
fn push_success(text: &mut Vec<u8>, lp: u8, number: u64) -> Result<(), AllocError>
    ensures { OnOk result (text.new.items ≡ text.old.items ++ line_text lp number (codes "SUCCESS")) }
{
    let mut line = [b'\n'; ROOM];
    let at = write_head(&mut line, ROOM - 1, b" SUCCESS", lp, number);
    text.extend_from_slice(&line[at..])
}

/// Puts the line of a success with a number behind the text.
fn push_number(text: &mut Vec<u8>, lp: u8, number: u64, seen: u64) -> Result<(), AllocError>
    ensures { OnOk result (text.new.items ≡ text.old.items ++ line_text lp number (codes "SUCCESS " ++ decimal seen)) }
{
    let mut line = [0; ROOM];
    let space = write_last(&mut line, seen);
    let at = write_head(&mut line, space, b" SUCCESS", lp, number);
    text.extend_from_slice(&line[at..])
}

/// Puts the line of any reply behind the text; `told` is room for it.
fn push_told(
    text: &mut Vec<u8>,
    told: &mut String,
    lp: u8,
    number: u64,
    reply: &Reply,
) -> Result<(), AllocError>
    ensures { OnOk result (text.new.items ≡ text.old.items ++ reply_line lp number reply.now) }
{
    told.clear();
    write!(told, "{lp}.{number} {reply}\n")?;
    text.extend_from_slice(told.as_bytes())
}

fn push_line(
    text: &mut Vec<u8>,
    told: &mut String,
    lp: u8,
    number: u64,
    reply: &Reply,
) -> Result<(), AllocError>
    ensures { OnOk result (text.new.items ≡ text.old.items ++ reply_line lp number reply.now) }
{
    match reply {
        Reply::Done(Value::Nothing) => push_success(text, lp, number),
        Reply::Done(Value::Number(seen)) => push_number(text, lp, number, *seen),
        _ => push_told(text, told, lp, number, reply),
    }
}

/// The reply lines of a logical processor, numbered from 1.
pub fn host_lines(alloc: Global, lp: u8, replies: &[Reply]) -> Result<Vec<u8>, OutOfMemory>
    ensures { IfOk result (λ lines. lines.items ≡ concat (reply_lines lp 1 replies.now)) }
{
    let mut text = Vec::new(alloc);
    let mut told = String::new(alloc);
    for i in 0..replies.len() {
        let Ok(()) = push_line(&mut text, &mut told, lp, i as u64 + 1, &replies[i]) else {
            return Err(OutOfMemory);
        };
    }
    Ok(text)
}
