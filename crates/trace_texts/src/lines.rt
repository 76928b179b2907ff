//! The lines of a trace.

ghost use Rattle.std.specs.Prelude.{◌≡◌, ◌++◌, map, IfOk, OnOk};
ghost use Rattle.trace_texts.specs.CallLines.{line_seen, lists_seen};
ghost use Rattle.trace_texts.specs.Lines.{column, plain_line, json_line, line_in, event_line, trace_text};

use crate::call_lines::{CallLine, line_of};
use crate::events::{first_members, last_members, told_text};
use field_lines::Form;
use std::alloc::{AllocError, Global};
use td_words::OutOfMemory;
use trace_lines::Traced;

/// A text, with spaces behind it up to a width, and one at least.
pub fn push_column(text: &mut Vec<u8>, part: &[u8], width: usize) -> Result<(), AllocError>
    ensures { OnOk result (text.new.items ≡ text.old.items ++ column width part.now) }
{
    text.extend_from_slice(part)?;
    let spaces = width.saturating_sub(part.len()).max(1);
    for _space in 0..spaces {
        text.push(b' ')?;
    }
    Ok(())
}

fn push_plain(
    alloc: Global,
    text: &mut Vec<u8>,
    call: CallLine<'_>,
    traced: &Traced,
) -> Result<(), AllocError>
    ensures { OnOk result (text.new.items ≡ text.old.items ++ plain_line (line_seen call.entry) traced.now) }
{
    let number = format!(in alloc; "{}", traced.number)?;
    let place = format!(in alloc; "{}.{}", traced.lp, traced.line)?;
    let line = format!(in alloc; "line {}", call.number)?;
    let told = told_text(alloc, traced)?;
    push_column(text, number.as_bytes(), 7)?;
    push_column(text, place.as_bytes(), 7)?;
    push_column(text, line.as_bytes(), 11)?;
    push_column(text, call.name, 24)?;
    text.extend_from_slice(told.as_bytes())
}

fn push_json(
    alloc: Global,
    text: &mut Vec<u8>,
    call: CallLine<'_>,
    traced: &Traced,
) -> Result<(), AllocError>
    ensures { OnOk result (text.new.items ≡ text.old.items ++ json_line (line_seen call.entry) traced.now) }
{
    let first = first_members(alloc, call.number, traced)?;
    let last = last_members(alloc, traced)?;
    text.extend_from_slice(first.as_bytes())?;
    text.extend_from_slice(call.name)?;
    text.extend_from_slice(last.as_bytes())
}

fn push_line(
    alloc: Global,
    text: &mut Vec<u8>,
    form: Form,
    call: CallLine<'_>,
    traced: &Traced,
) -> Result<(), AllocError>
    ensures { OnOk result (text.new.items ≡ text.old.items ++ line_in form (line_seen call.entry) traced.now) }
{
    match form {
        Form::Plain => push_plain(alloc, text, call, traced),
        Form::Json => push_json(alloc, text, call, traced),
    }
}

/// The lines of a trace, by the call lines of its processors.
pub fn trace_text(
    alloc: Global,
    form: Form,
    lists: &[Vec<CallLine<'_>>],
    traced: &[Traced],
) -> Result<Vec<u8>, OutOfMemory>
    ensures { IfOk result (λ v. v.items ≡ trace_text form (lists_seen lists.now) traced.now) }
{
    let mut text = Vec::new(alloc);
    for i in 0..traced.len() {
        let call = line_of(lists, traced[i].lp, u64::from(traced[i].line));
        let Ok(()) = push_line(alloc, &mut text, form, call, &traced[i]) else {
            return Err(OutOfMemory);
        };
    }
    Ok(text)
}
