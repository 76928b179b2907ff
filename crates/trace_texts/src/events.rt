//! What an event was, as texts.

ghost use Rattle.std.specs.Prelude.{◌≡◌, ◌++◌, IfOk, OnOk, string_bytes};
ghost use Rattle.field_lines.specs.Fields.{fields_text};
ghost use Rattle.trace_texts.specs.Lines.{what_word, more_fields, reply_fields, told, told_text, first_members, last_members};

use field_lines::{Field, Form, Value, push_fields};
use std::alloc::{AllocError, Global};
use td_words::Reply;
use trace_lines::{Traced, What};

fn what_word(what: What) -> &'static str
    ensures { result.now ≡ what_word what }
{
    match what {
        What::Tries { granted: true, .. } => "try",
        What::Tries { granted: false, .. } => "denied",
        What::Undoes(_) => "undo",
        What::Acts => "act",
        What::Walks { .. } => "walk",
        What::Accesses { .. } => "access",
        What::Counts => "count",
        What::Releases(_) => "release",
    }
}

fn push_more(alloc: Global, text: &mut String, form: Form, what: What) -> Result<(), AllocError>
    ensures { OnOk result (string_bytes text.new ≡ string_bytes text.old ++ fields_text form (more_fields what)) }
{
    match what {
        What::Tries { lock, mode, .. } => push_fields(
            alloc,
            text,
            form,
            &[
                Field(" ", "lock", Value::Lock(lock)),
                Field(" ", "mode", Value::Mode(mode)),
            ],
        ),
        What::Undoes(lock) => push_fields(
            alloc,
            text,
            form,
            &[Field(" ", "lock", Value::Lock(lock))],
        ),
        What::Acts => Ok(()),
        What::Walks { gpa, level } => push_fields(
            alloc,
            text,
            form,
            &[
                Field(" gpa ", "gpa", Value::Address(gpa)),
                Field(" level ", "level", Value::Number(level as u64)),
            ],
        ),
        What::Accesses { access, gpa, page } => push_fields(
            alloc,
            text,
            form,
            &[
                Field(" ", "access", Value::Access(access)),
                Field(" gpa ", "gpa", Value::Address(gpa)),
                Field(" page ", "page", Value::Number(page as u64)),
                Field(" word ", "word", Value::Number(gpa % 4096 / 8)),
            ],
        ),
        What::Counts => Ok(()),
        What::Releases(lock) => push_fields(
            alloc,
            text,
            form,
            &[Field(" ", "lock", Value::Lock(lock))],
        ),
    }
}

fn push_reply(
    alloc: Global,
    text: &mut String,
    form: Form,
    reply: Option<Reply>,
) -> Result<(), AllocError>
    ensures { OnOk result (string_bytes text.new ≡ string_bytes text.old ++ fields_text form (reply_fields reply)) }
{
    match reply {
        None => Ok(()),
        Some(reply) => push_fields(
            alloc,
            text,
            form,
            &[Field(" -> ", "reply", Value::Reply(reply))],
        ),
    }
}

// What an event was, with its reply.
fn push_told(
    alloc: Global,
    text: &mut String,
    form: Form,
    traced: &Traced,
) -> Result<(), AllocError>
    ensures { OnOk result (string_bytes text.new ≡ string_bytes text.old ++ told form traced.now) }
{
    let what = Field("", "what", Value::Word(what_word(traced.what)));
    push_fields(alloc, text, form, &[what])?;
    push_more(alloc, text, form, traced.what)?;
    push_reply(alloc, text, form, traced.reply)
}

/// What an event was, with its reply, for reading.
#[tactic(auto, unfolding(crate::specs::Lines::told_text))]
pub fn told_text(alloc: Global, traced: &Traced) -> Result<String, AllocError>
    ensures { IfOk result (λ s. string_bytes s ≡ told_text traced.now) }
{
    let mut text = String::new(alloc);
    push_told(alloc, &mut text, Form::Plain, traced)?;
    text.push_str("\n")?;
    Ok(text)
}

/// The first members of its object.
pub fn first_members(alloc: Global, script_line: u64, traced: &Traced) -> Result<String, AllocError>
    ensures { IfOk result (λ s. string_bytes s ≡ first_members script_line traced.now) }
{
    let Traced {
        number,
        lp,
        line,
        ..
    } = *traced;
    format!(in alloc;
        "{{\"event\": {number}, \"processor\": {lp}, \"line\": {line}, \"script_line\": {script_line}, \"call\": \""
    )
}

/// What it was, with its reply, as the last members of its object.
pub fn last_members(alloc: Global, traced: &Traced) -> Result<String, AllocError>
    ensures { IfOk result (λ s. string_bytes s ≡ last_members traced.now) }
{
    let mut text = String::from_str(alloc, "\"")?;
    push_told(alloc, &mut text, Form::Json, traced)?;
    text.push_str("}\n")?;
    Ok(text)
}
