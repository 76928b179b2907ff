//! Fields one after the other, and lines of them.

ghost use Rattle.std.specs.Prelude.{◌≡◌, ◌++◌, OnOk, map, string_bytes};
ghost use Rattle.field_lines.specs.Fields.{field_seen, field_text, fields_text, plain_line, object_line, line_text};

use crate::fields::{Field, push_json_value, push_value};
use std::alloc::{AllocError, Global};
use std::fmt::Write;

/// The form of lines: for reading, or JSON, an object a line.
#[derive(Clone, Copy, Debug, PartialEq, Eq)]
pub enum Form {
    Plain,
    Json,
}

fn push_field(text: &mut String, form: Form, field: &Field<'_>) -> Result<(), AllocError>
    ensures { OnOk result (string_bytes text.new ≡ string_bytes text.old ++ field_text form (field_seen field.now)) }
{
    let Field(label, name, value) = *field;
    match form {
        Form::Plain => {
            text.push_str(label)?;
            push_value(text, value)
        }
        Form::Json => {
            write!(text, ", \"{name}\": ")?;
            push_json_value(text, value)
        }
    }
}

/// Fields for reading, or as members of an object behind its first.
pub fn push_fields(
    _alloc: Global,
    text: &mut String,
    form: Form,
    fields: &[Field<'_>],
) -> Result<(), AllocError>
    ensures { OnOk result (string_bytes text.new ≡ string_bytes text.old ++ fields_text form (map field_seen fields.now)) }
{
    for i in 0..fields.len() {
        push_field(text, form, &fields[i])?;
    }
    Ok(())
}

fn push_plain(alloc: Global, text: &mut String, fields: &[Field<'_>]) -> Result<(), AllocError>
    ensures { OnOk result (string_bytes text.new ≡ string_bytes text.old ++ plain_line (map field_seen fields.now)) }
{
    push_fields(alloc, text, Form::Plain, fields)?;
    text.push_str("\n")
}

fn push_object(
    alloc: Global,
    text: &mut String,
    what: &str,
    fields: &[Field<'_>],
) -> Result<(), AllocError>
    ensures { OnOk result (string_bytes text.new ≡ string_bytes text.old ++ object_line what.now (map field_seen fields.now)) }
{
    write!(text, "{{\"what\": \"{what}\"")?;
    push_fields(alloc, text, Form::Json, fields)?;
    text.push_str("}\n")
}

/// A line of these fields. As an object it says first what it tells.
pub fn push_line(
    alloc: Global,
    text: &mut String,
    form: Form,
    what: &str,
    fields: &[Field<'_>],
) -> Result<(), AllocError>
    ensures { OnOk result (string_bytes text.new ≡ string_bytes text.old ++ line_text form what.now (map field_seen fields.now)) }
{
    match form {
        Form::Plain => push_plain(alloc, text, fields),
        Form::Json => push_object(alloc, text, what, fields),
    }
}
