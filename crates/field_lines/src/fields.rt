//! Fields, each with its name and its value.

ghost use Rattle.std.specs.Prelude.{◌≡◌, ◌++◌, OnOk, string_bytes};
ghost use Rattle.field_lines.specs.Fields.{value_seen, mode_text, value_text, string_text, json_value};

use std::alloc::AllocError;
use std::fmt::Write;
use td_words::{
    Access, EntryState, LifeState, LockName, Mode, OpState, PageKind, Reply, VcpuState,
};

/// What a field says: a number, an address in bytes, the address of a page by that page's number, or a
/// word, which may be a name of the profile.
#[derive(Clone, Copy)]
pub enum Value<'a> {
    Number(u64),
    Address(u64),
    PageAddress(u64),
    Word(&'a str),
    Kind(PageKind),
    Life(LifeState),
    Op(OpState),
    Vcpu(VcpuState),
    Entry(EntryState),
    Lock(LockName),
    Mode(Mode),
    Access(Access),
    Reply(Reply),
}

/// A field: what stands before its value for reading, its name as a member of an object, and its value.
#[derive(Clone, Copy)]
pub struct Field<'a>(pub &'a str, pub &'a str, pub Value<'a>);

fn mode_text(mode: Mode) -> &'static str
    ensures { result.now ≡ mode_text mode }
{
    match mode {
        Mode::Shared => "shared",
        Mode::Exclusive => "exclusive",
    }
}

// A value for reading.
pub(crate) fn push_value(text: &mut String, value: Value<'_>) -> Result<(), AllocError>
    ensures { OnOk result (string_bytes text.new ≡ string_bytes text.old ++ value_text (value_seen value.entry)) }
{
    match value {
        Value::Number(number) => write!(text, "{number}"),
        Value::Address(address) => write!(text, "0x{address:x}"),
        Value::PageAddress(page) => write!(text, "0x{page:x}000"),
        Value::Word(word) => write!(text, "{word}"),
        Value::Kind(kind) => write!(text, "{kind}"),
        Value::Life(life) => write!(text, "{life}"),
        Value::Op(op) => write!(text, "{op}"),
        Value::Vcpu(vcpu) => write!(text, "{vcpu}"),
        Value::Entry(entry) => write!(text, "{entry}"),
        Value::Lock(lock) => write!(text, "{lock}"),
        Value::Mode(mode) => write!(text, "{}", mode_text(mode)),
        Value::Access(access) => write!(text, "{access}"),
        Value::Reply(reply) => write!(text, "{reply}"),
    }
}

// A word, as a string.
fn push_string(text: &mut String, value: Value<'_>) -> Result<(), AllocError>
    ensures { OnOk result (string_bytes text.new ≡ string_bytes text.old ++ string_text (value_text (value_seen value.entry))) }
{
    text.push_str("\"")?;
    push_value(text, value)?;
    text.push_str("\"")
}

// A value as JSON has it.
pub(crate) fn push_json_value(text: &mut String, value: Value<'_>) -> Result<(), AllocError>
    ensures { OnOk result (string_bytes text.new ≡ string_bytes text.old ++ json_value (value_seen value.entry)) }
{
    match value {
        Value::Number(number) => write!(text, "{number}"),
        Value::Address(address) => write!(text, "{address}"),
        Value::PageAddress(page) => {
            let address = u128::from(page) * 4096;
            write!(text, "{address}")
        }
        _ => push_string(text, value),
    }
}
