//! The pages of a machine, and the secure EPTs of its TDs, read from its words.

ghost use Rattle.std.specs.Prelude.{◌≡◌, ◌+◌, ◌≤◌, ◌<◌, ◌^◌, ◌++◌, OnOk, string_bytes};
ghost use Rattle.flat_core.specs.Arguments.{level_size};
ghost use Rattle.state_lines.specs.Lines.{texts_below};
ghost use Rattle.state_lines.specs.WordText.{page_read, table_read, tree_in};

use crate::lines::{push_entry, push_page};
use crate::words::{content_in, pamt_seen, root_in, used_entry};
use field_lines::Form;
use std::alloc::{AllocError, Global};
use td_words::PageKind;

// How many bytes an entry of a level spans.
fn level_size(level: u8) -> u64
    requires { level < 4 }
    ensures { result ≡ level_size level }
{
    match level {
        0 => 0x1000,
        1 => 0x20_0000,
        2 => 0x4000_0000,
        _ => 0x80_0000_0000,
    }
}

// The entries of a node of a TD's secure EPT that aren't FREE, each with those below it. The root is a node
// of level 4.
fn push_table(
    alloc: Global,
    text: &mut String,
    form: Form,
    words: &[u64],
    tdr: u16,
    node: u8,
    page: u16,
    base: u64,
) -> Result<(), AllocError>
    requires node { node ≤ 4 }
    requires inside { base + level_size node ≤ 2 ^ 48 }
    ensures { OnOk result (string_bytes text.new ≡ string_bytes text.old ++ table_read form words.now tdr node page base) }
{
    if node == 0 {
        return Ok(());
    }
    let level = node - 1;
    let size = level_size(level);
    for index in 0..512 {
        let gpa = base + size * index as u64;
        if let Some(entry) = used_entry(words, page, index) {
            push_entry(alloc, text, form, tdr, level, gpa, &entry)?;
            push_table(alloc, text, form, words, tdr, level, entry.page, gpa)?;
        }
    }
    Ok(())
}

// A TD's secure EPT, once it has both control pages, and unless it is in TD_TEARDOWN.
fn push_tree(
    alloc: Global,
    text: &mut String,
    form: Form,
    words: &[u64],
    tdr: u16,
    kind: PageKind,
) -> Result<(), AllocError>
    ensures { OnOk result (string_bytes text.new ≡ string_bytes text.old ++ tree_in form words.now tdr kind) }
{
    match kind {
        PageKind::Tdr => match root_in(words, tdr) {
            Some(root) => push_table(alloc, text, form, words, tdr, 4, root, 0),
            None => Ok(()),
        },
        _ => Ok(()),
    }
}

fn push_read(
    alloc: Global,
    text: &mut String,
    form: Form,
    words: &[u64],
    page: u16,
) -> Result<(), AllocError>
    ensures { OnOk result (string_bytes text.new ≡ string_bytes text.old ++ page_read form words.now page) }
{
    match pamt_seen(words, page) {
        Some(pamt) => {
            let content = content_in(words, page, pamt.owner, pamt.kind);
            push_page(alloc, text, form, page, &pamt, &content)?;
            push_tree(alloc, text, form, words, page, pamt.kind)
        }
        None => Ok(()),
    }
}

/// The lines of so many pages, in order, from a machine's words by their addresses.
pub fn push_pages(
    alloc: Global,
    text: &mut String,
    form: Form,
    words: &[u64],
    pages: u16,
) -> Result<(), AllocError>
    ensures { OnOk result (string_bytes text.new ≡ string_bytes text.old ++ texts_below (page_read form words.now) pages) }
{
    for page in 0..pages {
        push_read(alloc, text, form, words, page)?;
    }
    Ok(())
}
