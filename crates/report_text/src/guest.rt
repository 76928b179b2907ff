//! What guests read, extended and reported, as lines.

ghost use Rattle.std.specs.Prelude.{◌≡◌, ◌∷◌, [], ◌++◌, map, OnOk, IfOk, string_bytes};
ghost use Rattle.std.specs.List.{concat};
ghost use Rattle.td_words.specs.ReplyText.{digest_text};
ghost use Rattle.report_text.specs.Lines.{load_line, rtmr_line, report_line, note_line};

use crate::lines::{ROOM, write_head, write_hexadecimal, write_last};
use report_core::{Facts, make_report};
use std::alloc::{AllocError, Global};
use std::fmt::Write;
use td_words::OutOfMemory;

/// A `load`, `rtmr` or `report` that a guest completed, at the line of its VP.ENTER.
#[derive(Clone, Copy, Debug, PartialEq, Eq)]
pub enum GuestNote {
    /// The word at that guest physical address.
    Load {
        line: u32,
        gpa: u64,
        word: u64,
    },
    /// The digest, SHA-384, that the RTMR of that index, 0 to 3, then holds.
    Rtmr {
        line: u32,
        index: u8,
        digest: [u8; 48],
    },
    /// The report of the facts at that place of those that its processor keeps, counted from 0.
    Report {
        line: u32,
        place: u32,
    },
}

fn digest_digits(alloc: Global, digest: &[u8; 48]) -> Result<String, AllocError>
    ensures { IfOk result (λ text. string_bytes text ≡ digest_text digest.now) }
{
    let text = hex::encode(alloc, digest)?;
    Ok(text)
}

/// Puts the line of a load behind the text.
fn push_load(text: &mut Vec<u8>, lp: u8, number: u32, gpa: u64, word: u64) -> Result<(), AllocError>
    ensures { OnOk result (text.new.items ≡ text.old.items ++ load_line lp number gpa word) }
{
    let mut line = [0; ROOM];
    let space = write_last(&mut line, word);
    let start = write_hexadecimal(gpa, &mut line, space);
    let at = write_head(&mut line, start, b" load 0x", lp, number as u64);
    text.extend_from_slice(&line[at..])
}

/// Puts the line of an extension behind the text.
fn push_extension(
    alloc: Global,
    text: &mut Vec<u8>,
    lp: u8,
    number: u32,
    index: u8,
    digest: &[u8; 48],
) -> Result<(), AllocError>
    ensures { OnOk result (text.new.items ≡ text.old.items ++ rtmr_line lp number index digest.now) }
{
    let digits = digest_digits(alloc, digest)?;
    let mut told = String::new(alloc);
    write!(told, "{lp}.{number} rtmr {index} {digits}\n")?;
    text.extend_from_slice(told.as_bytes())
}

/// The digits of a report, and the newline behind them.
fn report_digits(report: &[u8; 360]) -> [u8; 721]
    ensures { result ≡ digest_text report.now ++ 10 ∷ [] }
{
    let mut digits = [b'\n'; 721];
    let Ok(()) = hex::encode_to_slice(report, &mut digits[..720]) else {
        unreachable!()
    };
    digits
}

/// Puts the line of a report behind the text.
fn push_report(
    text: &mut Vec<u8>,
    lp: u8,
    number: u32,
    key: &[u8; 48],
    facts: &Facts,
) -> Result<(), AllocError>
    ensures { OnOk result (text.new.items ≡ text.old.items ++ report_line key.now lp number facts.now) }
{
    let mut line = [0; ROOM];
    let at = write_head(&mut line, ROOM, b" report ", lp, number as u64);
    text.extend_from_slice(&line[at..])?;
    text.extend_from_slice(&report_digits(&make_report(key, facts)))
}

fn push_note(
    alloc: Global,
    text: &mut Vec<u8>,
    lp: u8,
    note: &GuestNote,
    reports: &[Facts],
    key: &[u8; 48],
) -> Result<(), AllocError>
    ensures { OnOk result (text.new.items ≡ text.old.items ++ note_line key.now reports.now lp note.now) }
{
    match note {
        GuestNote::Load { line, gpa, word } => push_load(text, lp, *line, *gpa, *word),
        GuestNote::Rtmr {
            line,
            index,
            digest,
        } => push_extension(alloc, text, lp, *line, *index, digest),
        GuestNote::Report { line, place } => match reports.get(*place as usize) {
            Some(facts) => push_report(text, lp, *line, key, facts),
            None => Ok(()),
        },
    }
}

/// The lines of what a logical processor's guests noted, in the order of the notes, with the facts that it
/// keeps and the report key. The lines of reports take no memory but the text's own.
pub fn guest_lines(
    alloc: Global,
    lp: u8,
    notes: &[GuestNote],
    reports: &[Facts],
    key: &[u8; 48],
) -> Result<Vec<u8>, OutOfMemory>
    ensures { IfOk result (λ lines. lines.items ≡ concat (map (note_line key.now reports.now lp) notes.now)) }
{
    let mut text = Vec::new(alloc);
    for i in 0..notes.len() {
        let Ok(()) = push_note(alloc, &mut text, lp, &notes[i], reports, key) else {
            return Err(OutOfMemory);
        };
    }
    Ok(text)
}
