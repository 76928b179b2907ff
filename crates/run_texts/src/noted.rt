//! What guests noted, as the flat machine has it.

ghost use Rattle.std.specs.Prelude.{◌≡◌, ◌<◌, ℕ, map, slice_index, length, IfOk};
ghost use Rattle.std.specs.List.{All, concat};
ghost use Rattle.flat_core.specs.GuestText.{note_text};
ghost use Rattle.report_text.specs.Lines.{note_line};
ghost use Rattle.leaf_dispatch.specs.Guests.{note_seen, IsPlaced};

use report_core::Facts;
use report_text::{GuestNote, guest_lines};
use std::alloc::Global;
use td_words::OutOfMemory;

// Numbers of 8 bits are below 256.
fn are_bytes(bytes: &[u8])
    ensures { (i : ℕ) → slice_index bytes.now i < 256 }
{}

// A note is told as it was kept: a digest's 48 bytes are those of its six words, and a report has the facts at its place.
fn is_told(lp: u8, note: &GuestNote, reports: &[Facts], key: &[u8; 48])
    requires { IsPlaced (length reports.now) note.now }
    ensures { note_line key.now reports.now lp note.now ≡ note_text key.now lp (note_seen reports.now note.now) }
{
    let _ = lp;
    let _ = reports;
    let _ = key;
    match note {
        GuestNote::Load { .. } => {}
        GuestNote::Rtmr { digest, .. } => are_bytes(digest),
        GuestNote::Report { .. } => {}
    }
}

fn are_told(lp: u8, notes: &[GuestNote], reports: &[Facts], key: &[u8; 48])
    requires { All (IsPlaced (length reports.now)) notes.now }
    ensures { map (note_line key.now reports.now lp) notes.now ≡ map (note_text key.now lp) (map (note_seen reports.now) notes.now) }
{
    for i in 0..notes.len() {
        is_told(lp, &notes[i], reports, key);
    }
}

/// The lines of what the guests of a processor noted, with the facts that they reported and the report key.
pub fn noted_lines(
    alloc: Global,
    lp: u8,
    notes: &[GuestNote],
    reports: &[Facts],
    key: &[u8; 48],
) -> Result<Vec<u8>, OutOfMemory>
    requires { All (IsPlaced (length reports.now)) notes.now }
    ensures { IfOk result (λ v. v.items ≡ concat (map (note_text key.now lp) (map (note_seen reports.now) notes.now))) }
{
    are_told(lp, notes, reports, key);
    guest_lines(alloc, lp, notes, reports, key)
}
