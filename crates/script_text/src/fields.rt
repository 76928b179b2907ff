//! Arguments that the grammar judges: field names and output slots.

ghost use Rattle.std.specs.Prelude.{◌≡◌, [], slice_index_or};
ghost use Rattle.line_words.specs.Words.{words};
ghost use Rattle.script_text.specs.Blocks.{field_of, slot_place_of, is_slot, slot_at, fits_slot, none_named};

use crate::faults::Reason;
use crate::lines::argument;
use line_words::{CallName, is, next_word};
use td_words::ReadField;

fn field_at(word: &[u8]) -> Result<ReadField, Reason>
    ensures { result ≡ field_of word.now }
{
    if is(word, "LIFE") {
        Ok(ReadField::Life)
    } else if is(word, "OP") {
        Ok(ReadField::Op)
    } else if is(word, "EPOCH") {
        Ok(ReadField::Epoch)
    } else if is(word, "MRTD") {
        Ok(ReadField::Mrtd)
    } else {
        Err(Reason::Name)
    }
}

/// The field of MNG.RD that a text's second word names, or NAME.
pub fn field_in(text: &[u8]) -> Result<ReadField, Reason>
    ensures { result ≡ field_of (slice_index_or (words text.now) 1 []) }
{
    let (_, rest) = next_word(text).ok_or(Reason::Name)?;
    let (word, _) = next_word(rest).ok_or(Reason::Name)?;
    field_at(word)
}

/// Which argument of a call, from 0, is an output slot.
pub fn slot_place(call: CallName) -> Option<usize>
    ensures { result ≡ slot_place_of call }
{
    match call {
        CallName::ExportStateImmutable => Some(1),
        CallName::ExportMem => Some(3),
        CallName::ExportTrack => Some(1),
        CallName::ExportStateTd => Some(1),
        CallName::ExportStateVp => Some(2),
        CallName::ImportAbort => Some(1),
        _ => None,
    }
}

fn is_slot(number: u64) -> bool
    ensures { result ≡ is_slot number }
{
    number <= 4095
}

/// The output slot that stands as that argument; 0 where the number there is none.
pub fn slot_at(numbers: &[Option<u64>], i: usize) -> u16
    ensures { result ≡ slot_at numbers.now i }
{
    let number = argument(numbers, i);
    if is_slot(number) { number as u16 } else { 0 }
}

/// Whether the argument at that place, if there is such a place, is an output slot.
pub fn fits_slot(place: Option<usize>, numbers: &[Option<u64>]) -> bool
    ensures { result ≡ fits_slot place numbers.now }
{
    match place {
        None => true,
        Some(i) => is_slot(argument(numbers, i)),
    }
}

/// The marks where no line named an output slot. They stand in the draft, as those of lists do, so a
/// line costs the same behind thousands of bundles.
#[tactic(auto, unfolding(crate::specs::Blocks::none_named))]
pub fn none_named() -> [bool; 4096]
    ensures { result ≡ none_named }
{
    [false; 4096]
}
