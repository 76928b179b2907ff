//! A table that no thread shares any more.

ghost use Rattle.std.specs.Prelude.{◌≡◌, ◌≤◌, drop, IfOk};
ghost use Rattle.std.specs.Slots.{slots_items, slots_len, IsFull};
ghost use Rattle.trace_table.specs.Views.{guards};

use crate::tables::GUARDS;
use crate::told::Ended;
use std::alloc::{AllocError, Global};

/// A copy of the words behind the guard words.
pub(crate) fn machine_words(ended: &Ended, alloc: Global) -> Result<Vec<u64>, AllocError>
    requires full { IsFull ended.now.words }
    requires room { guards ≤ slots_len ended.now.words }
    ensures { IfOk result (λ v. v.items ≡ drop guards (slots_items ended.now.words)) }
{
    let count = ended.words.len() - GUARDS;
    let mut words = Vec::with_capacity(alloc, count)?;
    for at in 0..count {
        words.push(ended.word(GUARDS + at))?;
    }
    Ok(words)
}

/// Lets go of the hashers, and gives the memory back.
pub(crate) fn drop_slots(mut ended: Ended)
    requires { IsFull ended.slots }
{
    for slot in 0..ended.slot_count() {
        drop(ended.take(slot));
    }
    ended.free();
}
