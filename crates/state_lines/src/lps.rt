//! What logical processors hold and have cached.

ghost use Rattle.std.specs.Prelude.{◌≡◌, ◌++◌, OnOk, map, string_bytes};
ghost use Rattle.std.specs.List.{concat};
ghost use Rattle.state_lines.specs.StateText.{translation_line};
ghost use Rattle.state_lines.specs.LpRead.{lock_read, locks_read};

use crate::lines::{push_cached, push_held};
use crate::seen::Holder;
use crate::words::owner_of;
use field_lines::Form;
use leaf_engine::HeldLock;
use std::alloc::{AllocError, Global};
use tlb_epochs::{Cached, Tlb};

fn push_lock(
    alloc: Global,
    text: &mut String,
    form: Form,
    words: &[u64],
    lp: u8,
    holder: Holder,
    lock: HeldLock,
) -> Result<(), AllocError>
    ensures { OnOk result (string_bytes text.new ≡ string_bytes text.old ++ lock_read form words.now lp holder lock) }
{
    let HeldLock { name, at, mode } = lock;
    let tdr = owner_of(words, (at / 514 % 65536) as u16);
    push_held(alloc, text, form, lp, holder, name, tdr, mode)
}

/// The locks that a logical processor's call holds, or that what its guest does holds.
pub fn push_locks(
    alloc: Global,
    text: &mut String,
    form: Form,
    words: &[u64],
    lp: u8,
    holder: Holder,
    locks: &[HeldLock],
) -> Result<(), AllocError>
    ensures { OnOk result (string_bytes text.new ≡ string_bytes text.old ++ locks_read form words.now lp holder locks.now) }
{
    for i in 0..locks.len() {
        push_lock(alloc, text, form, words, lp, holder, locks[i])?;
    }
    Ok(())
}

fn push_translation(
    alloc: Global,
    text: &mut String,
    form: Form,
    lp: u8,
    cached: &Cached,
) -> Result<(), AllocError>
    ensures { OnOk result (string_bytes text.new ≡ string_bytes text.old ++ translation_line form lp cached.now) }
{
    push_cached(
        alloc,
        text,
        form,
        lp,
        cached.tdr,
        cached.gpa_page,
        cached.page,
        cached.may_write,
    )
}

/// The translations that a logical processor has cached.
pub fn push_translations(
    alloc: Global,
    text: &mut String,
    form: Form,
    lp: u8,
    cached: &Tlb,
) -> Result<(), AllocError>
    ensures { OnOk result (string_bytes text.new ≡ string_bytes text.old ++ concat (map (translation_line form lp) cached.now)) }
{
    let translations = cached.translations();
    for i in 0..translations.len() {
        push_translation(alloc, text, form, lp, &translations[i])?;
    }
    Ok(())
}
