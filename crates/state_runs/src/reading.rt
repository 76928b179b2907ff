//! A state, read from a machine's words and of its processors.

ghost use Rattle.std.specs.Prelude.{◌≡◌, ◌++◌, ◌≤◌, OnOk, IfOk, length, map, string_bytes};
ghost use Rattle.leaf_dispatch.specs.States.{seen_of};
ghost use Rattle.state_lines.specs.LpRead.{guest_read, lp_read};
ghost use Rattle.state_runs.specs.Reading.{lps_read, state_read};

use field_lines::Form;
use leaf_dispatch::LpState;
use state_lines::{Holder, push_done, push_guest, push_locks, push_pages, push_translations};
use std::alloc::{AllocError, Global};
use td_words::Call;

// The guest that a logical processor is in, with the locks of what it does.
fn push_guest_of(
    alloc: Global,
    text: &mut String,
    form: Form,
    words: &[u64],
    lp: u8,
    state: &LpState<'_>,
) -> Result<(), AllocError>
    ensures { OnOk result (string_bytes text.new ≡ string_bytes text.old ++ guest_read form words.now lp (seen_of state.now).guest) }
{
    match state.guest() {
        None => Ok(()),
        Some(guest) => {
            push_guest(
                alloc,
                text,
                form,
                lp,
                guest.tdr,
                guest.vp,
                guest.completed,
                guest.most,
            )?;
            push_locks(
                alloc,
                text,
                form,
                words,
                lp,
                Holder::Guest,
                state.step_held(),
            )
        }
    }
}

// A logical processor with so many calls.
fn push_lp(
    alloc: Global,
    text: &mut String,
    form: Form,
    words: &[u64],
    lp: u8,
    calls: u64,
    state: &LpState<'_>,
) -> Result<(), AllocError>
    ensures { OnOk result (string_bytes text.new ≡ string_bytes text.old ++ lp_read form words.now lp calls (seen_of state.now)) }
{
    push_done(alloc, text, form, lp, state.replies().len() as u64, calls)?;
    push_locks(
        alloc,
        text,
        form,
        words,
        lp,
        Holder::Call,
        state.call_held(),
    )?;
    push_guest_of(alloc, text, form, words, lp, state)?;
    push_translations(alloc, text, form, lp, state.cached())
}

fn push_lps(
    alloc: Global,
    text: &mut String,
    form: Form,
    words: &[u64],
    calls: &[Vec<Call>],
    lps: &[LpState<'_>],
) -> Result<(), AllocError>
    requires count { length lps.now ≡ length calls.now }
    requires few { length lps.now ≤ 8 }
    ensures { OnOk result (string_bytes text.new ≡ string_bytes text.old ++ lps_read form words.now (map (λ list. list.items) calls.now) lps.now (length lps.now)) }
{
    for lp in 0..lps.len() {
        push_lp(
            alloc,
            text,
            form,
            words,
            lp as u8,
            calls[lp].len() as u64,
            &lps[lp],
        )?;
    }
    Ok(())
}

/// The text of a state in a form: so many pages, from a machine's words, and its processors with their calls.
pub(crate) fn state_read(
    alloc: Global,
    form: Form,
    pages: u16,
    words: &[u64],
    calls: &[Vec<Call>],
    lps: &[LpState<'_>],
) -> Result<Vec<u8>, AllocError>
    requires count { length lps.now ≡ length calls.now }
    requires few { length lps.now ≤ 8 }
    ensures { IfOk result (λ v. v.items ≡ state_read form pages words.now (map (λ list. list.items) calls.now) lps.now) }
{
    let mut text = String::new(alloc);
    push_pages(alloc, &mut text, form, words, pages)?;
    push_lps(alloc, &mut text, form, words, calls, lps)?;
    Ok(text.into_bytes())
}
