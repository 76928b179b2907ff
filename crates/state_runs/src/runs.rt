//! A script's run, up to an event.

ghost use Rattle.std.specs.Prelude.{◌≡◌, IfOk};
ghost use Rattle.script_text.specs.Laws.{IsInForm};
ghost use Rattle.leaf_table.specs.Given.{given_in};
ghost use Rattle.run_texts.specs.Openings.{opening_of};
ghost use Rattle.state_lines.specs.After.{state_after};
ghost use Rattle.state_lines.specs.StateText.{state_text};

use crate::reading::state_read;
use crate::turns::Counting;
use field_lines::Form;
use flat_core::lawful_law;
use leaf_dispatch::FirstLists;
use leaf_table::Given;
use run_texts::{laws_of_turns, script_run};
use script_text::Script;
use state_lines::{lps_tell, states_go_on, words_tell_pages};
use std::alloc::Global;
use td_words::OutOfMemory;

/// The text, in a form, of the state after the first events of a script's run under its schedule, with
/// secret words and bundles that come in; after all of them where the run has fewer.
pub fn state_lines_after(
    alloc: Global,
    form: Form,
    script: &Script,
    given: Given<'_>,
    events: u64,
) -> Result<Vec<u8>, OutOfMemory>
    requires { IsInForm script.now }
    ensures { IfOk result (λ v. v.items ≡ state_text form (opening_of (given_in given.entry) script.now) (state_after (opening_of (given_in given.entry) script.now) events script.now.schedule)) }
{
    laws_of_turns();
    lawful_law();
    lps_tell();
    states_go_on();
    words_tell_pages();
    let first_lists = FirstLists::new(alloc, &script.codes)?;
    let mut due = events;
    let ran = script_run(
        alloc,
        script,
        given,
        &first_lists,
        &Counting { events },
        &mut due,
    )?;
    let words = ran.words.copied(alloc)?;
    match state_read(
        alloc,
        form,
        script.machine.pages,
        &words,
        &script.calls,
        &ran.lps,
    ) {
        Ok(text) => Ok(text),
        Err(_) => Err(OutOfMemory),
    }
}
