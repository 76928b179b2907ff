//! A script's run, and its trace.

ghost use Rattle.std.specs.Prelude.{◌≡◌, IfOk};
ghost use Rattle.script_text.specs.Laws.{IsInForm};
ghost use Rattle.leaf_table.specs.Given.{given_in};
ghost use Rattle.trace_lines.specs.Traces.{traces};
ghost use Rattle.run_texts.specs.Openings.{opening_of};

use crate::turns::Telling;
use leaf_dispatch::FirstLists;
use leaf_table::Given;
use run_texts::{laws_of_turns, script_run};
use script_text::Script;
use std::alloc::Global;
use td_words::OutOfMemory;
use trace_lines::{Traced, traces_go_on};

/// The trace of a script's run under its schedule, with secret words and bundles that come in.
pub fn traced_run(
    alloc: Global,
    script: &Script,
    given: Given<'_>,
) -> Result<Vec<Traced>, OutOfMemory>
    requires { IsInForm script.now }
    ensures { IfOk result (λ v. v.items ≡ traces (opening_of (given_in given.entry) script.now) script.now.schedule) }
{
    laws_of_turns();
    traces_go_on();
    let first_lists = FirstLists::new(alloc, &script.codes)?;
    let mut told = Vec::new(alloc);
    let ran = script_run(alloc, script, given, &first_lists, &Telling, &mut told)?;
    if ran.ended {
        Ok(told)
    } else {
        Err(OutOfMemory)
    }
}
