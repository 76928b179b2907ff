//! A script's run with a thread for each of its processors, and the texts of what they did.

ghost use Rattle.std.specs.Prelude.{◌≡◌, ◌≤◌, true, length, option_map, IfOk, OnOk};
ghost use Rattle.std.specs.List.{All};
ghost use Rattle.script_text.specs.Laws.{IsInForm};
ghost use Rattle.trace_table.specs.Benches.{bench_of, new_bench};
ghost use Rattle.leaf_table.specs.Given.{given_in};
ghost use Rattle.run_texts.specs.Openings.{opening_of};
ghost use Rattle.run_texts.specs.Lanes.{processors_of, benches_of, AreInPlace, has_out, IsOther, with_all};
ghost use Rattle.run_texts.specs.Threaded.{AreOfThreads};

use crate::key_pairs::KeyPair;
use crate::replay::{Texts, all_texts, laws_of_turns, processors};
use leaf_dispatch::{FirstLists, LpState};
use leaf_engine::Gate;
use leaf_table::Given;
use lp_threads::{Lane, run_all};
use script_text::Script;
use std::alloc::Global;
use std::thread::Threads;
use td_words::{Code, OutOfMemory};
use thread_runs::threads_are_runs;
use trace_table::{SharedBench, SharedTable};

// A lane for each processor, in order, at a bench of its own that the first one makes.
fn lanes_at<'t, 'a>(
    alloc: Global,
    states: Vec<LpState<'a>>,
    first: &mut SharedBench<'t>,
) -> Result<Vec<Lane<'t, LpState<'a>>>, OutOfMemory>
    requires few { length states.items ≤ 8 }
    requires first { (bench_of first.old).pass.first ≡ true }
    ensures processors { IfOk result (λ v. processors_of v.items ≡ states.entry.items) }
    ensures numbers { IfOk result (λ v. AreInPlace 0 v.items) }
    ensures benches { IfOk result (λ v. All (λ a. bench_of a.bench ≡ new_bench (bench_of first.old)) v.items) }
    ensures first { OnOk result (bench_of first.new ≡ has_out (bench_of first.old) (length states.entry.items)) }
{
    let Ok(mut lanes) = Vec::with_capacity(alloc, states.len()) else {
        return Err(OutOfMemory);
    };
    for processor in states {
        let lane = Lane {
            lp: lanes.len() as u8,
            processor,
            bench: first.split(),
        };
        let Ok(()) = lanes.push(lane) else {
            return Err(OutOfMemory);
        };
    }
    Ok(lanes)
}

// The processors of lanes, in order. Their benches are taken in, in the same order.
fn taken_in<'t, 'a>(
    alloc: Global,
    lanes: Vec<Lane<'t, LpState<'a>>>,
    first: &mut SharedBench<'t>,
) -> Result<Vec<LpState<'a>>, OutOfMemory>
    requires first { (bench_of first.old).pass.first ≡ true }
    requires others { All (IsOther (bench_of first.old)) (benches_of lanes.items) }
    ensures processors { IfOk result (λ v. v.items ≡ processors_of lanes.entry.items) }
    ensures first { OnOk result (bench_of first.new ≡ with_all (bench_of first.old) (benches_of lanes.entry.items)) }
{
    let Ok(mut states) = Vec::with_capacity(alloc, lanes.len()) else {
        return Err(OutOfMemory);
    };
    for lane in lanes {
        let Lane {
            lp: _,
            processor,
            bench,
        } = lane;
        first.join(bench);
        let Ok(()) = states.push(processor) else {
            return Err(OutOfMemory);
        };
    }
    Ok(states)
}

/// The texts of a script's run with a thread for each of its processors, or as far as threads can be
/// made, with secret words and bundles that come in, with two keys for the bundles that it makes, and
/// with the report key.
/// Each processor runs to the end of its calls; before each of its turns the gate is asked.
pub fn threaded_texts<R: Threads + Sync, G: Gate + Sync>(
    threads: &R,
    alloc: Global,
    script: &Script,
    given: Given<'_>,
    keys: &KeyPair,
    report_key: &[u8; 48],
    out_bundles: Option<&str>,
    guest_out: Option<&str>,
    gate: &G,
) -> Result<Texts, OutOfMemory>
    requires form { IsInForm script.now }
    ensures each { IfOk result (λ t. AreOfThreads (opening_of (given_in given.entry) script.now) keys.now.forward keys.now.backward report_key.now (option_map (λ name. name.now) out_bundles.entry) (option_map (λ name. name.now) guest_out.entry) t) }
{
    laws_of_turns();
    threads_are_runs();
    let codes: &[Code] = &script.codes;
    let first_lists = FirstLists::new(alloc, codes)?;
    let states = processors(
        alloc,
        script.machine,
        codes,
        given,
        &first_lists,
        &script.calls,
    )?;
    let (table, pass) = SharedTable::start(alloc, script.machine)?;
    let mut first = SharedBench::new(&table, pass);
    let mut lanes = lanes_at(alloc, states, &mut first)?;
    run_all(threads, lanes.as_mut_slice(), gate);
    let ended = taken_in(alloc, lanes, &mut first)?;
    let pass = first.into_pass();
    table.close(pass);
    all_texts(
        alloc,
        keys,
        report_key,
        out_bundles,
        guest_out,
        ended.as_slice(),
    )
}
