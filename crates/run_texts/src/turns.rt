//! The turns of a script's processors over one bench, before something that looks on.

ghost use Rattle.std.specs.Prelude.{◌≡◌, ℕ, ◌+◌, ◌<◌, false, List, [], ◌++◌, length, None, IfOk};
ghost use Rattle.flat_core.specs.Opening.{Opening};
ghost use Rattle.flat_core.specs.Event.{State, start};
ghost use Rattle.flat_core.specs.Run.{to_the_end};
ghost use Rattle.script_text.specs.Laws.{IsInForm};
ghost use Rattle.leaf_dispatch.specs.FirstLists.{AreFirstLists};
ghost use Rattle.trace_table.specs.Benches.{bench_of};
ghost use Rattle.leaf_table.specs.Given.{given_in};
ghost use Rattle.run_texts.specs.Openings.{opening_of};
ghost use Rattle.run_texts.specs.Replaying.{HaveEnded};
ghost use Rattle.run_texts.specs.Looking.{Looked, SeeksOn, IsLeft, HasGone, HasRun, ended_behind};

use crate::replay::{laws_of_turns, processors};
use leaf_dispatch::{FirstLists, LpState};
use leaf_engine::{Processor, Turn};
use leaf_table::Given;
use script_text::Script;
use std::alloc::Global;
use td_words::{Code, OutOfMemory};
use trace_table::{SharedBench, SharedTable, Words};

/// Something that looks on while a script's processors make their turns, one at a time.
pub trait Onlooker {
    /// What it has seen so far.
    type Seen;

    /// What it seeks of the run of an opening under a schedule, where the run is in this state, and these
    /// are the items from there on.
    ghost seeks: { Self → Self.Seen → Opening → List ℕ → State → List ℕ → Type 0 };

    /// What is so where it has stopped.
    ghost stops: { Self.Seen → Type 0 };

    /// Lets the processor of that number make its turn: whether that made an event. None where no turn
    /// was made, since the onlooker has stopped.
    fn turn(
        &self,
        seen: &mut Self::Seen,
        lp: u8,
        state: &mut LpState<'_>,
        bench: &mut SharedBench<'_>,
    ) -> Option<bool>
        requires { state.old.place.machine ≡ (bench_of bench.old).machine }
        ensures { Looked (seeks self.now) stops lp seen.old state.old bench.old seen.new state.new bench.new result };
}

/// Nobody looks on, and so nobody stops.
pub struct Nobody;

impl Onlooker for Nobody {
    type Seen = ();

    ghost use Rattle.run_texts.specs.Replaying.{LeadsToEnd};

    ghost seeks = { λ w seen. LeadsToEnd };

    ghost stops = { λ seen. ⊥ };

    fn turn(
        &self,
        _seen: &mut (),
        _lp: u8,
        state: &mut LpState<'_>,
        bench: &mut SharedBench<'_>,
    ) -> Option<bool> {
        match state.turn(bench) {
            Turn::Moved(_) => Some(true),
            Turn::Ended => Some(false),
        }
    }
}

// How many processors, from the first one on, are known to have ended, behind a turn that made no event:
// one more where its processor is the next.
fn ended_behind(ended: usize, lp: u8) -> usize
    ensures { result ≡ ended_behind ended lp false }
{
    if usize::from(lp) == ended {
        ended + 1
    } else {
        ended
    }
}

// One turn for each item of the schedule, up to the one behind which all are known to have ended: whether
// the onlooker didn't stop before.
fn follow_schedule<W: Onlooker>(
    script: &Script,
    given: Given<'_>,
    lps: &mut [LpState<'_>],
    bench: &mut SharedBench<'_>,
    onlooker: &W,
    seen: &mut W::Seen,
) -> bool
    requires form { IsInForm script.now }
    requires on { SeeksOn (W.seeks onlooker.now) (opening_of (given_in given) script.now) script.now.schedule }
    requires left { IsLeft (W.seeks onlooker.now) (given_in given) script.now script.now.schedule seen.old lps.old (bench_of bench.old).pass.table bench.old }
    ensures count { length lps.new ≡ length lps.old }
    ensures gone { HasGone (W.seeks onlooker.now) W.stops (given_in given.entry) script.now 0 seen.new lps.new (bench_of bench.old).pass.table bench.new result }
{
    let _secrets = given.secrets;
    laws_of_turns();
    let mut ended = 0;
    for item in 0..script.schedule.len() {
        let lp = script.schedule[item];
        let Some(moved) = onlooker.turn(seen, lp, &mut lps[usize::from(lp)], bench) else {
            return false;
        };
        if !moved {
            ended = ended_behind(ended, lp);
            // Where all have ended the items that are left make no event.
            if ended == lps.len() {
                return true;
            }
        }
    }
    true
}

// The turns of a processor up to its end, where those before it have ended: whether it came there.
fn finish<W: Onlooker>(
    script: &Script,
    given: Given<'_>,
    lps: &mut [LpState<'_>],
    lp: usize,
    bench: &mut SharedBench<'_>,
    onlooker: &W,
    seen: &mut W::Seen,
) -> bool
    requires form { IsInForm script.now }
    requires on { SeeksOn (W.seeks onlooker.now) (opening_of (given_in given) script.now) script.now.schedule }
    requires lp { lp < length lps.old }
    requires ended { HaveEnded lp lps.old }
    requires left { IsLeft (W.seeks onlooker.now) (given_in given) script.now [] seen.old lps.old (bench_of bench.old).pass.table bench.old }
    ensures count { length lps.new ≡ length lps.old }
    ensures gone { HasGone (W.seeks onlooker.now) W.stops (given_in given.entry) script.now (lp + 1) seen.new lps.new (bench_of bench.old).pass.table bench.new result }
{
    let _secrets = given.secrets;
    laws_of_turns();
    loop {
        let Some(moved) = onlooker.turn(seen, lp as u8, &mut lps[lp], bench) else {
            return false;
        };
        if !moved {
            return true;
        }
    }
}

// Each processor to its end, in number order: whether all came there.
fn finish_all<W: Onlooker>(
    script: &Script,
    given: Given<'_>,
    lps: &mut [LpState<'_>],
    bench: &mut SharedBench<'_>,
    onlooker: &W,
    seen: &mut W::Seen,
) -> bool
    requires form { IsInForm script.now }
    requires on { SeeksOn (W.seeks onlooker.now) (opening_of (given_in given) script.now) script.now.schedule }
    requires left { IsLeft (W.seeks onlooker.now) (given_in given) script.now [] seen.old lps.old (bench_of bench.old).pass.table bench.old }
    ensures count { length lps.new ≡ length lps.old }
    ensures gone { HasGone (W.seeks onlooker.now) W.stops (given_in given.entry) script.now (length lps.new) seen.new lps.new (bench_of bench.old).pass.table bench.new result }
{
    for lp in 0..lps.len() {
        if !finish(script, given, lps, lp, bench, onlooker, seen) {
            return false;
        }
    }
    true
}

// The turns of all processors: whether all came to their ends.
fn run_all<W: Onlooker>(
    script: &Script,
    given: Given<'_>,
    lps: &mut [LpState<'_>],
    bench: &mut SharedBench<'_>,
    onlooker: &W,
    seen: &mut W::Seen,
) -> bool
    requires form { IsInForm script.now }
    requires on { SeeksOn (W.seeks onlooker.now) (opening_of (given_in given) script.now) script.now.schedule }
    requires left { IsLeft (W.seeks onlooker.now) (given_in given) script.now script.now.schedule seen.old lps.old (bench_of bench.old).pass.table bench.old }
    ensures count { length lps.new ≡ length lps.old }
    ensures gone { HasGone (W.seeks onlooker.now) W.stops (given_in given.entry) script.now (length lps.new) seen.new lps.new (bench_of bench.old).pass.table bench.new result }
{
    if !follow_schedule(script, given, lps, bench, onlooker, seen) {
        return false;
    }
    finish_all(script, given, lps, bench, onlooker, seen)
}

/// Where a run has brought a script's processors, with the words of its machine: at their ends, or where
/// the onlooker has stopped.
#[derive(Drop)]
pub struct Ran<'a> {
    pub lps: Vec<LpState<'a>>,
    pub words: Words,
    pub ended: bool,
}

/// The run of a script under its schedule before an onlooker: one turn for each item of the schedule, and
/// then each processor to its end, in number order. The memory that they shared has gone back.
pub fn script_run<'a, W: Onlooker>(
    alloc: Global,
    script: &'a Script,
    given: Given<'a>,
    first_lists: &'a FirstLists,
    onlooker: &W,
    seen: &mut W::Seen,
) -> Result<Ran<'a>, OutOfMemory>
    requires form { IsInForm script.now }
    requires first_lists { AreFirstLists script.now.codes first_lists.now }
    requires on { SeeksOn (W.seeks onlooker.now) (opening_of (given_in given) script.now) script.now.schedule }
    requires sought { W.seeks onlooker.now seen.old (opening_of (given_in given) script.now) script.now.schedule (start (opening_of (given_in given) script.now) None) (script.now.schedule ++ to_the_end 0 script.now.calls) }
    ensures { IfOk result (λ r. HasRun (W.seeks onlooker.now) W.stops (opening_of (given_in given.entry) script.now) script.now.schedule seen.new r) }
{
    let codes: &[Code] = &script.codes;
    let mut states = processors(
        alloc,
        script.machine,
        codes,
        given,
        first_lists,
        &script.calls,
    )?;
    let lps = states.as_mut_slice();
    let (table, pass) = SharedTable::start(alloc, script.machine)?;
    let mut bench = SharedBench::new(&table, pass);
    let ended = run_all(script, given, lps, &mut bench, onlooker, seen);
    let pass = bench.into_pass();
    let words = table.close(pass);
    Ok(Ran {
        lps: states,
        words,
        ended,
    })
}
