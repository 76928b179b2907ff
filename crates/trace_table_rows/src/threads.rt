//! Two threads, each at a bench of one table.

ghost use Rattle.std.specs.Prelude.{◌≡◌, ◌<◌};
ghost use Rattle.step_core.specs.Words.{word_count};
ghost use Rattle.trace_table.specs.Benches.{bench_of};

use std::thread::join_mut;
use step_core::{Bench, WordStep};
use td_words::Machine;
use trace_table::{SharedBench, SharedTable};

const MACHINE: Machine = Machine {
    lps: 2,
    pages: 8,
    hkids: 1,
};

// Adds 1 to the last word, so many times.
fn raise(bench: &mut SharedBench<'_>, times: u32)
    requires { 4115 < word_count (bench_of bench.old).machine }
    ensures table { (bench_of bench.new).pass.table ≡ (bench_of bench.old).pass.table }
    ensures first { (bench_of bench.new).pass.first ≡ (bench_of bench.old).pass.first }
    ensures out { (bench_of bench.new).pass.out ≡ (bench_of bench.old).pass.out }
{
    for _ in 0..times {
        bench.perform(WordStep::Add(4_115, 1));
    }
}

#[test]
fn no_step_of_two_threads_is_lost(rt: HostRuntime) {
    let Ok((table, pass)) = SharedTable::start(rt.alloc(), MACHINE) else {
        panic!(rt; "out of memory")
    };
    let mut first = SharedBench::new(&table, pass);
    let mut other = first.split();
    join_mut(
        &rt,
        &mut || raise(&mut first, 20_000),
        &mut || raise(&mut other, 30_000),
    );
    first.join(other);
    let pass = first.into_pass();
    let Ok(closed) = table.close(pass).copied(rt.alloc()) else {
        panic!(rt; "out of memory")
    };
    assert_eq!(rt; closed[4_115], 50_000);
}
