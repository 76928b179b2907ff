//! MEM.TRACK at the last epochs.

ghost use Rattle.std.specs.Prelude.{◌≡◌};
ghost use Rattle.leaf_dispatch_rows.specs.declared.benches.TheConstants.{MACHINE};

use crate::benches::{DONE, MACHINE, RUNS, TREE, make};
use std::alloc::{AllocError, Global};
use std::test::Fail;
use step_core::{Bench, PlainBench, WordStep};
use td_words::places::TDCS_EPOCH;
use td_words::{Call, Counter, Reply, Status, word_address};

const TRACK: [Call; 1] = [Call::MemTrack { tdr: 1 }];

const LIMIT: Reply = Reply::Refused(Status::CounterLimit(Counter::TdEpoch));

fn words_of(alloc: Global, bench: &PlainBench) -> Result<Vec<u64>, AllocError>
    requires { bench.now.machine ≡ MACHINE }
{
    let mut words = Vec::new(alloc);
    for at in 0..16_452 {
        words.push(bench.word(at))?;
    }
    Ok(words)
}

#[test]
fn no_epoch_follows_the_last(rt: HostRuntime) -> Result<(), Fail> {
    let Ok(mut bench) = PlainBench::new(rt.alloc(), MACHINE) else {
        panic!(rt; "out of memory")
    };
    make(&rt, rt.alloc(), &mut bench, &TREE, DONE);
    make(&rt, rt.alloc(), &mut bench, &RUNS, DONE);
    let at = word_address(2, TDCS_EPOCH);
    bench.perform(WordStep::Store(at, 4_294_967_294));
    make(&rt, rt.alloc(), &mut bench, &TRACK, DONE);
    assert_eq!(rt; bench.word(at), 4_294_967_295);
    let words = words_of(rt.alloc(), &bench)?;
    make(&rt, rt.alloc(), &mut bench, &TRACK, LIMIT);
    assert_eq!(rt; words_of(rt.alloc(), &bench)?, words);
    Ok(())
}
