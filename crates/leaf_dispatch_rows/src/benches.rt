//! A bench on which calls are made, and whose words a test may set.

ghost use Rattle.std.specs.Prelude.{◌≡◌, ◌<◌, ◌^◌, [], length};
ghost use Rattle.leaf_dispatch.specs.FirstLists.{AreFirstLists};
ghost use Rattle.leaf_dispatch_rows.specs.declared.benches.TheConstants.{MACHINE};

use incoming::IncomingBundles;
use leaf_dispatch::{FirstLists, Inputs, LpState};
use leaf_engine::{Event, Place, Processor, Turn};
use leaf_table::Given;
use std::alloc::Global;
use std::process::Abort;
use step_core::PlainBench;
use td_words::{Call, Code, LockName, Machine, Mode, Reply, Value};

/// The machine of these benches.
pub const MACHINE: Machine = Machine {
    lps: 1,
    pages: 32,
    hkids: 1,
};

/// A TD with TDR 1, TDCS 2 and VCPU 0, and with the secure EPT of its first 2 MB.
pub const TREE: [Call; 10] = [
    Call::MngCreate { tdr: 1, hkid: 1 },
    Call::MngKeyConfig { tdr: 1 },
    Call::MngAddcx { tdr: 1, page: 2 },
    Call::MngAddcx { tdr: 1, page: 3 },
    Call::MngInit { tdr: 1 },
    Call::VpCreate { tdr: 1, page: 4 },
    Call::VpInit {
        tdr: 1,
        vp: 4,
        value: 0,
    },
    Call::MemSeptAdd {
        tdr: 1,
        gpa: 0,
        level: 3,
        page: 5,
    },
    Call::MemSeptAdd {
        tdr: 1,
        gpa: 0,
        level: 2,
        page: 6,
    },
    Call::MemSeptAdd {
        tdr: 1,
        gpa: 0,
        level: 1,
        page: 7,
    },
];

/// Private pages 8 and 9 at the first two GPAs.
pub const PAGES: [Call; 2] = [
    Call::MemPageAdd {
        tdr: 1,
        gpa: 0,
        page: 8,
        source: 0,
    },
    Call::MemPageAdd {
        tdr: 1,
        gpa: 4096,
        page: 9,
        source: 0,
    },
];

/// The first processor.
pub const FIRST: Place = Place {
    machine: MACHINE,
    lp: 0,
};

/// The TD may run.
pub const RUNS: [Call; 1] = [Call::MrFinalize { tdr: 1 }];

/// The TD, which runs, has a stream in page 10 and is exported.
pub const LIVE: [Call; 2] = [
    Call::MigStreamCreate { tdr: 1, page: 10 },
    Call::ExportStateImmutable { tdr: 1, slot: 0 },
];

/// A call's success without a value.
pub const DONE: Reply = Reply::Done(Value::Nothing);

/// The try of a lock that is granted.
pub fn granted(lock: LockName, mode: Mode) -> Event {
    Event::Try {
        lock,
        mode,
        granted: true,
    }
}

/// Secret words, each of them 0.
pub fn no_secrets() -> [u64; 512]
    ensures { length result ≡ 512 }
{
    [0; 512]
}

/// Where lists of operations stand.
pub fn first_lists_of(rt: &impl Abort, alloc: Global, codes: &[Code]) -> FirstLists
    ensures { AreFirstLists codes.now result }
{
    let Ok(first_lists) = FirstLists::new(alloc, codes) else {
        panic!(rt; "out of memory")
    };
    first_lists
}

/// Makes a processor's calls, each of which is to have that reply.
pub fn make(rt: &impl Abort, alloc: Global, bench: &mut PlainBench, calls: &[Call], reply: Reply)
    requires machine { bench.old.machine ≡ MACHINE }
    requires few { length calls.now < 2 ^ 32 }
    ensures { bench.new.machine ≡ MACHINE }
{
    let first_lists = first_lists_of(rt, alloc, &[]);
    let secrets = no_secrets();
    let bundles = IncomingBundles::new(alloc);
    make_given(
        rt,
        alloc,
        bench,
        &first_lists,
        &secrets,
        &bundles,
        calls,
        reply,
    );
}

// The same of a processor with these inputs.
fn make_given<'a>(
    rt: &impl Abort,
    alloc: Global,
    bench: &mut PlainBench,
    first_lists: &'a FirstLists,
    secrets: &'a [u64; 512],
    bundles: &'a IncomingBundles,
    calls: &'a [Call],
    reply: Reply,
)
    requires machine { bench.old.machine ≡ MACHINE }
    requires lists { AreFirstLists [] first_lists.now }
    requires few { length calls.now < 2 ^ 32 }
    ensures { bench.new.machine ≡ MACHINE }
{
    let given = Given { secrets, bundles };
    let inputs = Inputs {
        codes: &[],
        first_lists,
        given,
    };
    let Ok(mut lp) = LpState::new(alloc, FIRST, inputs, calls) else {
        panic!(rt; "out of memory")
    };
    while let Turn::Moved(_) = lp.turn(bench) {}
    assert_eq!(rt; lp.replies().len(), calls.len());
    for answer in lp.replies() {
        assert_eq!(rt; *answer, reply);
    }
}
