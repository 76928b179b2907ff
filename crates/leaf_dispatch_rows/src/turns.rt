//! What the turns of processors are, event by event, where nothing else is looked at.

ghost use Rattle.std.specs.Prelude.{◌≡◌};
ghost use Rattle.leaf_dispatch_rows.specs.declared.turns.TheConstants.{MACHINE};

use crate::benches::{first_lists_of, no_secrets};
use incoming::IncomingBundles;
use leaf_dispatch::{Inputs, LpState};
use leaf_engine::{Event, Place, Processor, Turn};
use leaf_table::Given;
use std::alloc::Global;
use std::process::Abort;
use step_core::PlainBench;
use td_words::{Call, LockName, Machine, Mode, PageKind, Reply, Status, Value};

const MACHINE: Machine = Machine {
    lps: 2,
    pages: 8,
    hkids: 1,
};

const FIRST: Place = Place {
    machine: MACHINE,
    lp: 0,
};

const SECOND: Place = Place {
    machine: MACHINE,
    lp: 1,
};

const CREATE: Call = Call::MngCreate { tdr: 1, hkid: 1 };

const READ: Call = Call::HostRead { page: 1, word: 0 };

#[test]
fn a_creation_has_five_events(rt: HostRuntime) {
    let calls = [CREATE];
    let Ok(mut bench) = PlainBench::new(rt.alloc(), MACHINE) else {
        panic!(rt; "out of memory")
    };
    let first_lists = first_lists_of(&rt, rt.alloc(), &[]);
    let secrets = no_secrets();
    let bundles = IncomingBundles::new(rt.alloc());
    let given = Given {
        secrets: &secrets,
        bundles: &bundles,
    };
    let Ok(mut lp) = LpState::new(
        rt.alloc(),
        FIRST,
        Inputs {
            codes: &[],
            first_lists: &first_lists,
            given,
        },
        &calls,
    ) else {
        panic!(rt; "out of memory")
    };
    let page = LockName::Page(1);
    let mode = Mode::Exclusive;
    let events = [
        Event::Try {
            lock: page,
            mode,
            granted: true,
        },
        Event::Try {
            lock: LockName::Keys,
            mode,
            granted: true,
        },
        Event::Act,
        Event::Free(LockName::Keys),
        Event::Free(page),
    ];
    for event in events {
        assert!(rt; lp.replies().is_empty());
        assert_eq!(rt; lp.turn(&mut bench), Turn::Moved(event));
    }
    assert_eq!(rt; lp.replies(), [Reply::Done(Value::Nothing)].as_slice());
    assert_eq!(rt; lp.turn(&mut bench), Turn::Ended);
    assert_eq!(rt; lp.replies().len(), 1);
}

#[test]
fn each_call_is_made_by_its_leaf(rt: HostRuntime) {
    let calls = [
        Call::HostWrite {
            page: 2,
            word: 3,
            value: 9,
        },
        Call::HostRead { page: 2, word: 3 },
        Call::PhymemPageRdmd { page: 2 },
        CREATE,
        READ,
        Call::PhymemPageRdmd { page: 1 },
    ];
    let Ok(mut bench) = PlainBench::new(rt.alloc(), MACHINE) else {
        panic!(rt; "out of memory")
    };
    let first_lists = first_lists_of(&rt, rt.alloc(), &[]);
    let secrets = no_secrets();
    let bundles = IncomingBundles::new(rt.alloc());
    let given = Given {
        secrets: &secrets,
        bundles: &bundles,
    };
    let Ok(mut lp) = LpState::new(
        rt.alloc(),
        SECOND,
        Inputs {
            codes: &[],
            first_lists: &first_lists,
            given,
        },
        &calls,
    ) else {
        panic!(rt; "out of memory")
    };
    while let Turn::Moved(_) = lp.turn(&mut bench) {}
    let replies = [
        Reply::Done(Value::Nothing),
        Reply::Done(Value::Number(9)),
        Reply::Done(Value::Page {
            kind: PageKind::Nda,
            owner: 0,
            epoch: 0,
        }),
        Reply::Done(Value::Nothing),
        Reply::Done(Value::Number(0)),
        Reply::Done(Value::Page {
            kind: PageKind::Tdr,
            owner: 1,
            epoch: 0,
        }),
    ];
    assert_eq!(rt; lp.replies(), replies.as_slice());
}

#[test]
fn a_lock_that_another_holds_is_busy(rt: HostRuntime) {
    let Ok(mut bench) = PlainBench::new(rt.alloc(), MACHINE) else {
        panic!(rt; "out of memory")
    };
    let (creation, read) = ([CREATE], [READ]);
    let first_lists = first_lists_of(&rt, rt.alloc(), &[]);
    let secrets = no_secrets();
    let bundles = IncomingBundles::new(rt.alloc());
    let given = Given {
        secrets: &secrets,
        bundles: &bundles,
    };
    meet(
        &rt,
        rt.alloc(),
        &mut bench,
        Inputs {
            codes: &[],
            first_lists: &first_lists,
            given,
        },
        &creation,
        &read,
    );
}

// The first processor holds the page's lock, so that the second is denied it.
fn meet<'a>(
    rt: &impl Abort,
    alloc: Global,
    bench: &mut PlainBench,
    inputs: Inputs<'a>,
    creation: &'a [Call; 1],
    read: &'a [Call; 1],
)
    requires { bench.old.machine ≡ MACHINE }
{
    let Ok(mut first) = LpState::new(alloc, FIRST, inputs, creation) else {
        panic!(rt; "out of memory")
    };
    let Ok(mut second) = LpState::new(alloc, SECOND, inputs, read) else {
        panic!(rt; "out of memory")
    };
    let lock = LockName::Page(1);
    let denied = Event::Try {
        lock,
        mode: Mode::Shared,
        granted: false,
    };
    first.turn(bench);
    assert_eq!(rt; second.turn(bench), Turn::Moved(denied));
    assert_eq!(rt; second.turn(bench), Turn::Moved(Event::Undo(lock)));
    let busy = Reply::Refused(Status::OperandBusy(lock));
    assert_eq!(rt; second.replies(), [busy].as_slice());
    assert!(rt; first.replies().is_empty());
}
