//! Calls of a TD that is exported running. No script comes to a page that was exported yet: the test sets
//! its entry.

ghost use Rattle.std.specs.Prelude.{◌≡◌, ◌<◌, ◌^◌, length};
ghost use Rattle.leaf_dispatch_rows.specs.declared.benches.TheConstants.{MACHINE};

use crate::benches::{DONE, LIVE, MACHINE, PAGES, RUNS, TREE, make};
use std::alloc::Global;
use std::process::Abort;
use std::test::Fail;
use step_core::{Bench, PlainBench, WordStep};
use td_words::places::{TDCS_DIRTIED, TDCS_EPOCH, TDCS_OP, TDCS_STREAM_COUNT, TDCS_UNRESTORED};
use td_words::{
    Call, EntryState, OpState, PageKind, Reply, Status, Value, pamt_address, word_address,
};

/// The second page's entry, once it is exported in migration epoch 3 and blocked for writing.
const EXPORTED: u64 = 8 + 16 * 9 + (3 << 32);

/// The same once it is dirty.
const DIRTY: u64 = 9 + 16 * 9 + (3 << 32);

/// The same once it is blocked for writing again.
const DIRTY_BLOCKED: u64 = 10 + 16 * 9 + (3 << 32);

const TRACK: Call = Call::MemTrack { tdr: 1 };

const PAUSE: Call = Call::ExportPause { tdr: 1 };

const ABORT: Call = Call::ExportAbort { tdr: 1 };

const BLOCK: Call = Call::ExportBlockw { tdr: 1, gpa: 0 };

const BLOCK_SECOND: Call = Call::ExportBlockw { tdr: 1, gpa: 4096 };

const BLOCK_THIRD: Call = Call::ExportBlockw { tdr: 1, gpa: 8192 };

const UNBLOCK: Call = Call::ExportUnblockw { tdr: 1, gpa: 0 };

const UNBLOCK_SECOND: Call = Call::ExportUnblockw { tdr: 1, gpa: 4096 };

const UNBLOCK_THIRD: Call = Call::ExportUnblockw { tdr: 1, gpa: 8192 };

const RESTORE: Call = Call::ExportRestore { tdr: 1, gpa: 0 };

const RESTORE_SECOND: Call = Call::ExportRestore { tdr: 1, gpa: 4096 };

const STREAM: Call = Call::MigStreamCreate { tdr: 1, page: 11 };

const ENTER: Call = Call::VpEnter {
    tdr: 1,
    vp: 4,
    max: 1,
};

/// What EXPORT.BLOCKW and its like answer at an entry in that state.
const AT_MAPPED: Reply = Reply::Refused(Status::EptEntryStateIncorrect(EntryState::Mapped));

const AT_BLOCKED: Reply = Reply::Refused(Status::EptEntryStateIncorrect(EntryState::BlockedW));

const AT_FREE: Reply = Reply::Refused(Status::EptEntryStateIncorrect(EntryState::Free));

const AT_DIRTY: Reply = Reply::Refused(Status::EptEntryStateIncorrect(EntryState::ExportedDirty));

const IN_LIVE: Reply = Reply::Refused(Status::OpStateIncorrect(OpState::LiveExport));

const IN_PAUSED: Reply = Reply::Refused(Status::OpStateIncorrect(OpState::PausedExport));

const IN_RUNNABLE: Reply = Reply::Refused(Status::OpStateIncorrect(OpState::Runnable));

/// A TD that is exported running, with two pages.
fn live_bench(rt: &impl Abort, alloc: Global) -> PlainBench
    ensures { result.machine ≡ MACHINE }
{
    let Ok(mut bench) = PlainBench::new(alloc, MACHINE) else {
        panic!(rt; "out of memory")
    };
    make(rt, alloc, &mut bench, &TREE, DONE);
    make(rt, alloc, &mut bench, &PAGES, DONE);
    make(rt, alloc, &mut bench, &RUNS, DONE);
    make(rt, alloc, &mut bench, &LIVE, DONE);
    bench
}

/// Makes calls one after the other, each of which is to have the reply beside it.
fn make_each(rt: &impl Abort, alloc: Global, bench: &mut PlainBench, calls: &[(Call, Reply)])
    requires { bench.old.machine ≡ MACHINE }
    ensures { bench.new.machine ≡ MACHINE }
{
    for (call, reply) in calls {
        make(rt, alloc, bench, &[*call], *reply);
    }
}

const READ: Call = Call::MemSeptRd {
    tdr: 1,
    gpa: 0,
    level: 0,
};

const READ_SECOND: Call = Call::MemSeptRd {
    tdr: 1,
    gpa: 4096,
    level: 0,
};

const META: Call = Call::PhymemPageRdmd { page: 8 };

const META_SECOND: Call = Call::PhymemPageRdmd { page: 9 };

const FRESH: Reply = Reply::Done(Value::Page {
    kind: PageKind::Reg,
    owner: 1,
    epoch: 0,
});

const NOTED: Reply = Reply::Done(Value::Page {
    kind: PageKind::Reg,
    owner: 1,
    epoch: 1,
});

const NOTED_LATER: Reply = Reply::Done(Value::Page {
    kind: PageKind::Reg,
    owner: 1,
    epoch: 2,
});

const IS_MAPPED: Reply = Reply::Done(Value::Entry {
    state: EntryState::Mapped,
    page: Some(8),
});

const IS_BLOCKED: Reply = Reply::Done(Value::Entry {
    state: EntryState::BlockedW,
    page: Some(8),
});

const SECOND_IS_MAPPED: Reply = Reply::Done(Value::Entry {
    state: EntryState::Mapped,
    page: Some(9),
});

const SECOND_IS_BLOCKED: Reply = Reply::Done(Value::Entry {
    state: EntryState::BlockedW,
    page: Some(9),
});

const SECOND_IS_DIRTY: Reply = Reply::Done(Value::Entry {
    state: EntryState::ExportedDirty,
    page: Some(9),
});

const GIVEN_BACK: [(Call, Reply); 19] = [
    (UNBLOCK, AT_MAPPED),
    (RESTORE, IN_LIVE),
    (META, FRESH),
    (BLOCK, DONE),
    (READ, IS_BLOCKED),
    (READ_SECOND, SECOND_IS_MAPPED),
    (META, NOTED),
    (META_SECOND, FRESH),
    (BLOCK, AT_BLOCKED),
    (BLOCK_THIRD, AT_FREE),
    (TRACK, DONE),
    // The page of the second one notes a later epoch.
    (BLOCK_SECOND, DONE),
    (META, NOTED),
    (META_SECOND, NOTED_LATER),
    (UNBLOCK, DONE),
    (READ, IS_MAPPED),
    (READ_SECOND, SECOND_IS_BLOCKED),
    (META, NOTED),
    (UNBLOCK_THIRD, AT_FREE),
];

#[test]
fn a_page_is_blocked_for_writing_and_given_back(rt: HostRuntime) -> Result<(), Fail> {
    let mut bench = live_bench(&rt, rt.alloc());
    make_each(&rt, rt.alloc(), &mut bench, &GIVEN_BACK);
    assert_eq!(rt; bench.word(word_address(2, TDCS_EPOCH)), 2);
    // The PAMT word is that of a private page of TDR 1.
    assert_eq!(rt; bench.word(pamt_address(9)), 1 + 16 + (2 << 32));
    // A page that was never exported isn't dirty.
    assert_eq!(rt; bench.word(word_address(2, TDCS_DIRTIED)), 0);
    Ok(())
}

const DIRTY_ENDS: [(Call, Reply); 6] = [
    (READ_SECOND, SECOND_IS_DIRTY),
    (UNBLOCK_SECOND, AT_DIRTY),
    (ABORT, DONE),
    (RESTORE_SECOND, DONE),
    (READ_SECOND, SECOND_IS_MAPPED),
    (RESTORE_SECOND, AT_MAPPED),
];

#[test]
fn a_page_that_was_exported_is_dirty_once(rt: HostRuntime) -> Result<(), Fail> {
    let mut bench = live_bench(&rt, rt.alloc());
    let at = word_address(7, 1);
    let dirtied = word_address(2, TDCS_DIRTIED);
    bench.perform(WordStep::Store(at, EXPORTED));
    bench.perform(WordStep::Store(word_address(2, TDCS_UNRESTORED), 1));
    // Each time the entry that is stored, and how many pages are dirtied.
    for (call, word, count) in [
        (UNBLOCK_SECOND, DIRTY, 1_u64),
        (BLOCK_SECOND, DIRTY_BLOCKED, 1),
        (UNBLOCK_SECOND, DIRTY, 1),
    ] {
        make(&rt, rt.alloc(), &mut bench, &[call], DONE);
        assert_eq!(rt; bench.word(at), word);
        assert_eq!(rt; bench.word(dirtied), count);
    }
    make_each(&rt, rt.alloc(), &mut bench, &DIRTY_ENDS);
    // The entry has no mark any more, and both counts are as before the export.
    assert_eq!(rt; bench.word(at), 1 + 16 * 9);
    assert_eq!(rt; bench.word(dirtied), 0);
    assert_eq!(rt; bench.word(word_address(2, TDCS_UNRESTORED)), 0);
    Ok(())
}

const PAUSED_ENDS: [(Call, Reply); 19] = [
    (BLOCK, DONE),
    (PAUSE, DONE),
    (PAUSE, IN_PAUSED),
    (BLOCK_SECOND, IN_PAUSED),
    (UNBLOCK, IN_PAUSED),
    (RESTORE, IN_PAUSED),
    (TRACK, IN_PAUSED),
    (ENTER, IN_PAUSED),
    (STREAM, IN_PAUSED),
    (READ, IS_BLOCKED),
    (ABORT, DONE),
    (ABORT, IN_RUNNABLE),
    (PAUSE, IN_RUNNABLE),
    (UNBLOCK, IN_RUNNABLE),
    (RESTORE_SECOND, AT_MAPPED),
    (RESTORE, DONE),
    (READ, IS_MAPPED),
    (STREAM, DONE),
    (TRACK, DONE),
];

#[test]
fn an_export_is_paused_aborted_and_restored(rt: HostRuntime) -> Result<(), Fail> {
    let mut bench = live_bench(&rt, rt.alloc());
    make_each(&rt, rt.alloc(), &mut bench, &PAUSED_ENDS);
    assert_eq!(rt;
        bench.word(word_address(2, TDCS_OP)),
        OpState::Runnable as u64
    );
    assert_eq!(rt; bench.word(word_address(2, TDCS_STREAM_COUNT)), 2);
    // A page that was never exported is counted nowhere.
    assert_eq!(rt; bench.word(word_address(2, TDCS_DIRTIED)), 0);
    assert_eq!(rt; bench.word(word_address(2, TDCS_UNRESTORED)), 0);
    Ok(())
}
