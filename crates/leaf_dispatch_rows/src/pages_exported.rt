//! Pages that are exported: their bundles, what refuses them, and the locks on the way.

ghost use Rattle.std.specs.Prelude.{◌≡◌, ◌<◌, ◌^◌, [], length};
ghost use Rattle.leaf_dispatch.specs.FirstLists.{AreFirstLists};
ghost use Rattle.leaf_dispatch_rows.specs.declared.benches.TheConstants.{MACHINE};

use crate::benches::{
    DONE, FIRST, MACHINE, PAGES, RUNS, TREE, first_lists_of, granted, make, no_secrets,
};
use bundles::Bundle;
use incoming::IncomingBundles;
use leaf_dispatch::{FirstLists, Inputs, LpState};
use leaf_engine::{Event, Processor, Turn};
use leaf_table::Given;
use std::alloc::Global;
use std::process::Abort;
use step_core::{Bench, PlainBench, WordStep};
use td_words::places::{STREAM_CLEANED, STREAM_COUNTER, STREAM_FIRST_EXPORTS, TDCS_DIRTIED};
use td_words::{
    Call, Counter, EntryState, Header, LockName, Mode, OpState, Reply, Status, word_address,
};

/// Two streams, on which a session begins.
const BEGINS: [Call; 3] = [
    Call::MigStreamCreate { tdr: 1, page: 10 },
    Call::MigStreamCreate { tdr: 1, page: 11 },
    Call::ExportStateImmutable { tdr: 1, slot: 0 },
];

const BLOCK: Call = Call::ExportBlockw { tdr: 1, gpa: 0 };

const BLOCK_SECOND: Call = Call::ExportBlockw { tdr: 1, gpa: 4096 };

const UNBLOCK: Call = Call::ExportUnblockw { tdr: 1, gpa: 0 };

const TRACK: Call = Call::MemTrack { tdr: 1 };

const PAUSE: Call = Call::ExportPause { tdr: 1 };

const ABORT: Call = Call::ExportAbort { tdr: 1 };

const TOKEN: Call = Call::ExportTrack {
    tdr: 1,
    slot: 6,
    start: 0,
};

const UNTRACKED: Reply = Reply::Refused(Status::TlbTrackingNotDone);

const THIS_EPOCH: Reply = Reply::Refused(Status::ExportedThisEpoch);

/// What EXPORT.MEM answers at an entry in that state.
fn at(state: EntryState) -> Reply {
    Reply::Refused(Status::EptEntryStateIncorrect(state))
}

fn invalid(operand: u8) -> Reply {
    Reply::Refused(Status::OperandInvalid(operand))
}

/// EXPORT.MEM of a TD's page at a GPA, on a stream.
fn export(tdr: u64, gpa: u64, stream: u64, slot: u16) -> Call {
    Call::ExportMem {
        tdr,
        gpa,
        stream,
        slot,
    }
}

/// The bundle of a page: its place among those of its processor; its slot, stream, counter, migration epoch
/// and GPA; and its first word.
#[derive(Clone, Copy)]
struct Made {
    place: usize,
    slot: u16,
    stream: u16,
    counter: u32,
    epoch: u32,
    gpa: u64,
    word: u64,
}

/// The header of such a bundle, without a tag.
fn header_of(made: &Made) -> Header {
    Header {
        size: 64,
        version: 1,
        stream: made.stream,
        kind: 3,
        reserved: 0,
        counter: made.counter,
        epoch: made.epoch,
        iv: made.counter as u64,
        session: 1,
        index: 0,
        info: 0,
        gpa: made.gpa,
        total: 0,
        tag: [0; 16],
    }
}

/// The word at that place of a page that begins so: each is 0 but for the first one, and the last one, which
/// is as large.
fn word_at(place: usize, first: u64) -> u64 {
    match place {
        0 | 511 => first,
        _ => 0,
    }
}

/// Whether a bundle is that one.
fn compare(rt: &impl Abort, bundle: Bundle<'_>, made: &Made) {
    assert_eq!(rt; bundle.slot, made.slot);
    let mut header = bundle.header;
    header.tag = [0; 16];
    assert_eq!(rt; header, header_of(made));
    assert_eq!(rt; bundle.payload.len(), 512);
    for (i, word) in bundle.payload.iter().enumerate() {
        assert_eq!(rt; *word, word_at(i, made.word));
    }
}

/// A TD that is exported running, with two pages, each with a word at its begin and at its end.
fn bench_with_pages(rt: &impl Abort, alloc: Global) -> PlainBench
    ensures { result.machine ≡ MACHINE }
{
    let Ok(mut bench) = PlainBench::new(alloc, MACHINE) else {
        panic!(rt; "out of memory")
    };
    make(rt, alloc, &mut bench, &TREE, DONE);
    make(rt, alloc, &mut bench, &PAGES, DONE);
    make(rt, alloc, &mut bench, &RUNS, DONE);
    make(rt, alloc, &mut bench, &BEGINS, DONE);
    bench.perform(WordStep::Store(word_address(8, 0), 70));
    bench.perform(WordStep::Store(word_address(8, 511), 70));
    bench.perform(WordStep::Store(word_address(9, 0), 80));
    bench.perform(WordStep::Store(word_address(9, 511), 80));
    bench
}

/// Makes a processor's calls, and compares their replies, and the bundles of pages that they made.
fn make_all(
    rt: &impl Abort,
    alloc: Global,
    bench: &mut PlainBench,
    calls: &[Call],
    replies: &[Reply],
    made: &[Made],
)
    requires machine { bench.old.machine ≡ MACHINE }
    requires few { length calls.now < 2 ^ 32 }
    ensures { bench.new.machine ≡ MACHINE }
{
    let first_lists = first_lists_of(rt, alloc, &[]);
    let secrets = no_secrets();
    let bundles = IncomingBundles::new(alloc);
    make_given(
        rt,
        alloc,
        bench,
        &first_lists,
        &secrets,
        &bundles,
        calls,
        replies,
        made,
    );
}

// The same of a processor with these inputs.
fn make_given<'a>(
    rt: &impl Abort,
    alloc: Global,
    bench: &mut PlainBench,
    first_lists: &'a FirstLists,
    secrets: &'a [u64; 512],
    bundles: &'a IncomingBundles,
    calls: &'a [Call],
    replies: &[Reply],
    made: &[Made],
)
    requires machine { bench.old.machine ≡ MACHINE }
    requires lists { AreFirstLists [] first_lists.now }
    requires few { length calls.now < 2 ^ 32 }
    ensures { bench.new.machine ≡ MACHINE }
{
    let given = Given { secrets, bundles };
    let inputs = Inputs {
        codes: &[],
        first_lists,
        given,
    };
    let Ok(mut lp) = LpState::new(alloc, FIRST, inputs, calls) else {
        panic!(rt; "out of memory")
    };
    while let Turn::Moved(_) = lp.turn(bench) {}
    assert_eq!(rt; lp.replies(), replies);
    for each in made {
        let place = each.place;
        let Some(bundle) = lp.bundles().get(place) else {
            panic!(rt; "no bundle {place}")
        };
        compare(rt, bundle, each);
    }
}

#[test]
fn a_running_tds_page_is_blocked_and_tracked_first(rt: HostRuntime) {
    let mut bench = bench_with_pages(&rt, rt.alloc());
    let calls = [
        export(1, 0, 0, 1),
        BLOCK,
        export(1, 0, 1, 2),
        TRACK,
        export(1, 0, 1, 3),
        export(1, 0, 1, 4),
        UNBLOCK,
        export(1, 0, 0, 5),
        BLOCK,
        TRACK,
        export(1, 0, 0, 7),
        TOKEN,
        export(1, 0, 0, 8),
        BLOCK_SECOND,
        export(1, 4096, 1, 9),
        TRACK,
        export(1, 4096, 1, 10),
    ];
    let replies = [
        at(EntryState::Mapped),
        DONE,
        UNTRACKED,
        DONE,
        DONE,
        at(EntryState::ExportedBlockedW),
        DONE,
        at(EntryState::ExportedDirty),
        DONE,
        DONE,
        THIS_EPOCH,
        DONE,
        DONE,
        DONE,
        UNTRACKED,
        DONE,
        DONE,
    ];
    make_all(&rt, rt.alloc(), &mut bench, &calls, &replies, &RUNNING);
    // Of each stream how many bundles it has, how many dirty pages it cleaned, and how many pages it first
    // exported.
    assert_eq!(rt; bench.word(word_address(10, STREAM_COUNTER)), 3);
    assert_eq!(rt; bench.word(word_address(10, STREAM_CLEANED)), 1);
    assert_eq!(rt; bench.word(word_address(10, STREAM_FIRST_EXPORTS)), 0);
    assert_eq!(rt; bench.word(word_address(11, STREAM_COUNTER)), 2);
    assert_eq!(rt; bench.word(word_address(11, STREAM_CLEANED)), 0);
    assert_eq!(rt; bench.word(word_address(11, STREAM_FIRST_EXPORTS)), 2);
    assert_eq!(rt; bench.word(word_address(2, TDCS_DIRTIED)), 1);
}

/// The bundles of pages among those of these calls. The second one of all is a token's.
const RUNNING: [Made; 3] = [
    Made {
        place: 0,
        slot: 3,
        stream: 1,
        counter: 0,
        epoch: 1,
        gpa: 0,
        word: 70,
    },
    Made {
        place: 2,
        slot: 8,
        stream: 0,
        counter: 2,
        epoch: 2,
        gpa: 0,
        word: 70,
    },
    Made {
        place: 3,
        slot: 10,
        stream: 1,
        counter: 1,
        epoch: 2,
        gpa: 4096,
        word: 80,
    },
];

#[test]
fn a_paused_tds_page_needs_no_block(rt: HostRuntime) {
    let mut bench = bench_with_pages(&rt, rt.alloc());
    let calls = [
        PAUSE,
        export(32, 0, 0, 1),
        export(1, 1 << 47, 4, 1),
        export(1, 1, 4, 1),
        export(1, 1, 0, 1),
        export(8, 0, 0, 1),
        export(1, 0, 2, 1),
        export(1, 1 << 21, 0, 1),
        export(1, 8192, 0, 1),
        export(1, 0, 0, 1),
        export(1, 0, 0, 2),
        export(1, 4096, 0, 3),
        ABORT,
        export(1, 4096, 0, 4),
    ];
    let replies = [
        DONE,
        invalid(1),
        invalid(2),
        invalid(3),
        invalid(2),
        Reply::Refused(Status::PageMetadataIncorrect(8)),
        Reply::Refused(Status::NoStream(2)),
        Reply::Refused(Status::EptWalkFailed(1)),
        at(EntryState::Free),
        DONE,
        at(EntryState::ExportedBlockedW),
        DONE,
        DONE,
        Reply::Refused(Status::OpStateIncorrect(OpState::Runnable)),
    ];
    make_all(&rt, rt.alloc(), &mut bench, &calls, &replies, &PAUSED);
}

const PAUSED: [Made; 2] = [
    Made {
        place: 0,
        slot: 1,
        stream: 0,
        counter: 1,
        epoch: 1,
        gpa: 0,
        word: 70,
    },
    Made {
        place: 1,
        slot: 3,
        stream: 0,
        counter: 2,
        epoch: 1,
        gpa: 4096,
        word: 80,
    },
];

#[test]
fn a_stream_has_a_last_bundle(rt: HostRuntime) {
    let mut bench = bench_with_pages(&rt, rt.alloc());
    let last: u64 = 0xffff_fffe;
    bench.perform(WordStep::Store(word_address(11, STREAM_COUNTER), last));
    let calls = [PAUSE, export(1, 0, 1, 1), export(1, 4096, 1, 2)];
    let replies = [
        DONE,
        DONE,
        Reply::Refused(Status::CounterLimit(Counter::Mb)),
    ];
    let made = [Made {
        place: 0,
        slot: 1,
        stream: 1,
        counter: 0xffff_fffe,
        epoch: 1,
        gpa: 0,
        word: 70,
    }];
    make_all(&rt, rt.alloc(), &mut bench, &calls, &replies, &made);
}

#[test]
fn an_export_of_a_page_has_thirteen_events(rt: HostRuntime) {
    let mut bench = bench_with_pages(&rt, rt.alloc());
    make(&rt, rt.alloc(), &mut bench, &[PAUSE], DONE);
    let calls = [export(1, 4096, 0, 1)];
    let first_lists = first_lists_of(&rt, rt.alloc(), &[]);
    let secrets = no_secrets();
    let bundles = IncomingBundles::new(rt.alloc());
    let given = Given {
        secrets: &secrets,
        bundles: &bundles,
    };
    let Ok(mut lp) = LpState::new(
        rt.alloc(),
        FIRST,
        Inputs {
            codes: &[],
            first_lists: &first_lists,
            given,
        },
        &calls,
    ) else {
        panic!(rt; "out of memory")
    };
    let events = [
        granted(LockName::Page(1), Mode::Shared),
        granted(LockName::Op, Mode::Shared),
        granted(LockName::Tree, Mode::Shared),
        granted(LockName::Epoch, Mode::Shared),
        granted(LockName::Page(9), Mode::Exclusive),
        granted(LockName::Page(10), Mode::Exclusive),
        Event::Act,
        Event::Free(LockName::Page(10)),
        Event::Free(LockName::Page(9)),
        Event::Free(LockName::Epoch),
        Event::Free(LockName::Tree),
        Event::Free(LockName::Op),
        Event::Free(LockName::Page(1)),
    ];
    for event in events {
        // Its bundle is out with the last one, and not at the act.
        assert_eq!(rt; lp.bundles().len(), 0);
        assert_eq!(rt; lp.turn(&mut bench), Turn::Moved(event));
    }
    assert_eq!(rt; lp.bundles().len(), 1);
    assert_eq!(rt; lp.replies(), [DONE].as_slice());
    assert_eq!(rt; lp.turn(&mut bench), Turn::Ended);
}
