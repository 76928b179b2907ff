//! The bundles that a processor hands out.

ghost use Rattle.std.specs.Prelude.{◌≡◌};
ghost use Rattle.leaf_dispatch_rows.specs.declared.benches.TheConstants.{MACHINE};

use crate::benches::{DONE, FIRST, MACHINE, RUNS, TREE, first_lists_of, make, no_secrets};
use incoming::IncomingBundles;
use leaf_dispatch::{Inputs, LpState};
use leaf_engine::{Processor, Turn};
use leaf_table::Given;
use std::alloc::Global;
use std::process::Abort;
use step_core::{Bench, PlainBench, WordStep};
use td_words::places::{TDCS_RTMRS, VP_POSITION, VP_REGISTERS};
use td_words::{Call, Header, OpState, Reply, Status, word_address};

const STREAM: [Call; 1] = [Call::MigStreamCreate { tdr: 1, page: 10 }];

/// Two sessions, the first of them as far as it comes without the TD's own state.
const CALLS: [Call; 11] = [
    Call::ExportStateTd { tdr: 1, slot: 9 },
    Call::ExportStateImmutable { tdr: 1, slot: 7 },
    Call::ExportTrack {
        tdr: 1,
        slot: 3,
        start: 0,
    },
    Call::ExportPause { tdr: 1 },
    Call::ExportStateVp {
        tdr: 1,
        vp: 4,
        slot: 4095,
    },
    Call::ExportTrack {
        tdr: 1,
        slot: 5,
        start: 1,
    },
    Call::ExportAbort { tdr: 1 },
    Call::ExportStateImmutable { tdr: 1, slot: 0 },
    Call::ExportPause { tdr: 1 },
    Call::ExportStateTd { tdr: 1, slot: 1 },
    Call::ExportStateTd { tdr: 1, slot: 2 },
];

const RUNNABLE: Reply = Reply::Refused(Status::OpStateIncorrect(OpState::Runnable));

const MISSING: Reply = Reply::Refused(Status::StateMissing(1));

const EXPORTED: Reply = Reply::Refused(Status::AlreadyExported);

const REPLIES: [Reply; 11] = [
    RUNNABLE, DONE, DONE, DONE, DONE, MISSING, DONE, DONE, DONE, DONE, EXPORTED,
];

/// A bundle: its slot; of its header the kind, the counter, the epoch, the session, INFO and the total;
/// how many words its payload has; and one of them, with its place.
#[derive(Clone, Copy)]
struct Made {
    slot: u16,
    header: (u8, u32, u32, u16, u32, u64),
    words: usize,
    place: usize,
    word: u64,
}

/// The bundles of these calls, in their order. The first word of MRTD is that of SHA-384 of no bytes.
const MADE: [Made; 5] = [
    Made {
        slot: 7,
        header: (0, 0, 1, 1, 1, 0),
        words: 6,
        place: 0,
        word: 0x3896_ac51_a760_b038,
    },
    Made {
        slot: 3,
        header: (4, 1, 2, 1, 0, 1),
        words: 0,
        place: 0,
        word: 0,
    },
    Made {
        slot: 4095,
        header: (2, 2, 2, 1, 3, 0),
        words: 8,
        place: 7,
        word: 77,
    },
    Made {
        slot: 0,
        header: (0, 0, 1, 2, 1, 0),
        words: 6,
        place: 0,
        word: 0x3896_ac51_a760_b038,
    },
    Made {
        slot: 1,
        header: (1, 1, 1, 2, 0, 0),
        words: 24,
        place: 23,
        word: 99,
    },
];

/// The header of a bundle on stream 0, of VCPU 0 where it is of one, and without a tag.
fn header_of(made: &Made) -> Header {
    let (kind, counter, epoch, session, info, total) = made.header;
    Header {
        size: 64,
        version: 1,
        stream: 0,
        kind,
        reserved: 0,
        counter,
        epoch,
        iv: counter as u64,
        session,
        index: 0,
        info,
        gpa: 0,
        total,
        tag: [0; 16],
    }
}

/// A TD that runs, with a stream, a register of 77 at position 3, and an RTMR that ends with 99.
fn bench_to_export(rt: &impl Abort, alloc: Global) -> PlainBench
    ensures { result.machine ≡ MACHINE }
{
    let Ok(mut bench) = PlainBench::new(alloc, MACHINE) else {
        panic!(rt; "out of memory")
    };
    make(rt, alloc, &mut bench, &TREE, DONE);
    make(rt, alloc, &mut bench, &STREAM, DONE);
    make(rt, alloc, &mut bench, &RUNS, DONE);
    bench.perform(WordStep::Store(word_address(4, VP_REGISTERS + 7), 77));
    bench.perform(WordStep::Store(word_address(4, VP_POSITION), 3));
    bench.perform(WordStep::Store(word_address(2, TDCS_RTMRS + 23), 99));
    bench
}

/// Whether a processor's bundles are these.
fn compare(rt: &impl Abort, lp: &LpState<'_>) {
    let bundles = lp.bundles();
    assert_eq!(rt; bundles.len(), MADE.len());
    for (i, made) in MADE.iter().enumerate() {
        let Some(bundle) = bundles.get(i) else {
            panic!(rt; "no bundle {i}")
        };
        assert_eq!(rt; bundle.slot, made.slot);
        let mut header = bundle.header;
        header.tag = [0; 16];
        assert_eq!(rt; header, header_of(made));
        assert_eq!(rt; bundle.payload.len(), made.words);
        let word = bundle.payload.get(made.place).copied();
        assert_eq!(rt; word.unwrap_or(0), made.word);
    }
}

#[test]
fn bundles_come_as_they_were_made(rt: HostRuntime) {
    let mut bench = bench_to_export(&rt, rt.alloc());
    let first_lists = first_lists_of(&rt, rt.alloc(), &[]);
    let secrets = no_secrets();
    let bundles = IncomingBundles::new(rt.alloc());
    let given = Given {
        secrets: &secrets,
        bundles: &bundles,
    };
    let Ok(mut lp) = LpState::new(
        rt.alloc(),
        FIRST,
        Inputs {
            codes: &[],
            first_lists: &first_lists,
            given,
        },
        &CALLS,
    ) else {
        panic!(rt; "out of memory")
    };
    while let Turn::Moved(_) = lp.turn(&mut bench) {}
    assert_eq!(rt; lp.replies(), REPLIES.as_slice());
    compare(&rt, &lp);
}
