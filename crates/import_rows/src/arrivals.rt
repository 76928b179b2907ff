//! The destination of a migration, from the session's beginning to a TD that runs.

use crate::sources::{LATER, SOURCE, arrive, sent, with_bundles};
use row_replay::{ArrivalRow, Asked, FILLED, GUEST, OPENED, STARTED, WAITS, replay_asked};
use std::test::Fail;

// The whole destination: its guest goes on where the source's has stopped.
const WORKED: &[Asked<'static>] = &[
    (
        "replay s --keys k --bundles c --guest-out g ; run s --keys k --bundles c --guest-out g",
        "1 32 1",
        (
            "",
            &[GUEST],
            &[&[
                WAITS,
                OPENED,
                FILLED,
                STARTED,
                "SUCCESS | IMPORT.COMMIT 1",
                "EXIT VMCALL 33 | VP.ENTER 1 4 10",
                "SUCCESS | IMPORT.END 1",
            ]],
            "0.21 load 0x0 44 | 0.21 load 0x1000 22 | 0.21 load 0x2000 33",
        ),
    ),
    // A report at the destination: MRTD and RTMRs came over, and registers.
    (
        "replay s --keys k --bundles c --guest-out g --report-key r ; run s --keys k --bundles c --guest-out g --report-key r",
        "1 32 1",
        (
            "",
            &[
                "1 0 | set 1 44 | store 1 0 | load 2 0 | load 2 4096 | load 2 8192 | report | vmcall 2",
            ],
            &[&[
                WAITS,
                OPENED,
                FILLED,
                STARTED,
                "SUCCESS | IMPORT.COMMIT 1",
                "EXIT VMCALL 33 | VP.ENTER 1 4 10",
                "SUCCESS | IMPORT.END 1",
            ]],
            "0.21 load 0x0 44 | 0.21 load 0x1000 22 | 0.21 load 0x2000 33 | 0.21 report 54445852455030312\
                b7edb784e77a7d6c4406aebf9118fa24b80b26d7f18fe893b7282758fb65f69c018d14a8d8c221f057b588f6f8c8\
                1a200000000000000000000000000000000000000000000000000000000000000000000000000000000000000000\
                00000000000000000000000000000000000000000000000000000000000000000000000000000000000000000000\
                00000000000000000000000000000000000000000000000000000000000000000000000000000000000000000000\
                00000000000000000000000000000000000000000000000000000000000000000000000000000000000000000000\
                000000000000000000000000000000000002c0000000000000021000000000000000000000000000000000000000\
                0000000000000000000000000000000000000000000000000000000a1ed673524711225869ed55f306b6756f8897\
                52367ead48bdc7c65f67e4565236389849525490a95a1bf37186dcdbee9",
        ),
    ),
];

const ROWS: &[ArrivalRow<'static>] = &[
    // What the TD has then: MRTD, its epoch, the pages that each entry names; and a page that is
    // replaced stays.
    (
        &[],
        (
            "",
            &[GUEST],
            &[&[
                WAITS,
                OPENED,
                "SUCCESS MEMORY_IMPORT | MNG.RD 1 OP",
                "SUCCESS 1 | MNG.RD 1 EPOCH",
                "SUCCESS 2b7edb784e77a7d6c4406aebf9118fa24b80b26d7f18fe893b7282758fb65f69c018d14a8d8c221f057b588f6f8c81a2 \
                        | MNG.RD 1 MRTD",
                "SUCCESS | IMPORT.MEM 1 1 8",
                "SUCCESS MAPPED 8 | MEM.SEPT.RD 1 0 0",
                "SUCCESS PT_REG 1 0 | PHYMEM.PAGE.RDMD 8",
                "SUCCESS 0 | HOST.READ 8 0",
                "SUCCESS | IMPORT.TRACK 1 2 | IMPORT.MEM 1 3 13",
                "SUCCESS MAPPED 8 | MEM.SEPT.RD 1 0 0",
                "SUCCESS PT_NDA 0 0 | PHYMEM.PAGE.RDMD 13",
                "SUCCESS | IMPORT.MEM 1 4 9 | IMPORT.MEM 1 5 10",
                STARTED,
                "SUCCESS POST_IMPORT | MNG.RD 1 OP",
                "SUCCESS | IMPORT.COMMIT 1",
                "SUCCESS LIVE_IMPORT | MNG.RD 1 OP",
                "EXIT MAX | VP.ENTER 1 4 1",
                "SUCCESS | IMPORT.END 1",
                "SUCCESS RUNNABLE | MNG.RD 1 OP",
                "SUCCESS 1 | MNG.RD 1 EPOCH",
                "EXIT MAX | VP.ENTER 1 4 1",
                "EXIT VMCALL 33 | VP.ENTER 1 4 9",
            ]],
            "0.31 load 0x0 44 | 0.35 load 0x1000 22 | 0.36 load 0x2000 33",
        ),
    ),
    // The tree in another order, with other pages and a branch more; the streams of an epoch in
    // another order too.
    (
        &[],
        (
            "",
            &[GUEST],
            &[&[
                WAITS,
                "SUCCESS | IMPORT.STATE.IMMUTABLE 1 0 | MEM.SEPT.ADD 1 0 3 30 \
                        | MEM.SEPT.ADD 1 0x40000000 2 29 | MEM.SEPT.ADD 1 0 2 28 \
                        | MEM.SEPT.ADD 1 0x200000 1 27 | MEM.SEPT.ADD 1 0 1 26 \
                        | IMPORT.MEM 1 1 25 | IMPORT.TRACK 1 2 | IMPORT.MEM 1 4 24 \
                        | IMPORT.MEM 1 5 8 | VP.CREATE 1 9 | IMPORT.MEM 1 3 31 \
                        | IMPORT.STATE.TD 1 6 | IMPORT.STATE.VP 1 9 7 | IMPORT.TRACK 1 8",
                "SUCCESS MAPPED 25 | MEM.SEPT.RD 1 0 0",
                "SUCCESS MAPPED 24 | MEM.SEPT.RD 1 4096 0",
                "SUCCESS MAPPED 8 | MEM.SEPT.RD 1 8192 0",
                "SUCCESS | IMPORT.COMMIT 1",
                "EXIT VMCALL 33 | VP.ENTER 1 9 10",
                "SUCCESS | IMPORT.END 1",
            ]],
            "0.26 load 0x0 44 | 0.26 load 0x1000 22 | 0.26 load 0x2000 33",
        ),
    ),
    // A TD that came in has all that a running TD has: memory is added, blocked and removed, and
    // it is exported again.
    (
        &[],
        (
            "",
            &[GUEST],
            &[&[
                WAITS,
                OPENED,
                FILLED,
                STARTED,
                "SUCCESS | IMPORT.COMMIT 1",
                "OP_STATE_INCORRECT LIVE_IMPORT | MEM.PAGE.AUG 1 12288 14 \
                        | EXPORT.STATE.IMMUTABLE 1 39 | MEM.TRACK 1",
                "SUCCESS | MEM.SEPT.ADD 1 0x200000 1 14 | IMPORT.END 1 \
                        | MEM.PAGE.AUG 1 12288 15 | MEM.RANGE.BLOCK 1 4096 0 | MEM.TRACK 1 \
                        | MEM.PAGE.REMOVE 1 4096",
                "SUCCESS 0 | HOST.READ 9 0",
                "SUCCESS | EXPORT.STATE.IMMUTABLE 1 40",
                "EXIT EPT_VIOLATION 0x1000 READ | VP.ENTER 1 4 9",
                "SUCCESS | EXPORT.BLOCKW 1 0 | MEM.TRACK 1 | EXPORT.MEM 1 0 1 41 \
                        | EXPORT.PAUSE 1 | EXPORT.MEM 1 8192 0 42 | EXPORT.STATE.TD 1 43 \
                        | EXPORT.STATE.VP 1 4 44 | EXPORT.TRACK 1 45 1",
                "SUCCESS POST_EXPORT | MNG.RD 1 OP",
            ]],
            "0.32 load 0x0 44",
        ),
    ),
    // A TD that came in is ended as any other, and so is one whose import isn't done.
    (
        &[],
        (
            "",
            &[GUEST],
            &[&[
                WAITS,
                OPENED,
                FILLED,
                STARTED,
                "SUCCESS | IMPORT.COMMIT 1",
                "EXIT VMCALL 33 | VP.ENTER 1 4 10",
                "SUCCESS | IMPORT.END 1 | VP.FLUSH 1 4 | MNG.VPFLUSHDONE 1 \
                        | PHYMEM.CACHE.WB | MNG.KEY.FREEID 1 | PHYMEM.PAGE.RECLAIM 1 2 \
                        | PHYMEM.PAGE.RECLAIM 1 3 | PHYMEM.PAGE.RECLAIM 1 4 \
                        | PHYMEM.PAGE.RECLAIM 1 5 | PHYMEM.PAGE.RECLAIM 1 6 \
                        | PHYMEM.PAGE.RECLAIM 1 7 | PHYMEM.PAGE.RECLAIM 1 8 \
                        | PHYMEM.PAGE.RECLAIM 1 9 | PHYMEM.PAGE.RECLAIM 1 10 \
                        | PHYMEM.PAGE.RECLAIM 1 11 | PHYMEM.PAGE.RECLAIM 1 12 \
                        | PHYMEM.PAGE.RECLAIM 1 1",
                "SUCCESS 0 | HOST.READ 8 0",
                "SUCCESS PT_NDA 0 0 | PHYMEM.PAGE.RDMD 8",
            ]],
            "0.21 load 0x0 44 | 0.21 load 0x1000 22 | 0.21 load 0x2000 33",
        ),
    ),
    (
        &[],
        (
            "",
            &[GUEST],
            &[&[
                WAITS,
                OPENED,
                "SUCCESS | IMPORT.MEM 1 1 8 | MNG.VPFLUSHDONE 1",
                "LIFECYCLE_STATE_INCORRECT TD_BLOCKED | IMPORT.TRACK 1 2",
                "SUCCESS | PHYMEM.CACHE.WB | MNG.KEY.FREEID 1",
                "LIFECYCLE_STATE_INCORRECT TD_TEARDOWN | IMPORT.TRACK 1 2",
                "SUCCESS | PHYMEM.PAGE.RECLAIM 1 8 | PHYMEM.PAGE.RECLAIM 1 2 \
                        | PHYMEM.PAGE.RECLAIM 1 3 | PHYMEM.PAGE.RECLAIM 1 4 \
                        | PHYMEM.PAGE.RECLAIM 1 5 | PHYMEM.PAGE.RECLAIM 1 6 \
                        | PHYMEM.PAGE.RECLAIM 1 7 | PHYMEM.PAGE.RECLAIM 1 11 \
                        | PHYMEM.PAGE.RECLAIM 1 12 | PHYMEM.PAGE.RECLAIM 1 1",
                "SUCCESS 0 | HOST.READ 8 0",
                WAITS,
                "BUNDLE_HEADER SESSION | IMPORT.STATE.IMMUTABLE 1 0",
            ]],
            "",
        ),
    ),
];

const LATE: &[ArrivalRow<'static>] = &[
    // Pages that come behind the TD state, one of them into the page that it has.
    (
        &[],
        (
            "",
            &[GUEST],
            &[&[
                WAITS,
                OPENED,
                "SUCCESS | IMPORT.MEM 1 1 8 | IMPORT.STATE.TD 1 2 | IMPORT.MEM 1 3 9",
                "SUCCESS MAPPED 9 | MEM.SEPT.RD 1 4096 0",
                "SUCCESS | IMPORT.TRACK 1 4 | IMPORT.MEM 1 5 13 | IMPORT.STATE.VP 1 4 6 \
                        | IMPORT.MEM 1 7 10",
                "SUCCESS MAPPED 8 | MEM.SEPT.RD 1 0 0",
                "SUCCESS PT_NDA 0 0 | PHYMEM.PAGE.RDMD 13",
                "SUCCESS | IMPORT.TRACK 1 8 | IMPORT.COMMIT 1",
                "EXIT VMCALL 33 | VP.ENTER 1 4 10",
                "SUCCESS | IMPORT.END 1",
            ]],
            "0.24 load 0x0 44 | 0.24 load 0x1000 22 | 0.24 load 0x2000 33",
        ),
    ),
    // The tree may grow then, and no VCPU may come.
    (
        &[],
        (
            "",
            &[GUEST],
            &[&[
                WAITS,
                "SUCCESS | IMPORT.STATE.IMMUTABLE 1 0 | MEM.SEPT.ADD 1 0 3 5 \
                        | MEM.SEPT.ADD 1 0 2 6",
                "EPT_WALK_FAILED 1 | IMPORT.MEM 1 1 8",
                "SUCCESS | IMPORT.STATE.TD 1 2",
                "EPT_WALK_FAILED 1 | IMPORT.MEM 1 1 8",
                "SUCCESS | MEM.SEPT.ADD 1 0 1 7 | IMPORT.MEM 1 1 8",
                "OP_STATE_INCORRECT STATE_IMPORT | VP.CREATE 1 4",
            ]],
            "",
        ),
    ),
];

#[test]
fn a_td_goes_on_where_it_was_paused(rt: HostRuntime) -> Result<(), Fail> {
    let alloc = rt.alloc();
    let container = sent(&rt, alloc)?;
    replay_asked(&rt, alloc, with_bundles(&container), WORKED)?;
    arrive(&rt, alloc, &SOURCE, ROWS)?;
    arrive(&rt, alloc, &LATER, LATE)
}
