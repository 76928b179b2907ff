//! What a processor keeps of cached translations, and what it drops.

use row_replay::{ALONE, Asked, OTHER, PAGE, RUNS, Row, SECOND, TREE, replay_asked, replay_rows};
use std::test::Fail;

const WORKED: &[Asked<'static>] = &[
    // A new association drops what the processor has cached of the TD.
    (
        "replay s",
        "2 32 1",
        (
            "0*94 1*15 0*45",
            &["1 0 | set 2 1 | load 1 0", "1 1 | load 1 0"],
            &[
                &[
                    TREE,
                    SECOND,
                    PAGE,
                    RUNS,
                    "SUCCESS | MEM.RANGE.BLOCK 1 0 0 | MEM.TRACK 1 | MEM.PAGE.REMOVE 1 0",
                    "EXIT MAX | VP.ENTER 1 4 1",
                    "SUCCESS | VP.FLUSH 1 4",
                ],
                &[
                    "EXIT STOP | VP.ENTER 1 9 1",
                    "EXIT EPT_VIOLATION 0x0 READ | VP.ENTER 1 4 1",
                ],
            ],
            "",
        ),
    ),
];

const ROWS: &[Row<'static>] = &[
    // An old association drops what the processor has cached of the TD where the epoch isn't that of
    // the last entry, and keeps it else.
    (
        "",
        &["1 0 | load 1 0 | load 2 0 | load 3 0 | load 4 0"],
        &[&[
            TREE,
            PAGE,
            RUNS,
            "EXIT MAX | VP.ENTER 1 4 1",
            "SUCCESS | MEM.RANGE.BLOCK 1 0 0",
            "EXIT MAX | VP.ENTER 1 4 1",
            "SUCCESS | MEM.TRACK 1",
            "EXIT EPT_VIOLATION 0x0 READ | VP.ENTER 1 4 1",
            "SUCCESS | MEM.RANGE.UNBLOCK 1 0 0",
            "EXIT MAX | VP.ENTER 1 4 1",
        ]],
        "0.13 load 0x0 0 | 0.15 load 0x0 0 | 0.19 load 0x0 0",
    ),
    // From the second entry of an epoch on they are kept again.
    (
        "",
        &["1 0 | load 1 0 | load 2 0 | load 3 0"],
        &[&[
            TREE,
            PAGE,
            RUNS,
            "EXIT MAX | VP.ENTER 1 4 1",
            "SUCCESS | MEM.TRACK 1",
            "EXIT MAX | VP.ENTER 1 4 1",
            "SUCCESS | MEM.RANGE.BLOCK 1 0 0",
            "EXIT STOP | VP.ENTER 1 4 1",
        ]],
        "0.13 load 0x0 0 | 0.15 load 0x0 0 | 0.17 load 0x0 0",
    ),
    // At a later epoch an old association drops what it has of a page that was removed meanwhile,
    // and is another TD's now.
    (
        "",
        &["1 0 | load 1 0 | load 2 0", "20 0 | load 1 0"],
        &[&[
            TREE,
            "SUCCESS | HOST.WRITE 0 0 11",
            PAGE,
            RUNS,
            "EXIT MAX | VP.ENTER 1 4 1",
            "SUCCESS | MEM.RANGE.BLOCK 1 0 0 | MEM.TRACK 1 | MEM.PAGE.REMOVE 1 0",
            OTHER,
            "SUCCESS | HOST.WRITE 0 0 22 | MEM.PAGE.ADD 20 0 8 0 | MR.FINALIZE 20",
            "EXIT STOP | VP.ENTER 20 23 9",
            "EXIT EPT_VIOLATION 0x0 READ | VP.ENTER 1 4 9",
        ]],
        "0.14 load 0x0 11 | 0.31 load 0x0 22",
    ),
    // VCPUs of one TD on one processor have one list. Each drops it whose last epoch isn't
    // TD_EPOCH, whoever cached what is in it.
    (
        "",
        &[
            "1 0 | load 1 0 | load 2 0 | load 3 0",
            "1 1 | load 1 0 | load 2 0 | load 3 0",
        ],
        &[&[
            TREE,
            SECOND,
            PAGE,
            RUNS,
            "EXIT MAX | VP.ENTER 1 4 1 | VP.ENTER 1 9 1",
            "SUCCESS | MEM.RANGE.BLOCK 1 0 0",
            "EXIT MAX | VP.ENTER 1 4 1",
            "SUCCESS | MEM.TRACK 1 | MEM.RANGE.UNBLOCK 1 0 0",
            "EXIT MAX | VP.ENTER 1 9 1",
            "SUCCESS | MEM.RANGE.BLOCK 1 0 0",
            "EXIT EPT_VIOLATION 0x0 READ | VP.ENTER 1 4 1 | VP.ENTER 1 9 1",
        ]],
        "0.15 load 0x0 0 | 0.16 load 0x0 0 | 0.18 load 0x0 0 | 0.21 load 0x0 0",
    ),
    // VP.FLUSH drops them too, in the same epoch.
    (
        "",
        &["1 0 | load 1 0 | load 2 0"],
        &[&[
            TREE,
            PAGE,
            RUNS,
            "EXIT MAX | VP.ENTER 1 4 1",
            "SUCCESS | MEM.RANGE.BLOCK 1 0 0 | VP.FLUSH 1 4",
            "EXIT EPT_VIOLATION 0x0 READ | VP.ENTER 1 4 1",
        ]],
        "0.13 load 0x0 0",
    ),
    // So it does for another VCPU of the TD, whose own association stays.
    (
        "",
        &["1 0 | load 1 0", "1 1 | set 1 1 | load 1 0"],
        &[&[
            TREE,
            SECOND,
            PAGE,
            RUNS,
            "EXIT MAX | VP.ENTER 1 9 1",
            "EXIT STOP | VP.ENTER 1 4 1",
            "SUCCESS | MEM.RANGE.BLOCK 1 0 0 | VP.FLUSH 1 4",
            "EXIT EPT_VIOLATION 0x0 READ | VP.ENTER 1 9 1",
        ]],
        "0.16 load 0x0 0",
    ),
    // Another TD's translations are its own, and stay where this one's are dropped.
    (
        "",
        &["1 0 | load 1 0", "20 0 | load 1 0 | load 2 0"],
        &[&[
            TREE,
            "SUCCESS | HOST.WRITE 0 0 11",
            PAGE,
            RUNS,
            OTHER,
            "SUCCESS | HOST.WRITE 0 0 22 | MEM.PAGE.ADD 20 0 27 0 | MR.FINALIZE 20",
            "EXIT STOP | VP.ENTER 1 4 9",
            "EXIT MAX | VP.ENTER 20 23 1",
            "SUCCESS | VP.FLUSH 1 4 | MEM.RANGE.BLOCK 20 0 0",
            "EXIT STOP | VP.ENTER 20 23 1",
        ]],
        "0.27 load 0x0 11 | 0.28 load 0x0 22 | 0.31 load 0x0 22",
    ),
    // A processor caches sixteen translations, and drops the oldest for a seventeenth.
    (
        "",
        &[
            "1 0 | load 1 0x0 | load 1 0x1000 | load 1 0x2000 | load 1 0x3000 \
                    | load 1 0x4000 | load 1 0x5000 | load 1 0x6000 | load 1 0x7000 \
                    | load 1 0x8000 | load 1 0x9000 | load 1 0xa000 | load 1 0xb000 \
                    | load 1 0xc000 | load 1 0xd000 | load 1 0xe000 | load 1 0xf000 \
                    | load 1 0x0",
        ],
        &[&[
            TREE,
            "SUCCESS | MEM.PAGE.ADD 1 0x0 10 0 | MEM.PAGE.ADD 1 0x1000 11 0 \
                    | MEM.PAGE.ADD 1 0x2000 12 0 | MEM.PAGE.ADD 1 0x3000 13 0 \
                    | MEM.PAGE.ADD 1 0x4000 14 0 | MEM.PAGE.ADD 1 0x5000 15 0 \
                    | MEM.PAGE.ADD 1 0x6000 16 0 | MEM.PAGE.ADD 1 0x7000 17 0 \
                    | MEM.PAGE.ADD 1 0x8000 18 0 | MEM.PAGE.ADD 1 0x9000 19 0 \
                    | MEM.PAGE.ADD 1 0xa000 20 0 | MEM.PAGE.ADD 1 0xb000 21 0 \
                    | MEM.PAGE.ADD 1 0xc000 22 0 | MEM.PAGE.ADD 1 0xd000 23 0 \
                    | MEM.PAGE.ADD 1 0xe000 24 0 | MEM.PAGE.ADD 1 0xf000 25 0",
            RUNS,
            "EXIT MAX | VP.ENTER 1 4 16",
            "SUCCESS | MEM.RANGE.BLOCK 1 0 0",
            "EXIT STOP | VP.ENTER 1 4 9",
        ]],
        "0.28 load 0x0 0 | 0.28 load 0x1000 0 | 0.28 load 0x2000 0 \
                    | 0.28 load 0x3000 0 | 0.28 load 0x4000 0 | 0.28 load 0x5000 0 \
                    | 0.28 load 0x6000 0 | 0.28 load 0x7000 0 | 0.28 load 0x8000 0 \
                    | 0.28 load 0x9000 0 | 0.28 load 0xa000 0 | 0.28 load 0xb000 0 \
                    | 0.28 load 0xc000 0 | 0.28 load 0xd000 0 | 0.28 load 0xe000 0 \
                    | 0.28 load 0xf000 0 | 0.30 load 0x0 0",
    ),
    (
        "",
        &[
            "1 0 | load 1 0x0 | load 1 0x1000 | load 1 0x2000 | load 1 0x3000 \
                    | load 1 0x4000 | load 1 0x5000 | load 1 0x6000 | load 1 0x7000 \
                    | load 1 0x8000 | load 1 0x9000 | load 1 0xa000 | load 1 0xb000 \
                    | load 1 0xc000 | load 1 0xd000 | load 1 0xe000 | load 1 0xf000 \
                    | load 1 0x10000 | load 1 0x1000 | load 1 0x0",
        ],
        &[&[
            TREE,
            "SUCCESS | MEM.PAGE.ADD 1 0x0 10 0 | MEM.PAGE.ADD 1 0x1000 11 0 \
                    | MEM.PAGE.ADD 1 0x2000 12 0 | MEM.PAGE.ADD 1 0x3000 13 0 \
                    | MEM.PAGE.ADD 1 0x4000 14 0 | MEM.PAGE.ADD 1 0x5000 15 0 \
                    | MEM.PAGE.ADD 1 0x6000 16 0 | MEM.PAGE.ADD 1 0x7000 17 0 \
                    | MEM.PAGE.ADD 1 0x8000 18 0 | MEM.PAGE.ADD 1 0x9000 19 0 \
                    | MEM.PAGE.ADD 1 0xa000 20 0 | MEM.PAGE.ADD 1 0xb000 21 0 \
                    | MEM.PAGE.ADD 1 0xc000 22 0 | MEM.PAGE.ADD 1 0xd000 23 0 \
                    | MEM.PAGE.ADD 1 0xe000 24 0 | MEM.PAGE.ADD 1 0xf000 25 0 \
                    | MEM.PAGE.ADD 1 0x10000 26 0",
            RUNS,
            "EXIT MAX | VP.ENTER 1 4 17",
            "SUCCESS | MEM.RANGE.BLOCK 1 0 0 | MEM.RANGE.BLOCK 1 4096 0",
            "EXIT EPT_VIOLATION 0x0 READ | VP.ENTER 1 4 9",
        ]],
        "0.29 load 0x0 0 | 0.29 load 0x1000 0 | 0.29 load 0x2000 0 \
                    | 0.29 load 0x3000 0 | 0.29 load 0x4000 0 | 0.29 load 0x5000 0 \
                    | 0.29 load 0x6000 0 | 0.29 load 0x7000 0 | 0.29 load 0x8000 0 \
                    | 0.29 load 0x9000 0 | 0.29 load 0xa000 0 | 0.29 load 0xb000 0 \
                    | 0.29 load 0xc000 0 | 0.29 load 0xd000 0 | 0.29 load 0xe000 0 \
                    | 0.29 load 0xf000 0 | 0.29 load 0x10000 0 | 0.32 load 0x1000 0",
    ),
];

#[test]
fn stale_translations_are_dropped_at_an_entry(rt: HostRuntime) -> Result<(), Fail> {
    replay_asked(&rt, rt.alloc(), ALONE, WORKED)?;
    replay_rows(&rt, rt.alloc(), ROWS)
}
