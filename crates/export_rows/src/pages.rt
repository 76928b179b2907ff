//! What EXPORT.MEM answers by the state of a page's entry.

use row_replay::{BEGUN, PAGE, PAGES, RUNS, Row, STREAM, TREE, replay_rows};
use std::test::Fail;

const ROWS: &[Row<'static>] = &[
    // Each state of an entry while the TD runs, and from the pause on.
    (
        "",
        &[],
        &[&[
            TREE,
            "SUCCESS | MEM.PAGE.ADD 1 0 8 0 | MEM.PAGE.ADD 1 4096 11 0 | MEM.PAGE.ADD 1 8192 12 0",
            STREAM,
            RUNS,
            "SUCCESS | MEM.PAGE.AUG 1 12288 13 | MEM.PAGE.AUG 1 16384 14 | MEM.RANGE.BLOCK 1 8192 0 \
                | MEM.RANGE.BLOCK 1 16384 0",
            BEGUN,
            "EPT_WALK_FAILED 3 | EXPORT.MEM 1 0x8000000000 0 1 | EXPORT.MEM 1 0x7ffffffff000 0 2",
            "EPT_WALK_FAILED 2 | EXPORT.MEM 1 0x40000000 0 3",
            "EPT_WALK_FAILED 1 | EXPORT.MEM 1 0x200000 0 4",
            "EPT_ENTRY_STATE_INCORRECT FREE | EXPORT.MEM 1 20480 0 5",
            "EPT_ENTRY_STATE_INCORRECT MAPPED | EXPORT.MEM 1 0 0 6 | EXPORT.MEM 1 4096 0 7",
            "EPT_ENTRY_STATE_INCORRECT BLOCKED | EXPORT.MEM 1 8192 0 8",
            "EPT_ENTRY_STATE_INCORRECT PENDING | EXPORT.MEM 1 12288 0 9",
            "EPT_ENTRY_STATE_INCORRECT PENDING_BLOCKED | EXPORT.MEM 1 16384 0 10",
            "SUCCESS | EXPORT.BLOCKW 1 0",
            "TLB_TRACKING_NOT_DONE | EXPORT.MEM 1 0 0 11",
            "SUCCESS | MEM.TRACK 1 | EXPORT.MEM 1 0 0 12",
            "SUCCESS EXPORTED_BLOCKEDW 8 | MEM.SEPT.RD 1 0 0",
            "EPT_ENTRY_STATE_INCORRECT EXPORTED_BLOCKEDW | EXPORT.MEM 1 0 0 13",
            "SUCCESS | EXPORT.UNBLOCKW 1 0",
            "EPT_ENTRY_STATE_INCORRECT EXPORTED_DIRTY | EXPORT.MEM 1 0 0 14",
            "SUCCESS | EXPORT.BLOCKW 1 0",
            "EXPORTED_THIS_EPOCH | EXPORT.MEM 1 0 0 15",
            "SUCCESS | EXPORT.TRACK 1 16 0",
            "TLB_TRACKING_NOT_DONE | EXPORT.MEM 1 0 0 17",
            "SUCCESS | MEM.TRACK 1 | EXPORT.MEM 1 0 0 18 | EXPORT.PAUSE 1",
            "EPT_ENTRY_STATE_INCORRECT EXPORTED_BLOCKEDW | EXPORT.MEM 1 0 0 19",
            "EPT_ENTRY_STATE_INCORRECT BLOCKED | EXPORT.MEM 1 8192 0 20",
            "EPT_ENTRY_STATE_INCORRECT PENDING | EXPORT.MEM 1 12288 0 21",
            "EPT_ENTRY_STATE_INCORRECT PENDING_BLOCKED | EXPORT.MEM 1 16384 0 22",
            "SUCCESS | EXPORT.MEM 1 4096 0 23",
            "SUCCESS EXPORTED_BLOCKEDW 11 | MEM.SEPT.RD 1 4096 0",
        ]],
        "",
    ),
    // Of several faults the first of the row counts.
    (
        "",
        &[],
        &[&[
            TREE,
            "OP_STATE_INCORRECT INITIALIZED | EXPORT.MEM 1 0x8000000000 3 1",
            PAGES,
            "OP_STATE_INCORRECT RUNNABLE | EXPORT.MEM 1 0x8000000000 3 2",
            BEGUN,
            "NO_STREAM 3 | EXPORT.MEM 1 0x8000000000 3 3",
            "EPT_WALK_FAILED 3 | EXPORT.MEM 1 0x8000000000 1 4",
            "SUCCESS | EXPORT.PAUSE 1 | EXPORT.MEM 1 0 1 5",
            "EPT_ENTRY_STATE_INCORRECT EXPORTED_BLOCKEDW | EXPORT.MEM 1 0 1 6",
            "SUCCESS | EXPORT.STATE.TD 1 7 | EXPORT.STATE.VP 1 4 8 | EXPORT.TRACK 1 9 1",
            "OP_STATE_INCORRECT POST_EXPORT | EXPORT.MEM 1 4096 3 10",
        ]],
        "",
    ),
    // From the pause on no block is to be tracked, and none is needed.
    (
        "",
        &[],
        &[&[
            TREE,
            PAGES,
            "SUCCESS | EXPORT.STATE.IMMUTABLE 1 0 | EXPORT.BLOCKW 1 0 | EXPORT.PAUSE 1 \
                | EXPORT.MEM 1 0 0 1 | EXPORT.MEM 1 4096 1 2",
        ]],
        "",
    ),
    // A dirty page is exported from the pause on, blocked for writing or not.
    (
        "",
        &[],
        &[&[
            TREE,
            PAGES,
            "SUCCESS | EXPORT.STATE.IMMUTABLE 1 0 | EXPORT.BLOCKW 1 0 | EXPORT.BLOCKW 1 4096 \
                | MEM.TRACK 1 | EXPORT.MEM 1 0 0 1 | EXPORT.MEM 1 4096 0 2 | EXPORT.UNBLOCKW 1 0 \
                | EXPORT.UNBLOCKW 1 4096 | EXPORT.BLOCKW 1 4096 | EXPORT.TRACK 1 3 0 \
                | EXPORT.PAUSE 1 | EXPORT.MEM 1 0 1 4 | EXPORT.MEM 1 4096 1 5 \
                | EXPORT.STATE.TD 1 6 | EXPORT.STATE.VP 1 4 7 | EXPORT.TRACK 1 8 1",
        ]],
        "",
    ),
    // A guest of the epoch before may still write, and one that enters later may not.
    (
        "0*87 1*7 0*12 1*11 0*2 1*20 0*4 1*13",
        &["1 0 | set 1 44 | store 1 0 | set 1 45 | store 1 0 | store 1 0"],
        &[
            &[
                TREE,
                PAGE,
                STREAM,
                RUNS,
                "EXIT MAX | VP.ENTER 1 4 4",
                "EXIT EPT_VIOLATION 0x0 WRITE | VP.ENTER 1 4 1",
            ],
            &[
                BEGUN,
                "SUCCESS | EXPORT.BLOCKW 1 0 | MEM.TRACK 1",
                "TLB_TRACKING_NOT_DONE | EXPORT.MEM 1 0 0 1",
                "SUCCESS | EXPORT.MEM 1 0 0 2",
            ],
        ],
        "",
    ),
];

#[test]
fn a_page_goes_out_when_nobody_writes_to_it(rt: HostRuntime) -> Result<(), Fail> {
    replay_rows(&rt, rt.alloc(), ROWS)
}
