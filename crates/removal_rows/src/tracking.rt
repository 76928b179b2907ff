//! Memory that is taken from a TD: blocked, tracked, and removed or unblocked.

use row_replay::{ALONE, Asked, PAGE, RUNS, Row, TREE, replay_asked, replay_rows};
use std::test::Fail;

const WORKED: &[Asked<'static>] = &[
    // A page of the secure EPT that isn't empty.
    (
        "replay s",
        "1 32 1",
        (
            "",
            &[],
            &[&[
                TREE,
                PAGE,
                RUNS,
                "SUCCESS | MEM.RANGE.BLOCK 1 0 1 | MEM.TRACK 1",
                "SEPT_NOT_EMPTY 0 | MEM.SEPT.REMOVE 1 0 1",
            ]],
            "",
        ),
    ),
];

const ROWS: &[Row<'static>] = &[
    // A page of the secure EPT that isn't empty: the first entry counts.
    (
        "",
        &[],
        &[&[
            TREE,
            "SUCCESS | MEM.PAGE.ADD 1 0x1ff000 8 0 | MEM.PAGE.ADD 1 0x3000 9 0",
            RUNS,
            "SUCCESS | MEM.RANGE.BLOCK 1 0 1",
            "SEPT_NOT_EMPTY 3 | MEM.SEPT.REMOVE 1 0 1",
            "SUCCESS | MEM.RANGE.BLOCK 1 0 2",
            "EPT_WALK_FAILED 2 | MEM.SEPT.REMOVE 1 0 1",
            "SEPT_NOT_EMPTY 0 | MEM.SEPT.REMOVE 1 0 2",
        ]],
        "",
    ),
    // Each state of an entry, and what is refused in it.
    (
        "",
        &[],
        &[&[
            TREE,
            PAGE,
            RUNS,
            "SUCCESS | MEM.PAGE.AUG 1 4096 9",
            "EPT_ENTRY_STATE_INCORRECT FREE | MEM.RANGE.BLOCK 1 8192 0 \
                    | MEM.RANGE.UNBLOCK 1 8192 0 | MEM.PAGE.REMOVE 1 8192 \
                    | MEM.SEPT.REMOVE 1 0x200000 1",
            "EPT_ENTRY_STATE_INCORRECT MAPPED | MEM.RANGE.UNBLOCK 1 0 0 \
                    | MEM.PAGE.REMOVE 1 0",
            "EPT_ENTRY_STATE_INCORRECT PENDING | MEM.RANGE.UNBLOCK 1 4096 0 \
                    | MEM.PAGE.REMOVE 1 4096",
            "EPT_ENTRY_STATE_INCORRECT NL_MAPPED | MEM.RANGE.UNBLOCK 1 0 1 \
                    | MEM.SEPT.REMOVE 1 0 1",
            "SUCCESS | MEM.RANGE.BLOCK 1 0 0 | MEM.RANGE.BLOCK 1 4096 0",
            "SUCCESS BLOCKED 8 | MEM.SEPT.RD 1 0 0",
            "SUCCESS PENDING_BLOCKED 9 | MEM.SEPT.RD 1 4096 0",
            "EPT_ENTRY_STATE_INCORRECT BLOCKED | MEM.RANGE.BLOCK 1 0 0 \
                    | MEM.PAGE.AUG 1 0 10",
            "EPT_ENTRY_STATE_INCORRECT PENDING_BLOCKED | MEM.RANGE.BLOCK 1 4096 0 \
                    | MEM.PAGE.AUG 1 4096 10",
            "TLB_TRACKING_NOT_DONE | MEM.RANGE.UNBLOCK 1 0 0 | MEM.PAGE.REMOVE 1 4096",
            "SUCCESS PT_REG 1 1 | PHYMEM.PAGE.RDMD 8 | PHYMEM.PAGE.RDMD 9",
            "SUCCESS | MEM.TRACK 1 | MEM.RANGE.UNBLOCK 1 0 0 \
                    | MEM.RANGE.UNBLOCK 1 4096 0",
            "SUCCESS MAPPED 8 | MEM.SEPT.RD 1 0 0",
            "SUCCESS PENDING 9 | MEM.SEPT.RD 1 4096 0",
            "SUCCESS | MEM.RANGE.BLOCK 1 4096 0",
            "SUCCESS PT_REG 1 2 | PHYMEM.PAGE.RDMD 9",
            "SUCCESS | MEM.TRACK 1 | MEM.PAGE.REMOVE 1 4096",
            "SUCCESS PT_NDA 0 0 | PHYMEM.PAGE.RDMD 9",
            "SUCCESS FREE | MEM.SEPT.RD 1 4096 0",
            "SUCCESS | MEM.RANGE.BLOCK 1 0 1",
            "SUCCESS NL_BLOCKED 7 | MEM.SEPT.RD 1 0 1",
            "EPT_ENTRY_STATE_INCORRECT NL_BLOCKED | MEM.RANGE.BLOCK 1 0 1 \
                    | MEM.SEPT.ADD 1 0 1 10",
            "EPT_WALK_FAILED 1 | MEM.RANGE.BLOCK 1 0 0 | MEM.PAGE.REMOVE 1 0 \
                    | MEM.RANGE.UNBLOCK 1 0 0",
            "TLB_TRACKING_NOT_DONE | MEM.RANGE.UNBLOCK 1 0 1",
            "SUCCESS | MEM.TRACK 1 | MEM.RANGE.UNBLOCK 1 0 1",
            "SUCCESS MAPPED 8 | MEM.SEPT.RD 1 0 0",
        ]],
        "",
    ),
    // Arguments: ranges, and the alignment that a level wants.
    (
        "",
        &[],
        &[&[
            "OPERAND_INVALID 1 | MEM.TRACK 32 | MEM.RANGE.BLOCK 32 0 0 \
                    | MEM.PAGE.REMOVE 32 0",
            "OPERAND_INVALID 2 | MEM.RANGE.BLOCK 1 0x800000000000 0 \
                    | MEM.RANGE.BLOCK 1 1 0 | MEM.RANGE.BLOCK 1 4096 1 \
                    | MEM.RANGE.UNBLOCK 1 0x200000 2 | MEM.SEPT.REMOVE 1 0x40000000 3 \
                    | MEM.PAGE.REMOVE 1 8",
            "OPERAND_INVALID 3 | MEM.RANGE.BLOCK 1 0 4 | MEM.RANGE.UNBLOCK 1 1 4 \
                    | MEM.SEPT.REMOVE 1 0 0 | MEM.SEPT.REMOVE 1 0 4",
        ]],
        "",
    ),
    // What a TD's life refuses.
    (
        "",
        &[],
        &[&[
            "PAGE_METADATA_INCORRECT 1 | MEM.TRACK 1 | MEM.RANGE.BLOCK 1 0 0 \
                    | MEM.RANGE.UNBLOCK 1 0 0 | MEM.PAGE.REMOVE 1 0 | MEM.SEPT.REMOVE 1 0 1",
            TREE,
            "OP_STATE_INCORRECT INITIALIZED | MEM.TRACK 1 | MEM.RANGE.BLOCK 1 0 0 \
                    | MEM.RANGE.UNBLOCK 1 0 0 | MEM.PAGE.REMOVE 1 0 | MEM.SEPT.REMOVE 1 0 1",
            RUNS,
            "EPT_WALK_FAILED 3 | MEM.RANGE.BLOCK 1 0x8000000000 0",
            "EPT_WALK_FAILED 2 | MEM.RANGE.UNBLOCK 1 0x40000000 0",
            "EPT_WALK_FAILED 1 | MEM.PAGE.REMOVE 1 0x200000",
            "SUCCESS | MNG.VPFLUSHDONE 1",
            "LIFECYCLE_STATE_INCORRECT TD_BLOCKED | MEM.TRACK 1 \
                    | MEM.RANGE.BLOCK 1 0 0 | MEM.RANGE.UNBLOCK 1 0 0 | MEM.PAGE.REMOVE 1 0 \
                    | MEM.SEPT.REMOVE 1 0 1",
        ]],
        "",
    ),
    // Locks: the tree, the epoch and the page.
    (
        "0*83 1*5",
        &[],
        &[
            &[TREE, PAGE, RUNS, "SUCCESS | MEM.RANGE.BLOCK 1 0 0"],
            &["OPERAND_BUSY T | MEM.RANGE.UNBLOCK 1 0 0"],
        ],
        "",
    ),
    (
        "0*84 1*5",
        &[],
        &[
            &[TREE, PAGE, RUNS, "SUCCESS | MEM.RANGE.BLOCK 1 0 0"],
            &["OPERAND_BUSY E | MEM.TRACK 1"],
        ],
        "",
    ),
    (
        "0*85 1*2",
        &[],
        &[
            &[TREE, PAGE, RUNS, "SUCCESS | MEM.RANGE.BLOCK 1 0 0"],
            &["OPERAND_BUSY P 8 | HOST.READ 8 0"],
        ],
        "",
    ),
    (
        "0*84 1 0",
        &[],
        &[
            &[TREE, PAGE, RUNS, "OPERAND_BUSY P 8 | MEM.RANGE.BLOCK 1 0 0"],
            &["SUCCESS 0 | HOST.READ 8 0"],
        ],
        "",
    ),
    (
        "0*83 1*3 0",
        &[],
        &[
            &[TREE, PAGE, RUNS, "OPERAND_BUSY E | MEM.RANGE.BLOCK 1 0 0"],
            &["SUCCESS | MEM.TRACK 1"],
        ],
        "",
    ),
    // A VCPU that no processor has entered has nothing to flush; nor has a page that isn't one.
    (
        "",
        &[],
        &[&[
            TREE,
            RUNS,
            "VCPU_NOT_ASSOCIATED | VP.FLUSH 1 4",
            "PAGE_METADATA_INCORRECT 5 | VP.FLUSH 1 5",
            "OPERAND_INVALID 2 | VP.FLUSH 1 1 | VP.FLUSH 1 32",
        ]],
        "",
    ),
];

#[test]
fn no_page_is_taken_before_it_is_tracked(rt: HostRuntime) -> Result<(), Fail> {
    replay_asked(&rt, rt.alloc(), ALONE, WORKED)?;
    replay_rows(&rt, rt.alloc(), ROWS)
}
