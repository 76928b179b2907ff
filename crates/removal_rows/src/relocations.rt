//! Private pages that move to other frames.

use row_replay::{
    ALONE, Asked, BEGUN, OTHER, PAGE, RUNS, Row, STREAM, TREE, replay_asked, replay_rows,
};
use std::test::Fail;

const WORKED: &[Asked<'static>] = &[
    // A page moves once its block is tracked, to another page than its own, and its guest finds its word.
    (
        "replay s --guest-out g ; run s --guest-out g",
        "1 32 1",
        (
            "",
            &["1 0 | load 1 0"],
            &[&[
                TREE,
                "SUCCESS | HOST.WRITE 0 0 41 | MEM.PAGE.ADD 1 0 8 0",
                RUNS,
                "SUCCESS | MEM.RANGE.BLOCK 1 0 0",
                "TLB_TRACKING_NOT_DONE | MEM.PAGE.RELOCATE 1 0 9",
                "SUCCESS | MEM.TRACK 1",
                "PAGE_METADATA_INCORRECT 8 | MEM.PAGE.RELOCATE 1 0 8",
                "SUCCESS | MEM.PAGE.RELOCATE 1 0 9",
                "SUCCESS MAPPED 9 | MEM.SEPT.RD 1 0 0",
                "SUCCESS 0 | HOST.READ 8 0",
                "SUCCESS PT_REG 1 0 | PHYMEM.PAGE.RDMD 9",
                "EXIT STOP | VP.ENTER 1 4 9",
            ]],
            "0.22 load 0x0 41",
        ),
    ),
];

const ROWS: &[Row<'static>] = &[
    // One that waits for its guest still waits, and is accepted with zeros, whatever the host wrote.
    (
        "",
        &["1 0 | accept 0 | load 1 0"],
        &[&[
            TREE,
            RUNS,
            "SUCCESS | HOST.WRITE 9 0 5 | MEM.PAGE.AUG 1 0 9 | MEM.RANGE.BLOCK 1 0 0",
            "SUCCESS PENDING_BLOCKED 9 | MEM.SEPT.RD 1 0 0",
            "TLB_TRACKING_NOT_DONE | MEM.PAGE.RELOCATE 1 0 10",
            "SUCCESS | MEM.TRACK 1 | MEM.PAGE.RELOCATE 1 0 10",
            "SUCCESS PENDING 10 | MEM.SEPT.RD 1 0 0",
            "SUCCESS 0 | HOST.READ 9 0",
            "EXIT STOP | VP.ENTER 1 4 9",
            "SUCCESS MAPPED 10 | MEM.SEPT.RD 1 0 0",
        ]],
        "0.21 load 0x0 0",
    ),
    // The first word and the last, in the other page and back; the page that is left can be used at once.
    (
        "",
        &["1 0 | set 1 7 | store 1 0 | store 1 4088 | load 2 0 | load 3 4088 | load 4 0"],
        &[&[
            TREE,
            PAGE,
            RUNS,
            "EXIT MAX | VP.ENTER 1 4 3",
            "SUCCESS | MEM.RANGE.BLOCK 1 0 0 | MEM.TRACK 1 | MEM.PAGE.RELOCATE 1 0 9",
            "SUCCESS PT_NDA 0 0 | PHYMEM.PAGE.RDMD 8",
            "SUCCESS 0 | HOST.READ 8 0 | HOST.READ 8 511",
            "EXIT MAX | VP.ENTER 1 4 2",
            "SUCCESS | MEM.RANGE.BLOCK 1 0 0 | MEM.TRACK 1 | MEM.PAGE.RELOCATE 1 0 8",
            "SUCCESS 0 | HOST.READ 9 0 | HOST.READ 9 511",
            "SUCCESS | MEM.PAGE.AUG 1 4096 9",
            "EXIT STOP | VP.ENTER 1 4 9",
            "SUCCESS | MEM.RANGE.BLOCK 1 0 0",
            "SUCCESS PT_REG 1 3 | PHYMEM.PAGE.RDMD 8",
            "SUCCESS | MEM.TRACK 1 | MEM.PAGE.REMOVE 1 0",
            "SUCCESS 0 | HOST.READ 8 0 | HOST.READ 8 511",
        ]],
        "0.20 load 0x0 7 | 0.20 load 0xff8 7 | 0.27 load 0x0 7",
    ),
    // To no page that isn't the host's: another TD's, its own TD's, and that of the TD itself.
    (
        "",
        &[],
        &[&[
            TREE,
            OTHER,
            PAGE,
            RUNS,
            "SUCCESS | MEM.RANGE.BLOCK 1 0 0 | MEM.TRACK 1",
            "PAGE_METADATA_INCORRECT 20 | MEM.PAGE.RELOCATE 1 0 20",
            "PAGE_METADATA_INCORRECT 23 | MEM.PAGE.RELOCATE 1 0 23",
            "PAGE_METADATA_INCORRECT 26 | MEM.PAGE.RELOCATE 1 0 26",
            "PAGE_METADATA_INCORRECT 2 | MEM.PAGE.RELOCATE 1 0 2",
            "PAGE_METADATA_INCORRECT 4 | MEM.PAGE.RELOCATE 1 0 4",
            "PAGE_METADATA_INCORRECT 7 | MEM.PAGE.RELOCATE 1 0 7",
            "PAGE_METADATA_INCORRECT 8 | MEM.PAGE.RELOCATE 1 0 8",
            "SUCCESS | MEM.PAGE.RELOCATE 1 0 27",
            "SUCCESS MAPPED 27 | MEM.SEPT.RD 1 0 0",
        ]],
        "",
    ),
    // Arguments: ranges, pages that differ, and then the alignment.
    (
        "",
        &[],
        &[&[
            "OPERAND_INVALID 1 | MEM.PAGE.RELOCATE 32 0 9 | MEM.PAGE.RELOCATE 32 1 32",
            "OPERAND_INVALID 2 | MEM.PAGE.RELOCATE 1 0x800000000000 32 | MEM.PAGE.RELOCATE 1 8 9",
            "OPERAND_INVALID 3 | MEM.PAGE.RELOCATE 1 0 32 | MEM.PAGE.RELOCATE 1 0 1 \
                    | MEM.PAGE.RELOCATE 1 1 1",
        ]],
        "",
    ),
    // What the TD's life and op state refuse, and the entry's state: first of all in an export.
    (
        "",
        &[],
        &[&[
            "PAGE_METADATA_INCORRECT 1 | MEM.PAGE.RELOCATE 1 0 9",
            TREE,
            PAGE,
            "OP_STATE_INCORRECT INITIALIZED | MEM.PAGE.RELOCATE 1 0 9",
            RUNS,
            STREAM,
            "EPT_WALK_FAILED 1 | MEM.PAGE.RELOCATE 1 0x200000 9",
            "EPT_ENTRY_STATE_INCORRECT FREE | MEM.PAGE.RELOCATE 1 4096 9",
            "EPT_ENTRY_STATE_INCORRECT MAPPED | MEM.PAGE.RELOCATE 1 0 9",
            "SUCCESS | MEM.PAGE.AUG 1 4096 9",
            "EPT_ENTRY_STATE_INCORRECT PENDING | MEM.PAGE.RELOCATE 1 4096 11",
            "SUCCESS | MEM.RANGE.BLOCK 1 0 0 | MEM.TRACK 1",
            BEGUN,
            "OP_STATE_INCORRECT LIVE_EXPORT | MEM.PAGE.RELOCATE 1 0 11",
            "SUCCESS | EXPORT.PAUSE 1",
            "OP_STATE_INCORRECT PAUSED_EXPORT | MEM.PAGE.RELOCATE 1 0 11",
            "SUCCESS | EXPORT.ABORT 1 | MEM.PAGE.RELOCATE 1 0 11",
            "SUCCESS | MNG.VPFLUSHDONE 1",
            "LIFECYCLE_STATE_INCORRECT TD_BLOCKED | MEM.PAGE.RELOCATE 1 0 8",
        ]],
        "",
    ),
];

#[test]
fn a_page_moves_once_nobody_can_use_a_translation_to_it(rt: HostRuntime) -> Result<(), Fail> {
    replay_asked(&rt, rt.alloc(), ALONE, WORKED)?;
    replay_rows(&rt, rt.alloc(), ROWS)
}
