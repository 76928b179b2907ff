//! A page that is taken from a TD, or moves, beside a host that reads it, and a guest that is entered
//! beside calls that track and flush.
//!
//! The build of a TD with a page that is blocked and tracked has 98 events, and MEM.PAGE.REMOVE behind it
//! has 11: five tries, the act, and five releases, of which the page's is the first. MEM.PAGE.RELOCATE
//! has 13: it tries the page that it takes as well, last of all. The build of a TD
//! without pages has 69, and VP.ENTER behind it four tries, the act and the release of E, before its guest
//! runs.

use row_replay::{PAGE, RUNS, TREE, replay_races};
use std::test::Fail;

const READERS: &[&[&str]] = &[
    &[
        TREE,
        PAGE,
        RUNS,
        "SUCCESS | MEM.RANGE.BLOCK 1 0 0 | MEM.TRACK 1 | MEM.PAGE.REMOVE 1 0",
        // Before the page is tried, once it is held, and once it is released.
        "0*102 1*3 | SUCCESS 0 | HOST.READ 8 0",
        "0*103 1*2 | OPERAND_BUSY P 8 | HOST.READ 8 0",
        "0*104 1*2 | OPERAND_BUSY P 8 | HOST.READ 8 0",
        "0*105 1*3 | SUCCESS 0 | HOST.READ 8 0",
    ],
    // While the reader holds it.
    &[
        TREE,
        PAGE,
        RUNS,
        "SUCCESS | MEM.RANGE.BLOCK 1 0 0 | MEM.TRACK 1 ; OPERAND_BUSY P 8 | MEM.PAGE.REMOVE 1 0",
        "0*102 1 0 1*2 | SUCCESS 0 | HOST.READ 8 0",
        "0*102 1*2 0 1 | SUCCESS 0 | HOST.READ 8 0",
    ],
];

const MOVES: &[&[&str]] = &[
    &[
        TREE,
        PAGE,
        RUNS,
        "SUCCESS | MEM.RANGE.BLOCK 1 0 0 | MEM.TRACK 1 | MEM.PAGE.RELOCATE 1 0 9",
        // Both pages are held from their tries on, and released the newest first.
        "0*102 1*3 | SUCCESS 0 | HOST.READ 8 0",
        "0*103 1*2 | OPERAND_BUSY P 8 | HOST.READ 8 0",
        "0*103 1*3 | SUCCESS 0 | HOST.READ 9 0",
        "0*104 1*2 | OPERAND_BUSY P 9 | HOST.READ 9 0",
        "0*105 1*2 | OPERAND_BUSY P 9 | HOST.READ 9 0",
        "0*106 1*3 | SUCCESS 0 | HOST.READ 9 0",
        "0*106 1*2 | OPERAND_BUSY P 8 | HOST.READ 8 0",
        "0*107 1*3 | SUCCESS 0 | HOST.READ 8 0",
    ],
    // Each of its six locks, while another processor holds it.
    &[
        TREE,
        PAGE,
        RUNS,
        "SUCCESS | MEM.RANGE.BLOCK 1 0 0 | MEM.TRACK 1 ; OPERAND_BUSY P 1 | MEM.PAGE.RELOCATE 1 0 9",
        "0*98 1 0 | SUCCESS | MNG.VPFLUSHDONE 1",
    ],
    &[
        TREE,
        PAGE,
        RUNS,
        "SUCCESS | MEM.RANGE.BLOCK 1 0 0 | MEM.TRACK 1 ; OPERAND_BUSY O | MEM.PAGE.RELOCATE 1 0 9",
        "0*99 1*2 0 | OP_STATE_INCORRECT RUNNABLE | MR.FINALIZE 1",
    ],
    &[
        TREE,
        PAGE,
        RUNS,
        "SUCCESS | MEM.RANGE.BLOCK 1 0 0 | MEM.TRACK 1 ; OPERAND_BUSY T | MEM.PAGE.RELOCATE 1 0 9",
        "0*100 1*3 0 | SUCCESS BLOCKED 8 | MEM.SEPT.RD 1 0 0",
    ],
    &[
        TREE,
        PAGE,
        RUNS,
        "SUCCESS | MEM.RANGE.BLOCK 1 0 0 | MEM.TRACK 1 ; OPERAND_BUSY E | MEM.PAGE.RELOCATE 1 0 9",
        "0*101 1*3 0 | SUCCESS | MEM.TRACK 1",
    ],
    &[
        TREE,
        PAGE,
        RUNS,
        "SUCCESS | MEM.RANGE.BLOCK 1 0 0 | MEM.TRACK 1 ; OPERAND_BUSY P 8 | MEM.PAGE.RELOCATE 1 0 9",
        "0*102 1 0 | SUCCESS 0 | HOST.READ 8 0",
    ],
    &[
        TREE,
        PAGE,
        RUNS,
        "SUCCESS | MEM.RANGE.BLOCK 1 0 0 | MEM.TRACK 1 ; OPERAND_BUSY P 9 | MEM.PAGE.RELOCATE 1 0 9",
        "0*103 1 0 | SUCCESS 0 | HOST.READ 9 0",
    ],
];

const GUESTS: &[&[&str]] = &[&[
    TREE,
    RUNS,
    "EXIT STOP | VP.ENTER 1 4 9",
    // E is shared from the entry's fourth try on, up to its sixth event.
    "0*72 1*7 | SUCCESS | MEM.TRACK 1",
    "0*73 1*5 | OPERAND_BUSY E | MEM.TRACK 1",
    "0*75 1*7 | SUCCESS | MEM.TRACK 1",
    // The TDR is shared until the guest is out.
    "0*75 1 | OPERAND_BUSY P 1 | MNG.VPFLUSHDONE 1",
]];

#[test]
fn a_page_is_taken_beside_its_reader(rt: HostRuntime) -> Result<(), Fail> {
    replay_races(&rt, rt.alloc(), 1, READERS)
}

#[test]
fn a_page_moves_beside_other_calls(rt: HostRuntime) -> Result<(), Fail> {
    replay_races(&rt, rt.alloc(), 1, MOVES)
}

#[test]
fn a_guest_is_entered_beside_other_calls(rt: HostRuntime) -> Result<(), Fail> {
    replay_races(&rt, rt.alloc(), 1, GUESTS)
}
