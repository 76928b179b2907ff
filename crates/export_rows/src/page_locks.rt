//! Two processors at the locks of EXPORT.MEM, under a schedule.
//!
//! TREE and PAGES have 125 events, a session that is paused 14 more, and SENT has 25 before the export of
//! its page, which has 13.

use row_replay::{PAGES, Row, SENT, TREE, replay_rows};
use std::test::Fail;

const ROWS: &[Row<'static>] = &[
    // It shares the TDR page, the op state, the tree and the epoch, and has its page and its stream's alone.
    (
        "0*140 1",
        &[],
        &[
            &[
                TREE,
                PAGES,
                "SUCCESS | EXPORT.STATE.IMMUTABLE 1 0 | EXPORT.PAUSE 1",
                "SUCCESS | EXPORT.MEM 1 0 1 1",
            ],
            &["OPERAND_BUSY P 1 | MNG.VPFLUSHDONE 1"],
        ],
        "",
    ),
    (
        "0*141 1*3",
        &[],
        &[
            &[
                TREE,
                PAGES,
                "SUCCESS | EXPORT.STATE.IMMUTABLE 1 0 | EXPORT.PAUSE 1",
                "SUCCESS | EXPORT.MEM 1 0 1 1",
            ],
            &["OPERAND_BUSY O | EXPORT.ABORT 1"],
        ],
        "",
    ),
    (
        "0*141 1*5",
        &[],
        &[
            &[
                TREE,
                PAGES,
                "SUCCESS | EXPORT.STATE.IMMUTABLE 1 0 | EXPORT.PAUSE 1",
                "SUCCESS | EXPORT.MEM 1 0 1 1",
            ],
            &["SUCCESS PAUSED_EXPORT | MNG.RD 1 OP"],
        ],
        "",
    ),
    (
        "0*142 1*4",
        &[],
        &[
            &[
                TREE,
                PAGES,
                "SUCCESS | EXPORT.STATE.IMMUTABLE 1 0 | EXPORT.PAUSE 1",
                "SUCCESS | EXPORT.MEM 1 0 1 1",
            ],
            &["OPERAND_BUSY T | MEM.SEPT.RD 1 0 0"],
        ],
        "",
    ),
    (
        "0*154 1*4",
        &[],
        &[&[TREE, PAGES, SENT], &["OPERAND_BUSY E | MEM.TRACK 1"]],
        "",
    ),
    (
        "0*154 1*7",
        &[],
        &[&[TREE, PAGES, SENT], &["SUCCESS 2 | MNG.RD 1 EPOCH"]],
        "",
    ),
    (
        "0*143 1*3",
        &[],
        &[
            &[
                TREE,
                PAGES,
                "SUCCESS | EXPORT.STATE.IMMUTABLE 1 0 | EXPORT.PAUSE 1",
                "SUCCESS | EXPORT.MEM 1 0 1 1",
            ],
            &["SUCCESS 0 | HOST.READ 8 0"],
        ],
        "",
    ),
    (
        "0*144 1*2",
        &[],
        &[
            &[
                TREE,
                PAGES,
                "SUCCESS | EXPORT.STATE.IMMUTABLE 1 0 | EXPORT.PAUSE 1",
                "SUCCESS | EXPORT.MEM 1 0 1 1",
            ],
            &["OPERAND_BUSY P 8 | HOST.READ 8 0"],
        ],
        "",
    ),
    (
        "0*144 1*3",
        &[],
        &[
            &[
                TREE,
                PAGES,
                "SUCCESS | EXPORT.STATE.IMMUTABLE 1 0 | EXPORT.PAUSE 1",
                "SUCCESS | EXPORT.MEM 1 0 1 1",
            ],
            &["SUCCESS 0 | HOST.READ 12 0"],
        ],
        "",
    ),
    (
        "0*145 1*2",
        &[],
        &[
            &[
                TREE,
                PAGES,
                "SUCCESS | EXPORT.STATE.IMMUTABLE 1 0 | EXPORT.PAUSE 1",
                "SUCCESS | EXPORT.MEM 1 0 1 1",
            ],
            &["OPERAND_BUSY P 12 | HOST.READ 12 0"],
        ],
        "",
    ),
    // Past its act it releases them, the last one first.
    (
        "0*146 1*2",
        &[],
        &[
            &[
                TREE,
                PAGES,
                "SUCCESS | EXPORT.STATE.IMMUTABLE 1 0 | EXPORT.PAUSE 1",
                "SUCCESS | EXPORT.MEM 1 0 1 1",
            ],
            &["OPERAND_BUSY P 12 | HOST.READ 12 0"],
        ],
        "",
    ),
    (
        "0*147 1*5",
        &[],
        &[
            &[
                TREE,
                PAGES,
                "SUCCESS | EXPORT.STATE.IMMUTABLE 1 0 | EXPORT.PAUSE 1",
                "SUCCESS | EXPORT.MEM 1 0 1 1",
            ],
            &["SUCCESS 0 | HOST.READ 12 0 ; OPERAND_BUSY P 8 | HOST.READ 8 0"],
        ],
        "",
    ),
    (
        "0*148 1*3",
        &[],
        &[
            &[
                TREE,
                PAGES,
                "SUCCESS | EXPORT.STATE.IMMUTABLE 1 0 | EXPORT.PAUSE 1",
                "SUCCESS | EXPORT.MEM 1 0 1 1",
            ],
            &["SUCCESS 0 | HOST.READ 8 0"],
        ],
        "",
    ),
    (
        "0*160 1*7",
        &[],
        &[&[TREE, PAGES, SENT], &["SUCCESS | MEM.TRACK 1"]],
        "",
    ),
    (
        "0*149 1*4",
        &[],
        &[
            &[
                TREE,
                PAGES,
                "SUCCESS | EXPORT.STATE.IMMUTABLE 1 0 | EXPORT.PAUSE 1",
                "SUCCESS | EXPORT.MEM 1 0 1 1",
            ],
            &["OPERAND_BUSY T | MEM.SEPT.RD 1 0 0"],
        ],
        "",
    ),
    (
        "0*150 1*7",
        &[],
        &[
            &[
                TREE,
                PAGES,
                "SUCCESS | EXPORT.STATE.IMMUTABLE 1 0 | EXPORT.PAUSE 1",
                "SUCCESS | EXPORT.MEM 1 0 1 1",
            ],
            &["SUCCESS EXPORTED_BLOCKEDW 8 | MEM.SEPT.RD 1 0 0"],
        ],
        "",
    ),
    (
        "0*151 1*7",
        &[],
        &[
            &[
                TREE,
                PAGES,
                "SUCCESS | EXPORT.STATE.IMMUTABLE 1 0 | EXPORT.PAUSE 1",
                "SUCCESS | EXPORT.MEM 1 0 1 1",
            ],
            &["SUCCESS | EXPORT.ABORT 1"],
        ],
        "",
    ),
    (
        "0*151 1",
        &[],
        &[
            &[
                TREE,
                PAGES,
                "SUCCESS | EXPORT.STATE.IMMUTABLE 1 0 | EXPORT.PAUSE 1",
                "SUCCESS | EXPORT.MEM 1 0 1 1",
            ],
            &["OPERAND_BUSY P 1 | MNG.VPFLUSHDONE 1"],
        ],
        "",
    ),
    // It is refused at each lock that another has, and has made no bundle then.
    (
        "0*139 1 0*2",
        &[],
        &[
            &[
                TREE,
                PAGES,
                "SUCCESS | EXPORT.STATE.IMMUTABLE 1 0 | EXPORT.PAUSE 1",
                "OPERAND_BUSY P 1 | EXPORT.MEM 1 0 1 1",
            ],
            &["SUCCESS | MNG.VPFLUSHDONE 1"],
        ],
        "",
    ),
    (
        "0*139 1*2 0*4",
        &[],
        &[
            &[
                TREE,
                PAGES,
                "SUCCESS | EXPORT.STATE.IMMUTABLE 1 0 | EXPORT.PAUSE 1",
                "OPERAND_BUSY O | EXPORT.MEM 1 0 1 1",
            ],
            &["SUCCESS | EXPORT.ABORT 1"],
        ],
        "",
    ),
    (
        "0*139 1*3 0*6",
        &[],
        &[
            &[
                TREE,
                PAGES,
                "SUCCESS | EXPORT.STATE.IMMUTABLE 1 0 | EXPORT.PAUSE 1",
                "OPERAND_BUSY T | EXPORT.MEM 1 0 1 1",
            ],
            &["SUCCESS MAPPED 8 | MEM.SEPT.RD 1 0 0"],
        ],
        "",
    ),
    (
        "0*150 1*3 0*8",
        &[],
        &[
            &[
                TREE,
                PAGES,
                "SUCCESS | EXPORT.STATE.IMMUTABLE 1 0 | EXPORT.BLOCKW 1 0 | MEM.TRACK 1",
                "OPERAND_BUSY E | EXPORT.MEM 1 0 1 1",
            ],
            &["SUCCESS | MEM.TRACK 1"],
        ],
        "",
    ),
    (
        "0*139 1 0*9 1*2",
        &[],
        &[
            &[
                TREE,
                PAGES,
                "SUCCESS | EXPORT.STATE.IMMUTABLE 1 0 | EXPORT.PAUSE 1",
                "OPERAND_BUSY P 8 | EXPORT.MEM 1 0 1 1 ; SUCCESS | EXPORT.MEM 1 0 1 2",
            ],
            &["SUCCESS 0 | HOST.READ 8 0"],
        ],
        "",
    ),
    (
        "0*139 1 0*11 1*2",
        &[],
        &[
            &[
                TREE,
                PAGES,
                "SUCCESS | EXPORT.STATE.IMMUTABLE 1 0 | EXPORT.PAUSE 1",
                "OPERAND_BUSY P 12 | EXPORT.MEM 1 0 1 1 ; SUCCESS | EXPORT.MEM 1 0 1 2",
            ],
            &["SUCCESS 0 | HOST.READ 12 0"],
        ],
        "",
    ),
    // Two of them meet at a page and at a stream, and at nothing else.
    (
        "0*145 1*13 0*7",
        &[],
        &[
            &[
                TREE,
                PAGES,
                "SUCCESS | EXPORT.STATE.IMMUTABLE 1 0 | EXPORT.PAUSE 1",
                "SUCCESS | EXPORT.MEM 1 0 1 1",
            ],
            &["SUCCESS | EXPORT.MEM 1 4096 0 2"],
        ],
        "",
    ),
    (
        "0*145 1*11 0*7",
        &[],
        &[
            &[
                TREE,
                PAGES,
                "SUCCESS | EXPORT.STATE.IMMUTABLE 1 0 | EXPORT.PAUSE 1",
                "SUCCESS | EXPORT.MEM 1 0 1 1",
            ],
            &["OPERAND_BUSY P 12 | EXPORT.MEM 1 4096 1 2 ; SUCCESS | EXPORT.MEM 1 4096 1 3"],
        ],
        "",
    ),
    (
        "0*144 1*9 0*8",
        &[],
        &[
            &[
                TREE,
                PAGES,
                "SUCCESS | EXPORT.STATE.IMMUTABLE 1 0 | EXPORT.PAUSE 1",
                "SUCCESS | EXPORT.MEM 1 0 1 1",
            ],
            &[
                "OPERAND_BUSY P 8 | EXPORT.MEM 1 0 0 2 ; EPT_ENTRY_STATE_INCORRECT EXPORTED_BLOCKEDW | EXPORT.MEM 1 0 0 3",
            ],
        ],
        "",
    ),
    // Between the tries of two of them the page goes out once.
    (
        "0*143 1*13 0*8",
        &[],
        &[
            &[
                TREE,
                PAGES,
                "SUCCESS | EXPORT.STATE.IMMUTABLE 1 0 | EXPORT.PAUSE 1",
                "EPT_ENTRY_STATE_INCORRECT EXPORTED_BLOCKEDW | EXPORT.MEM 1 0 1 1",
            ],
            &["SUCCESS | EXPORT.MEM 1 0 0 2"],
        ],
        "",
    ),
    // Writes are allowed again while it waits for its page.
    (
        "0*150 0*2 1*9 0*9",
        &[],
        &[
            &[
                TREE,
                PAGES,
                "SUCCESS | EXPORT.STATE.IMMUTABLE 1 0 | EXPORT.BLOCKW 1 0 | MEM.TRACK 1",
                "EPT_ENTRY_STATE_INCORRECT MAPPED | EXPORT.MEM 1 0 1 1",
            ],
            &["SUCCESS | EXPORT.UNBLOCKW 1 0"],
        ],
        "",
    ),
];

#[test]
fn pages_are_exported_beside_others(rt: HostRuntime) -> Result<(), Fail> {
    replay_rows(&rt, rt.alloc(), ROWS)
}
