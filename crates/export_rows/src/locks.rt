//! Two processors at the locks of calls that make bundles, under a schedule.
//!
//! TREE, STREAM and RUNS have 76 events, and each call after them 7, but for EXPORT.STATE.TD, which has 5.

use row_replay::{BEGUN, RUNS, Row, STREAM, TREE, replay_rows};
use std::test::Fail;

const ROWS: &[Row<'static>] = &[
    // EXPORT.STATE.IMMUTABLE shares the TDR page, and has the op state and the key table alone past its act.
    (
        "0*77 1",
        &[],
        &[
            &[TREE, STREAM, RUNS, BEGUN],
            &["OPERAND_BUSY P 1 | MNG.VPFLUSHDONE 1"],
        ],
        "",
    ),
    (
        "0*82 1",
        &[],
        &[
            &[TREE, STREAM, RUNS, BEGUN],
            &["OPERAND_BUSY P 1 | MNG.VPFLUSHDONE 1"],
        ],
        "",
    ),
    (
        "0*83 1*3",
        &[],
        &[
            &[TREE, STREAM, RUNS, BEGUN],
            &["LIFECYCLE_STATE_INCORRECT TD_KEYS_CONFIGURED | MNG.KEY.FREEID 1"],
        ],
        "",
    ),
    (
        "0*78 1*3",
        &[],
        &[
            &[TREE, STREAM, RUNS, BEGUN],
            &["OPERAND_BUSY O | MNG.RD 1 EPOCH"],
        ],
        "",
    ),
    (
        "0*81 1*3",
        &[],
        &[
            &[TREE, STREAM, RUNS, BEGUN],
            &["OPERAND_BUSY O | EXPORT.PAUSE 1"],
        ],
        "",
    ),
    (
        "0*82 1*5",
        &[],
        &[
            &[TREE, STREAM, RUNS, BEGUN],
            &["SUCCESS LIVE_EXPORT | MNG.RD 1 OP"],
        ],
        "",
    ),
    (
        "0*78 1*3",
        &[],
        &[&[TREE, STREAM, RUNS, BEGUN], &["SUCCESS | PHYMEM.CACHE.WB"]],
        "",
    ),
    (
        "0*79 1",
        &[],
        &[
            &[TREE, STREAM, RUNS, BEGUN],
            &["OPERAND_BUSY K | PHYMEM.CACHE.WB"],
        ],
        "",
    ),
    (
        "0*80 1*2",
        &[],
        &[
            &[TREE, STREAM, RUNS, BEGUN],
            &["OPERAND_BUSY K | MNG.CREATE 20 2"],
        ],
        "",
    ),
    (
        "0*81 1*5",
        &[],
        &[&[TREE, STREAM, RUNS, BEGUN], &["SUCCESS | MNG.CREATE 20 2"]],
        "",
    ),
    (
        "0*76 1 0",
        &[],
        &[
            &[
                TREE,
                STREAM,
                RUNS,
                "OPERAND_BUSY P 1 | EXPORT.STATE.IMMUTABLE 1 0",
            ],
            &["LIFECYCLE_STATE_INCORRECT TD_KEYS_CONFIGURED | MNG.KEY.FREEID 1"],
        ],
        "",
    ),
    (
        "0*77 1*2 0",
        &[],
        &[
            &[
                TREE,
                STREAM,
                RUNS,
                "OPERAND_BUSY O | EXPORT.STATE.IMMUTABLE 1 0",
            ],
            &["SUCCESS 1 | MNG.RD 1 EPOCH"],
        ],
        "",
    ),
    (
        "0*78 1 0",
        &[],
        &[
            &[
                TREE,
                STREAM,
                RUNS,
                "OPERAND_BUSY K | EXPORT.STATE.IMMUTABLE 1 0",
            ],
            &["SUCCESS | PHYMEM.CACHE.WB"],
        ],
        "",
    ),
    // EXPORT.TRACK has the op state and the tree alone.
    (
        "0*84 1",
        &[],
        &[
            &[TREE, STREAM, RUNS, BEGUN, "SUCCESS | EXPORT.TRACK 1 1 0"],
            &["OPERAND_BUSY P 1 | MNG.VPFLUSHDONE 1"],
        ],
        "",
    ),
    (
        "0*89 1",
        &[],
        &[
            &[TREE, STREAM, RUNS, BEGUN, "SUCCESS | EXPORT.TRACK 1 1 0"],
            &["OPERAND_BUSY P 1 | MNG.VPFLUSHDONE 1"],
        ],
        "",
    ),
    (
        "0*85 1*3",
        &[],
        &[
            &[TREE, STREAM, RUNS, BEGUN, "SUCCESS | EXPORT.TRACK 1 1 0"],
            &["OPERAND_BUSY O | MEM.SEPT.RD 1 0 0"],
        ],
        "",
    ),
    (
        "0*88 1*3",
        &[],
        &[
            &[TREE, STREAM, RUNS, BEGUN, "SUCCESS | EXPORT.TRACK 1 1 0"],
            &["OPERAND_BUSY O | EXPORT.TRACK 1 2 0"],
        ],
        "",
    ),
    (
        "0*90 1*7",
        &[],
        &[
            &[TREE, STREAM, RUNS, BEGUN, "SUCCESS | EXPORT.TRACK 1 1 0"],
            &["SUCCESS | EXPORT.TRACK 1 2 0"],
        ],
        "",
    ),
    (
        "0*83 1 0",
        &[],
        &[
            &[
                TREE,
                STREAM,
                RUNS,
                BEGUN,
                "OPERAND_BUSY P 1 | EXPORT.TRACK 1 1 0",
            ],
            &["LIFECYCLE_STATE_INCORRECT TD_KEYS_CONFIGURED | MNG.KEY.FREEID 1"],
        ],
        "",
    ),
    (
        "0*84 1*2 0",
        &[],
        &[
            &[
                TREE,
                STREAM,
                RUNS,
                BEGUN,
                "OPERAND_BUSY O | EXPORT.TRACK 1 1 0",
            ],
            &["SUCCESS 1 | MNG.RD 1 EPOCH"],
        ],
        "",
    ),
    // EXPORT.STATE.TD has the op state alone.
    (
        "0*91 1",
        &[],
        &[
            &[
                TREE,
                STREAM,
                RUNS,
                BEGUN,
                "SUCCESS | EXPORT.PAUSE 1",
                "SUCCESS | EXPORT.STATE.TD 1 1",
            ],
            &["OPERAND_BUSY P 1 | MNG.VPFLUSHDONE 1"],
        ],
        "",
    ),
    (
        "0*94 1",
        &[],
        &[
            &[
                TREE,
                STREAM,
                RUNS,
                BEGUN,
                "SUCCESS | EXPORT.PAUSE 1",
                "SUCCESS | EXPORT.STATE.TD 1 1",
            ],
            &["OPERAND_BUSY P 1 | MNG.VPFLUSHDONE 1"],
        ],
        "",
    ),
    (
        "0*92 1*3",
        &[],
        &[
            &[
                TREE,
                STREAM,
                RUNS,
                BEGUN,
                "SUCCESS | EXPORT.PAUSE 1",
                "SUCCESS | EXPORT.STATE.TD 1 1",
            ],
            &["OPERAND_BUSY O | MNG.RD 1 EPOCH"],
        ],
        "",
    ),
    (
        "0*93 1*3",
        &[],
        &[
            &[
                TREE,
                STREAM,
                RUNS,
                BEGUN,
                "SUCCESS | EXPORT.PAUSE 1",
                "SUCCESS | EXPORT.STATE.TD 1 1",
            ],
            &["OPERAND_BUSY O | EXPORT.STATE.TD 1 2"],
        ],
        "",
    ),
    (
        "0*94 1*5",
        &[],
        &[
            &[
                TREE,
                STREAM,
                RUNS,
                BEGUN,
                "SUCCESS | EXPORT.PAUSE 1",
                "SUCCESS | EXPORT.STATE.TD 1 1",
            ],
            &["ALREADY_EXPORTED | EXPORT.STATE.TD 1 2"],
        ],
        "",
    ),
    (
        "0*90 1 0",
        &[],
        &[
            &[
                TREE,
                STREAM,
                RUNS,
                BEGUN,
                "SUCCESS | EXPORT.PAUSE 1",
                "OPERAND_BUSY P 1 | EXPORT.STATE.TD 1 1",
            ],
            &["LIFECYCLE_STATE_INCORRECT TD_KEYS_CONFIGURED | MNG.KEY.FREEID 1"],
        ],
        "",
    ),
    (
        "0*91 1*2 0",
        &[],
        &[
            &[
                TREE,
                STREAM,
                RUNS,
                BEGUN,
                "SUCCESS | EXPORT.PAUSE 1",
                "OPERAND_BUSY O | EXPORT.STATE.TD 1 1",
            ],
            &["SUCCESS 1 | MNG.RD 1 EPOCH"],
        ],
        "",
    ),
    // EXPORT.STATE.VP has the op state and the VCPU alone.
    (
        "0*91 1",
        &[],
        &[
            &[
                TREE,
                STREAM,
                RUNS,
                BEGUN,
                "SUCCESS | EXPORT.PAUSE 1",
                "SUCCESS | EXPORT.STATE.VP 1 4 1",
            ],
            &["OPERAND_BUSY P 1 | MNG.VPFLUSHDONE 1"],
        ],
        "",
    ),
    (
        "0*96 1",
        &[],
        &[
            &[
                TREE,
                STREAM,
                RUNS,
                BEGUN,
                "SUCCESS | EXPORT.PAUSE 1",
                "SUCCESS | EXPORT.STATE.VP 1 4 1",
            ],
            &["OPERAND_BUSY P 1 | MNG.VPFLUSHDONE 1"],
        ],
        "",
    ),
    (
        "0*92 1*3",
        &[],
        &[
            &[
                TREE,
                STREAM,
                RUNS,
                BEGUN,
                "SUCCESS | EXPORT.PAUSE 1",
                "SUCCESS | EXPORT.STATE.VP 1 4 1",
            ],
            &["OPERAND_BUSY O | MNG.RD 1 EPOCH"],
        ],
        "",
    ),
    (
        "0*95 1*3",
        &[],
        &[
            &[
                TREE,
                STREAM,
                RUNS,
                BEGUN,
                "SUCCESS | EXPORT.PAUSE 1",
                "SUCCESS | EXPORT.STATE.VP 1 4 1",
            ],
            &["OPERAND_BUSY O | EXPORT.STATE.VP 1 4 2"],
        ],
        "",
    ),
    (
        "0*92 1*3",
        &[],
        &[
            &[
                TREE,
                STREAM,
                RUNS,
                BEGUN,
                "SUCCESS | EXPORT.PAUSE 1",
                "SUCCESS | EXPORT.STATE.VP 1 4 1",
            ],
            &["SUCCESS 0 | HOST.READ 4 0"],
        ],
        "",
    ),
    (
        "0*93 1",
        &[],
        &[
            &[
                TREE,
                STREAM,
                RUNS,
                BEGUN,
                "SUCCESS | EXPORT.PAUSE 1",
                "SUCCESS | EXPORT.STATE.VP 1 4 1",
            ],
            &["OPERAND_BUSY P 4 | HOST.READ 4 0"],
        ],
        "",
    ),
    (
        "0*94 1",
        &[],
        &[
            &[
                TREE,
                STREAM,
                RUNS,
                BEGUN,
                "SUCCESS | EXPORT.PAUSE 1",
                "SUCCESS | EXPORT.STATE.VP 1 4 1",
            ],
            &["OPERAND_BUSY P 4 | HOST.READ 4 0"],
        ],
        "",
    ),
    (
        "0*97 1*7",
        &[],
        &[
            &[
                TREE,
                STREAM,
                RUNS,
                BEGUN,
                "SUCCESS | EXPORT.PAUSE 1",
                "SUCCESS | EXPORT.STATE.VP 1 4 1",
            ],
            &["ALREADY_EXPORTED | EXPORT.STATE.VP 1 4 2"],
        ],
        "",
    ),
    (
        "0*90 1 0",
        &[],
        &[
            &[
                TREE,
                STREAM,
                RUNS,
                BEGUN,
                "SUCCESS | EXPORT.PAUSE 1",
                "OPERAND_BUSY P 1 | EXPORT.STATE.VP 1 4 1",
            ],
            &["LIFECYCLE_STATE_INCORRECT TD_KEYS_CONFIGURED | MNG.KEY.FREEID 1"],
        ],
        "",
    ),
    (
        "0*91 1*2 0",
        &[],
        &[
            &[
                TREE,
                STREAM,
                RUNS,
                BEGUN,
                "SUCCESS | EXPORT.PAUSE 1",
                "OPERAND_BUSY O | EXPORT.STATE.VP 1 4 1",
            ],
            &["SUCCESS 1 | MNG.RD 1 EPOCH"],
        ],
        "",
    ),
    (
        "0*92 1 0",
        &[],
        &[
            &[
                TREE,
                STREAM,
                RUNS,
                BEGUN,
                "SUCCESS | EXPORT.PAUSE 1",
                "OPERAND_BUSY P 4 | EXPORT.STATE.VP 1 4 1",
            ],
            &["SUCCESS 0 | HOST.READ 4 0"],
        ],
        "",
    ),
];

#[test]
fn calls_that_make_bundles_meet_at_locks(rt: HostRuntime) -> Result<(), Fail> {
    replay_rows(&rt, rt.alloc(), ROWS)
}
