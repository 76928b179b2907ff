//! Entering a VCPU, and letting it go.

use row_replay::{ALONE, Asked, RUNS, Row, TREE, replay_asked, replay_rows};
use std::test::Fail;

const WORKED: &[Asked<'static>] = &[
    // A VCPU is let go by the processor that has entered it, and once.
    (
        "replay s",
        "2 32 1",
        (
            "0*79",
            &[],
            &[
                &[TREE, RUNS, "EXIT STOP | VP.ENTER 1 4 9"],
                &["VCPU_ASSOCIATED 0 | VP.FLUSH 1 4"],
            ],
            "",
        ),
    ),
    (
        "replay s",
        "1 32 1",
        (
            "",
            &[],
            &[&[
                TREE,
                RUNS,
                "EXIT STOP | VP.ENTER 1 4 9",
                "SUCCESS | VP.FLUSH 1 4 ; VCPU_NOT_ASSOCIATED | VP.FLUSH 1 4",
            ]],
            "",
        ),
    ),
];

const ROWS: &[Row<'static>] = &[
    // Arguments: each range, the page named twice, and which of two counts.
    (
        "",
        &[],
        &[&[
            "OPERAND_INVALID 1 | VP.ENTER 32 4 1 | VP.ENTER 32 32 0",
            "OPERAND_INVALID 2 | VP.ENTER 1 32 1 | VP.ENTER 1 32 0 | VP.ENTER 1 1 1",
            "OPERAND_INVALID 3 | VP.ENTER 1 4 0 | VP.ENTER 1 4 65536 | VP.ENTER 1 1 0 \
                    | VP.ENTER 1 4 18446744073709551615",
            "OPERAND_INVALID 1 | VP.FLUSH 32 4",
            "OPERAND_INVALID 2 | VP.FLUSH 1 32 | VP.FLUSH 1 1",
        ]],
        "",
    ),
    // What a TD's life refuses, before and behind the time when it runs.
    (
        "",
        &[],
        &[&[
            "PAGE_METADATA_INCORRECT 1 | VP.ENTER 1 4 1 | VP.FLUSH 1 4",
            "SUCCESS | MNG.CREATE 1 1",
            "LIFECYCLE_STATE_INCORRECT TD_HKID_ASSIGNED | VP.ENTER 1 4 1 \
                    | VP.FLUSH 1 4",
            "SUCCESS | MNG.KEY.CONFIG 1",
            "TDCX_NUM_INCORRECT 0 | VP.ENTER 1 4 1",
            "PAGE_METADATA_INCORRECT 4 | VP.FLUSH 1 4",
            "SUCCESS | MNG.ADDCX 1 2",
            "TDCX_NUM_INCORRECT 1 | VP.ENTER 1 4 1",
            "SUCCESS | MNG.ADDCX 1 3",
            "OP_STATE_INCORRECT UNINITIALIZED | VP.ENTER 1 4 1",
            "SUCCESS | MNG.INIT 1 | VP.CREATE 1 4",
            "OP_STATE_INCORRECT INITIALIZED | VP.ENTER 1 4 1",
            "VCPU_NOT_ASSOCIATED | VP.FLUSH 1 4",
            "SUCCESS | VP.INIT 1 4 0 | MR.FINALIZE 1",
            "PAGE_METADATA_INCORRECT 2 | VP.ENTER 1 2 1 | VP.FLUSH 1 2",
            "PAGE_METADATA_INCORRECT 9 | VP.ENTER 1 9 1 | VP.FLUSH 1 9",
            "VCPU_NOT_ASSOCIATED | VP.FLUSH 1 4",
            "EXIT STOP | VP.ENTER 1 4 1",
            "FLUSHVP_NOT_DONE 1 | MNG.VPFLUSHDONE 1",
            "SUCCESS | VP.FLUSH 1 4",
            "VCPU_NOT_ASSOCIATED | VP.FLUSH 1 4",
            "SUCCESS | MNG.VPFLUSHDONE 1",
            "LIFECYCLE_STATE_INCORRECT TD_BLOCKED | VP.ENTER 1 4 1 | VP.FLUSH 1 4",
            "SUCCESS | PHYMEM.CACHE.WB | MNG.KEY.FREEID 1",
            "LIFECYCLE_STATE_INCORRECT TD_TEARDOWN | VP.ENTER 1 4 1 | VP.FLUSH 1 4",
        ]],
        "",
    ),
    // The VCPU of another TD.
    (
        "",
        &[],
        &[&[
            TREE,
            RUNS,
            "SUCCESS | MNG.CREATE 20 2 | MNG.KEY.CONFIG 20 | MNG.ADDCX 20 21 \
                    | MNG.ADDCX 20 22 | MNG.INIT 20 | MR.FINALIZE 20",
            "PAGE_METADATA_INCORRECT 4 | VP.ENTER 20 4 1 | VP.FLUSH 20 4",
        ]],
        "",
    ),
    // A VCPU that another processor has entered.
    (
        "0*79",
        &[],
        &[
            &[TREE, RUNS, "EXIT STOP | VP.ENTER 1 4 9"],
            &["VCPU_ASSOCIATED 0 | VP.ENTER 1 4 9"],
        ],
        "",
    ),
    (
        "0*77 1*7",
        &[],
        &[
            &[TREE, RUNS, "EXIT STOP | VP.ENTER 1 4 9"],
            &["VCPU_ASSOCIATED 0 | VP.ENTER 1 4 9"],
        ],
        "",
    ),
];

#[test]
fn entries_are_refused_in_order(rt: HostRuntime) -> Result<(), Fail> {
    replay_asked(&rt, rt.alloc(), ALONE, WORKED)?;
    replay_rows(&rt, rt.alloc(), ROWS)
}
