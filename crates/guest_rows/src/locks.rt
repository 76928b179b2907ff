//! Locks that a guest holds until it is out.

use row_replay::{ALONE, Asked, RUNS, Row, TREE, replay_asked, replay_rows};
use std::test::Fail;

const WORKED: &[Asked<'static>] = &[
    // P of the VCPU is held alone.
    (
        "replay s",
        "2 32 1",
        (
            "0*75 1*2",
            &[],
            &[
                &[TREE, RUNS, "EXIT STOP | VP.ENTER 1 4 9"],
                &["OPERAND_BUSY P 4 | VP.FLUSH 1 4"],
            ],
            "",
        ),
    ),
    // Once its guest is out the VCPU's association is left.
    (
        "replay s",
        "2 32 1",
        (
            "0*79",
            &[],
            &[
                &[TREE, RUNS, "EXIT STOP | VP.ENTER 1 4 9"],
                &["FLUSHVP_NOT_DONE 1 | MNG.VPFLUSHDONE 1"],
            ],
            "",
        ),
    ),
];

const ROWS: &[Row<'static>] = &[
    // The TDR page is shared up to the last event of the entry.
    (
        "0*78 1",
        &[],
        &[
            &[TREE, RUNS, "EXIT STOP | VP.ENTER 1 4 9"],
            &["OPERAND_BUSY P 1 | MNG.VPFLUSHDONE 1"],
        ],
        "",
    ),
    // O is shared.
    (
        "0*75 1*3",
        &[],
        &[
            &[TREE, RUNS, "EXIT STOP | VP.ENTER 1 4 9"],
            &["OPERAND_BUSY O | MR.FINALIZE 1"],
        ],
        "",
    ),
    (
        "0*77 1*3",
        &[],
        &[
            &[TREE, RUNS, "EXIT STOP | VP.ENTER 1 4 9"],
            &["OPERAND_BUSY O | MR.FINALIZE 1"],
        ],
        "",
    ),
    // P of the VCPU is held alone up to the exit's second event.
    (
        "0*76 1*5",
        &[],
        &[
            &[TREE, RUNS, "EXIT STOP | VP.ENTER 1 4 9"],
            &["OPERAND_BUSY P 4 | VP.ENTER 1 4 9"],
        ],
        "",
    ),
    // The epoch is shared up to the sixth event.
    (
        "0*74 1*3",
        &[],
        &[
            &[TREE, RUNS, "EXIT STOP | VP.ENTER 1 4 9"],
            &["OPERAND_BUSY E | MEM.TRACK 1"],
        ],
        "",
    ),
];

#[test]
fn a_guest_holds_its_locks(rt: HostRuntime) -> Result<(), Fail> {
    replay_asked(&rt, rt.alloc(), ALONE, WORKED)?;
    replay_rows(&rt, rt.alloc(), ROWS)
}
