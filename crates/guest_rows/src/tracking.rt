//! Memory that is taken from a TD whose guests run.

use row_replay::{ALONE, Asked, PAGE, RUNS, Row, SECOND, TREE, replay_asked, replay_rows};
use std::test::Fail;

const WORKED: &[Asked<'static>] = &[
    // A reader is left alone until it is out: blocked, tracked, removed, cleared.
    (
        "replay s",
        "2 32 1",
        (
            "0*91 1*40 0*5",
            &["1 0 | load 1 0 | set 2 5"],
            &[
                &[TREE, PAGE, RUNS, "EXIT STOP | VP.ENTER 1 4 100"],
                &[
                    "SUCCESS | MEM.RANGE.BLOCK 1 0 0 ; TLB_TRACKING_NOT_DONE | MEM.PAGE.REMOVE 1 0",
                    "SUCCESS | MEM.TRACK 1 ; TLB_TRACKING_NOT_DONE | MEM.PAGE.REMOVE 1 0",
                    "SUCCESS | MEM.PAGE.REMOVE 1 0 ; SUCCESS 0 | HOST.READ 8 0",
                ],
            ],
            "",
        ),
    ),
    // The epoch may not advance twice while a VCPU of the epoch before is in guest.
    (
        "replay s",
        "2 32 1",
        (
            "0*91 1*14",
            &["1 0 | load 1 0 | set 2 5"],
            &[
                &[TREE, PAGE, RUNS, "EXIT STOP | VP.ENTER 1 4 100"],
                &["SUCCESS | MEM.TRACK 1 ; PREVIOUS_TLB_EPOCH_BUSY 1 | MEM.TRACK 1"],
            ],
            "",
        ),
    ),
];

const ROWS: &[Row<'static>] = &[
    // A page is removed beside a guest that entered behind the block's tracking, which may stay in.
    (
        "0*104 1*11",
        &["1 0 | set 1 7"],
        &[
            &[
                TREE,
                PAGE,
                RUNS,
                "SUCCESS | MEM.RANGE.BLOCK 1 0 0 | MEM.TRACK 1",
                "EXIT STOP | VP.ENTER 1 4 9",
            ],
            &["SUCCESS | MEM.PAGE.REMOVE 1 0"],
        ],
        "",
    ),
    // And beside a guest of the epoch before, where the block is older than that epoch.
    (
        "0*104 1*25",
        &["1 0 | set 1 7"],
        &[
            &[
                TREE,
                PAGE,
                RUNS,
                "SUCCESS | MEM.RANGE.BLOCK 1 0 0 | MEM.TRACK 1",
                "EXIT STOP | VP.ENTER 1 4 9",
            ],
            &[
                "SUCCESS | MEM.TRACK 1 | MEM.PAGE.REMOVE 1 0",
                "PREVIOUS_TLB_EPOCH_BUSY 1 | MEM.TRACK 1",
            ],
        ],
        "",
    ),
    // TD_EPOCH rises while a guest of the epoch is in, and no second time.
    (
        "0*75 1*14",
        &[],
        &[
            &[TREE, RUNS, "EXIT STOP | VP.ENTER 1 4 9"],
            &[
                "SUCCESS | MEM.TRACK 1",
                "PREVIOUS_TLB_EPOCH_BUSY 1 | MEM.TRACK 1",
            ],
        ],
        "",
    ),
    // Guests of two epochs are in at once, and the older one is waited for.
    (
        "0*89 1*24",
        &[],
        &[
            &[TREE, SECOND, RUNS, "EXIT STOP | VP.ENTER 1 4 9"],
            &[
                "SUCCESS | MEM.TRACK 1",
                "EXIT STOP | VP.ENTER 1 9 9",
                "PREVIOUS_TLB_EPOCH_BUSY 1 | MEM.TRACK 1",
            ],
        ],
        "",
    ),
    // The count falls at the exit's first event.
    (
        "0*75 1*7 0 1*7",
        &[],
        &[
            &[TREE, RUNS, "EXIT STOP | VP.ENTER 1 4 9"],
            &["SUCCESS | MEM.TRACK 1 | MEM.TRACK 1"],
        ],
        "",
    ),
];

#[test]
fn no_page_is_taken_from_a_guest_that_may_use_it(rt: HostRuntime) -> Result<(), Fail> {
    replay_asked(&rt, rt.alloc(), ALONE, WORKED)?;
    replay_rows(&rt, rt.alloc(), ROWS)
}
