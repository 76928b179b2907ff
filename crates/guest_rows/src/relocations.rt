//! A page that moves while its guest runs.

use row_replay::{ALONE, Asked, PAGE, RUNS, Row, TREE, replay_asked, replay_rows};
use std::test::Fail;

const WORKED: &[Asked<'static>] = &[
    // A reader is left alone until it is out.
    (
        "replay s",
        "2 32 1",
        (
            "0*91 1*44 0*5",
            &["1 0 | load 1 0 | set 2 5"],
            &[
                &[TREE, PAGE, RUNS, "EXIT STOP | VP.ENTER 1 4 100"],
                &[
                    "SUCCESS | MEM.RANGE.BLOCK 1 0 0 ; TLB_TRACKING_NOT_DONE | MEM.PAGE.RELOCATE 1 0 9",
                    "SUCCESS | MEM.TRACK 1 ; TLB_TRACKING_NOT_DONE | MEM.PAGE.RELOCATE 1 0 9",
                    "SUCCESS | MEM.PAGE.RELOCATE 1 0 9 ; SUCCESS 0 | HOST.READ 8 0",
                ],
            ],
            "",
        ),
    ),
];

const ROWS: &[Row<'static>] = &[
    // A store behind the block comes in time, since the guest still has its translation; once it is out the
    // page moves, and the word is found there.
    (
        "0*91 1*11 0*2 1*19 0*4 1*13",
        &["1 0 | load 1 0 | set 2 5 | store 2 0 | load 3 0"],
        &[
            &[
                TREE,
                PAGE,
                RUNS,
                "EXIT MAX | VP.ENTER 1 4 3",
                "EXIT STOP | VP.ENTER 1 4 9",
                "SUCCESS MAPPED 9 | MEM.SEPT.RD 1 0 0",
            ],
            &[
                "SUCCESS | MEM.RANGE.BLOCK 1 0 0 | MEM.TRACK 1",
                "TLB_TRACKING_NOT_DONE | MEM.PAGE.RELOCATE 1 0 9",
                "SUCCESS | MEM.PAGE.RELOCATE 1 0 9",
            ],
        ],
        "0.13 load 0x0 0 | 0.14 load 0x0 5",
    ),
    // A page moves beside a guest that entered behind the block's tracking: before the act it finds the
    // block, and behind it the other page.
    (
        "0*120 1*6",
        &["1 0 | set 1 7 | store 1 0 | load 2 0"],
        &[
            &[
                TREE,
                PAGE,
                RUNS,
                "EXIT MAX | VP.ENTER 1 4 2",
                "SUCCESS | MEM.RANGE.BLOCK 1 0 0 | MEM.TRACK 1",
                "EXIT EPT_VIOLATION 0x0 READ | VP.ENTER 1 4 9",
            ],
            &["SUCCESS | MEM.PAGE.RELOCATE 1 0 9"],
        ],
        "",
    ),
    (
        "0*120 1*7",
        &["1 0 | set 1 7 | store 1 0 | load 2 0"],
        &[
            &[
                TREE,
                PAGE,
                RUNS,
                "EXIT MAX | VP.ENTER 1 4 2",
                "SUCCESS | MEM.RANGE.BLOCK 1 0 0 | MEM.TRACK 1",
                "EXIT STOP | VP.ENTER 1 4 9",
            ],
            &["SUCCESS | MEM.PAGE.RELOCATE 1 0 9"],
        ],
        "0.16 load 0x0 7",
    ),
];

#[test]
fn a_guest_finds_its_words_where_they_are(rt: HostRuntime) -> Result<(), Fail> {
    replay_asked(&rt, rt.alloc(), ALONE, WORKED)?;
    replay_rows(&rt, rt.alloc(), ROWS)
}
