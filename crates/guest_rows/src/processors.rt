//! Guests of up to eight processors, and of two TDs.

use row_replay::{BUILT, OTHER, PAGE, RUNS, Row, TREE, replay_rows};
use std::test::Fail;

const ROWS: &[Row<'static>] = &[
    // Eight processors with a guest each: all store, and then each loads what the next one stored.
    (
        "0*178 0*6 1*6 2*6 3*6 4*6 5*6 6*6 7*6 0*6 1*6 2*6 3*6 4*6 5*6 6*6 7*6 7 6 5 4 3 2 1 0",
        &[
            "1 0 | set 1 10 | store 1 0 | load 2 8",
            "1 1 | set 1 11 | store 1 8 | load 2 16",
            "1 2 | set 1 12 | store 1 16 | load 2 24",
            "1 3 | set 1 13 | store 1 24 | load 2 32",
            "1 4 | set 1 14 | store 1 32 | load 2 40",
            "1 5 | set 1 15 | store 1 40 | load 2 48",
            "1 6 | set 1 16 | store 1 48 | load 2 56",
            "1 7 | set 1 17 | store 1 56 | load 2 0",
        ],
        &[
            &[
                BUILT,
                "SUCCESS | VP.CREATE 1 9 | VP.CREATE 1 10 | VP.CREATE 1 11 \
                        | VP.CREATE 1 12 | VP.CREATE 1 13 | VP.CREATE 1 14 | VP.CREATE 1 15 \
                        | VP.CREATE 1 16",
                "SUCCESS | VP.INIT 1 9 0 | VP.INIT 1 10 0 | VP.INIT 1 11 0 \
                        | VP.INIT 1 12 0 | VP.INIT 1 13 0 | VP.INIT 1 14 0 | VP.INIT 1 15 0 \
                        | VP.INIT 1 16 0",
                "SUCCESS | MEM.SEPT.ADD 1 0 3 5 | MEM.SEPT.ADD 1 0 2 6 | MEM.SEPT.ADD 1 0 1 7",
                PAGE,
                RUNS,
                "EXIT STOP | VP.ENTER 1 9 9",
            ],
            &["EXIT STOP | VP.ENTER 1 10 9"],
            &["EXIT STOP | VP.ENTER 1 11 9"],
            &["EXIT STOP | VP.ENTER 1 12 9"],
            &["EXIT STOP | VP.ENTER 1 13 9"],
            &["EXIT STOP | VP.ENTER 1 14 9"],
            &["EXIT STOP | VP.ENTER 1 15 9"],
            &["EXIT STOP | VP.ENTER 1 16 9"],
        ],
        "0.27 load 0x8 11 | 1.1 load 0x10 12 | 2.1 load 0x18 13 | 3.1 load 0x20 14 \
                | 4.1 load 0x28 15 | 5.1 load 0x30 16 | 6.1 load 0x38 17 | 7.1 load 0x0 10",
    ),
    // A page is given to another TD, whose guest runs, while a guest of its first TD goes on with
    // an old translation of another page, which is blocked and stays.
    (
        "0*192 1*11 1*11 1*11 1*9 2*21 0",
        &[
            "1 0 | load 1 0x1000 | load 2 0x1000 | load 3 0",
            "20 0 | accept 0 | set 1 22 | store 1 0 | load 2 0",
        ],
        &[
            &[
                TREE,
                "SUCCESS | HOST.WRITE 0 0 11",
                PAGE,
                "SUCCESS | MEM.PAGE.ADD 1 0x1000 10 0",
                RUNS,
                OTHER,
                "SUCCESS | MR.FINALIZE 20",
                "SUCCESS | MEM.RANGE.BLOCK 1 0 0 | MEM.TRACK 1",
                "EXIT EPT_VIOLATION 0x0 READ | VP.ENTER 1 4 9",
            ],
            &[
                "SUCCESS | MEM.RANGE.BLOCK 1 0x1000 0 | MEM.PAGE.REMOVE 1 0 \
                        ; TLB_TRACKING_NOT_DONE | MEM.PAGE.REMOVE 1 0x1000",
                "SUCCESS | MEM.PAGE.AUG 20 0 8",
            ],
            &["EXIT STOP | VP.ENTER 20 23 9"],
        ],
        "0.28 load 0x1000 11 | 0.28 load 0x1000 11 | 2.1 load 0x0 22",
    ),
];

#[test]
fn guests_run_beside_one_another(rt: HostRuntime) -> Result<(), Fail> {
    replay_rows(&rt, rt.alloc(), ROWS)
}
