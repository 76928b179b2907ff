//! Words of private pages: what a guest stores and loads.

use row_replay::{OTHER, PAGE, RUNS, Row, SECOND, TREE, replay_rows};
use std::test::Fail;

const ROWS: &[Row<'static>] = &[
    // What is stored is loaded; the host sees nothing of it.
    (
        "",
        &["1 0 | set 1 5 | store 1 8 | load 2 8"],
        &[&[
            TREE,
            PAGE,
            RUNS,
            "EXIT STOP | VP.ENTER 1 4 100",
            "SUCCESS 0 | HOST.READ 8 1",
        ]],
        "0.13 load 0x8 5",
    ),
    (
        "",
        &["1 0 | set 1 5 | store 1 8 | load 2 8 | vmcall 1"],
        &[&[TREE, PAGE, RUNS, "EXIT VMCALL 5 | VP.ENTER 1 4 100"]],
        "0.13 load 0x8 5",
    ),
    // Two VCPUs share their TD's memory, each with translations of its own.
    (
        "0*94 0*6 0*6 1*6 1*5 0*2 1 1*2 0",
        &[
            "1 0 | set 1 7 | store 1 0 | set 1 8 | store 1 0 | load 2 8",
            "1 1 | load 1 0 | load 2 0 | add 1 2 | store 1 8",
        ],
        &[
            &[TREE, SECOND, PAGE, RUNS, "EXIT STOP | VP.ENTER 1 4 9"],
            &["EXIT STOP | VP.ENTER 1 9 9"],
        ],
        "0.15 load 0x8 15 | 1.1 load 0x0 7 | 1.1 load 0x0 8",
    ),
    // Guests of two TDs on two processors at once, at the same GPA: each has its own page.
    (
        "0*166 1*6 2*6 1*5 2*5 1 2 1*5 2*5",
        &[
            "1 0 | load 1 0 | store 2 0 | load 3 0",
            "20 0 | load 1 0 | store 2 0 | load 3 0",
        ],
        &[
            &[
                TREE,
                "SUCCESS | HOST.WRITE 0 0 11",
                PAGE,
                RUNS,
                OTHER,
                "SUCCESS | HOST.WRITE 0 0 22 | MEM.PAGE.ADD 20 0 27 0 | MR.FINALIZE 20",
            ],
            &["EXIT STOP | VP.ENTER 1 4 9"],
            &["EXIT STOP | VP.ENTER 20 23 9"],
        ],
        "1.1 load 0x0 11 | 1.1 load 0x0 0 | 2.1 load 0x0 22 | 2.1 load 0x0 0",
    ),
];

#[test]
fn private_words_are_the_guests(rt: HostRuntime) -> Result<(), Fail> {
    replay_rows(&rt, rt.alloc(), ROWS)
}
