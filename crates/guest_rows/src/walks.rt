//! Walks of the secure EPT, whose entries change meanwhile.

use row_replay::{ALONE, Asked, BUILT, PAGE, RUNS, Row, SECOND, TREE, replay_asked, replay_rows};
use std::test::Fail;

const WORKED: &[Asked<'static>] = &[
    // A walk through a page of the secure EPT, which isn't removed under it.
    (
        "replay s",
        "2 32 1",
        (
            "0*78 1*29",
            &["1 0 | load 1 0"],
            &[
                &[TREE, RUNS, "EXIT EPT_VIOLATION 0x0 READ | VP.ENTER 1 4 9"],
                &[
                    "SUCCESS | MEM.RANGE.BLOCK 1 0 1 | MEM.TRACK 1",
                    "TLB_TRACKING_NOT_DONE | MEM.SEPT.REMOVE 1 0 1",
                    "SUCCESS | MEM.SEPT.REMOVE 1 0 1 ; SUCCESS 0 | HOST.READ 7 0",
                ],
            ],
            "",
        ),
    ),
];

const ROWS: &[Row<'static>] = &[
    // An operation that isn't completed is tried again: what is missing comes level by level.
    (
        "",
        &["1 0 | load 1 0x8 | store 1 0x1000"],
        &[&[
            BUILT,
            "SUCCESS | VP.CREATE 1 4 | VP.INIT 1 4 0",
            RUNS,
            "EXIT EPT_VIOLATION 0x8 READ | VP.ENTER 1 4 9",
            "SUCCESS | MEM.SEPT.ADD 1 0 3 5",
            "EXIT EPT_VIOLATION 0x8 READ | VP.ENTER 1 4 9",
            "SUCCESS | MEM.SEPT.ADD 1 0 2 6",
            "EXIT EPT_VIOLATION 0x8 READ | VP.ENTER 1 4 9",
            "SUCCESS | MEM.SEPT.ADD 1 0 1 7",
            "EXIT EPT_VIOLATION 0x8 READ | VP.ENTER 1 4 9",
            "SUCCESS | MEM.PAGE.AUG 1 0 8",
            "EXIT EPT_VIOLATION 0x8 READ | VP.ENTER 1 4 9",
        ]],
        "",
    ),
    // The entry of another 512 GB, GB, 2 MB and page.
    (
        "",
        &[
            "1 0 | load 1 0x8000000000",
            "1 1 | store 1 0x40000008",
            "1 2 | load 1 0x200000",
            "1 3 | store 1 0x1ff8",
        ],
        &[&[
            TREE,
            "SUCCESS | VP.CREATE 1 9 | VP.INIT 1 9 0 | VP.CREATE 1 10 \
                    | VP.INIT 1 10 0 | VP.CREATE 1 11 | VP.INIT 1 11 0",
            RUNS,
            "EXIT EPT_VIOLATION 0x8000000000 READ | VP.ENTER 1 4 9",
            "EXIT EPT_VIOLATION 0x40000008 WRITE | VP.ENTER 1 9 9",
            "EXIT EPT_VIOLATION 0x200000 READ | VP.ENTER 1 10 9",
            "EXIT EPT_VIOLATION 0x1ff8 WRITE | VP.ENTER 1 11 9",
        ]],
        "",
    ),
    // A walk is four events, and the way is made behind its second one.
    (
        "0*83 0*6 0*2 1*9 1*9 1*15 0*3",
        &["1 0 | load 1 0x200000", "1 1 | accept 0x200000"],
        &[
            &[TREE, SECOND, RUNS, "EXIT STOP | VP.ENTER 1 4 9"],
            &[
                "SUCCESS | MEM.SEPT.ADD 1 0x200000 1 10 | MEM.PAGE.AUG 1 0x200000 11",
                "EXIT STOP | VP.ENTER 1 9 1",
            ],
        ],
        "0.14 load 0x200000 0",
    ),
    (
        "0*83 0*6 0*3 1*9 1*9 1*15 0*4",
        &["1 0 | load 1 0x200000", "1 1 | accept 0x200000"],
        &[
            &[
                TREE,
                SECOND,
                RUNS,
                "EXIT EPT_VIOLATION 0x200000 READ | VP.ENTER 1 4 9",
            ],
            &[
                "SUCCESS | MEM.SEPT.ADD 1 0x200000 1 10 | MEM.PAGE.AUG 1 0x200000 11",
                "EXIT STOP | VP.ENTER 1 9 1",
            ],
        ],
        "",
    ),
    // An upper entry is blocked under a walk: one load before the walk reads it, and one load
    // behind.
    (
        "0*88 1*11",
        &["1 0 | load 1 0"],
        &[
            &[
                TREE,
                PAGE,
                RUNS,
                "EXIT EPT_VIOLATION 0x0 READ | VP.ENTER 1 4 9",
            ],
            &["SUCCESS | MEM.RANGE.BLOCK 1 0 1"],
        ],
        "",
    ),
    (
        "0*89 1*11",
        &["1 0 | load 1 0 | load 2 0"],
        &[
            &[TREE, PAGE, RUNS, "EXIT STOP | VP.ENTER 1 4 9"],
            &["SUCCESS | MEM.RANGE.BLOCK 1 0 1"],
        ],
        "0.13 load 0x0 0 | 0.13 load 0x0 0",
    ),
    // Between a walk and its access the page is blocked. The block isn't taken back before the
    // guest is out, since it has a translation.
    (
        "0*93 1*11 1*11 1*7 1*11 0*5 1*11",
        &["1 0 | load 1 0"],
        &[
            &[
                TREE,
                "SUCCESS | HOST.WRITE 0 0 5",
                PAGE,
                RUNS,
                "EXIT STOP | VP.ENTER 1 4 9",
            ],
            &[
                "SUCCESS | MEM.RANGE.BLOCK 1 0 0 ; TLB_TRACKING_NOT_DONE | MEM.RANGE.UNBLOCK 1 0 0",
                "SUCCESS | MEM.TRACK 1 ; TLB_TRACKING_NOT_DONE | MEM.RANGE.UNBLOCK 1 0 0",
                "SUCCESS | MEM.RANGE.UNBLOCK 1 0 0",
            ],
        ],
        "0.14 load 0x0 5",
    ),
    // A block that was tracked before the guest entered is taken back under its walk: before the
    // load of that entry, and behind it.
    (
        "0*110 1*11",
        &["1 0 | load 1 0"],
        &[
            &[
                TREE,
                "SUCCESS | HOST.WRITE 0 0 5",
                PAGE,
                RUNS,
                "SUCCESS | MEM.RANGE.BLOCK 1 0 0 | MEM.TRACK 1",
                "EXIT STOP | VP.ENTER 1 4 9",
            ],
            &["SUCCESS | MEM.RANGE.UNBLOCK 1 0 0"],
        ],
        "0.16 load 0x0 5",
    ),
    (
        "0*111 1*11",
        &["1 0 | load 1 0"],
        &[
            &[
                TREE,
                "SUCCESS | HOST.WRITE 0 0 5",
                PAGE,
                RUNS,
                "SUCCESS | MEM.RANGE.BLOCK 1 0 0 | MEM.TRACK 1",
                "EXIT EPT_VIOLATION 0x0 READ | VP.ENTER 1 4 9",
            ],
            &["SUCCESS | MEM.RANGE.UNBLOCK 1 0 0"],
        ],
        "",
    ),
];

#[test]
fn a_walk_is_four_loads(rt: HostRuntime) -> Result<(), Fail> {
    replay_asked(&rt, rt.alloc(), ALONE, WORKED)?;
    replay_rows(&rt, rt.alloc(), ROWS)
}
