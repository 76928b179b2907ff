//! Pages that wait for their guest.

use row_replay::{
    ALONE, Asked, End, PAGE, RUNS, Row, SECOND, TREE, Told, replay_ends, replay_rows,
};
use std::test::Fail;

// A page that waits is accepted with zeros, whatever the host wrote.
const WAITED: Asked<'static> = (
    "replay s --guest-out g ; run s --guest-out g",
    "1 32 1",
    (
        "",
        &["1 0 | accept 0 | load 1 0"],
        &[&[
            TREE,
            RUNS,
            "SUCCESS | HOST.WRITE 9 0 5 | MEM.PAGE.AUG 1 0 9",
            "SUCCESS PENDING 9 | MEM.SEPT.RD 1 0 0",
            "EXIT STOP | VP.ENTER 1 4 9",
            "SUCCESS MAPPED 9 | MEM.SEPT.RD 1 0 0",
        ]],
        "0.15 load 0x0 0",
    ),
);

const CHECKED: &[End<'static>] = &[("check s", &[], &[], 0, Told::Alone("ok 1 16 2 0\n"), "")];

const ROWS: &[Row<'static>] = &[
    // A page that is mapped keeps its words.
    (
        "",
        &["1 0 | set 1 7 | store 1 0 | accept 0 | load 2 0"],
        &[&[
            TREE,
            PAGE,
            RUNS,
            "EXIT STOP | VP.ENTER 1 4 9",
            "SUCCESS MAPPED 8 | MEM.SEPT.RD 1 0 0",
        ]],
        "0.13 load 0x0 7",
    ),
    // Nothing to accept: no entry on the way, and an entry that is FREE.
    (
        "",
        &["1 0 | accept 0x200000", "1 1 | accept 0x1000"],
        &[&[
            TREE,
            SECOND,
            RUNS,
            "EXIT EPT_VIOLATION 0x200000 WRITE | VP.ENTER 1 4 9",
            "EXIT EPT_VIOLATION 0x1000 WRITE | VP.ENTER 1 9 9",
        ]],
        "",
    ),
    // A guest at an entry that is blocked, and at one that waits and is blocked.
    (
        "",
        &["1 0 | load 1 0", "1 1 | accept 0x1000"],
        &[&[
            TREE,
            SECOND,
            PAGE,
            RUNS,
            "SUCCESS | MEM.PAGE.AUG 1 4096 10 | MEM.RANGE.BLOCK 1 0 0 \
                    | MEM.RANGE.BLOCK 1 4096 0",
            "EXIT EPT_VIOLATION 0x0 READ | VP.ENTER 1 4 9",
            "EXIT EPT_VIOLATION 0x1000 WRITE | VP.ENTER 1 9 9",
            "SUCCESS | MEM.TRACK 1 | MEM.RANGE.UNBLOCK 1 0 0 \
                    | MEM.RANGE.UNBLOCK 1 4096 0",
            "EXIT STOP | VP.ENTER 1 4 9 | VP.ENTER 1 9 9",
        ]],
        "0.23 load 0x0 0",
    ),
    // A page that was accepted and is blocked now, and one below an upper entry that is blocked.
    (
        "",
        &["1 0 | accept 0", "1 1 | accept 0x1000"],
        &[&[
            TREE,
            SECOND,
            PAGE,
            RUNS,
            "SUCCESS | MEM.PAGE.AUG 1 4096 10 | MEM.RANGE.BLOCK 1 0 0",
            "EXIT EPT_VIOLATION 0x0 WRITE | VP.ENTER 1 4 9",
            "SUCCESS | MEM.RANGE.BLOCK 1 0 1",
            "EXIT EPT_VIOLATION 0x1000 WRITE | VP.ENTER 1 9 9",
            "SUCCESS | MEM.TRACK 1 | MEM.RANGE.UNBLOCK 1 0 1 | MEM.RANGE.UNBLOCK 1 0 0",
            "EXIT STOP | VP.ENTER 1 4 9 | VP.ENTER 1 9 9",
        ]],
        "",
    ),
    // accept: try of the tree, try of the page, act, two releases. Another's call that has the
    // tree alone, or the page.
    (
        "0*84 1*3 0*6 1*4",
        &["1 0 | accept 0"],
        &[
            &[
                TREE,
                RUNS,
                "SUCCESS | MEM.PAGE.AUG 1 0 8",
                "EXIT BUSY T | VP.ENTER 1 4 9 ; EXIT STOP | VP.ENTER 1 4 9",
            ],
            &["SUCCESS PENDING 8 | MEM.SEPT.RD 1 0 0"],
        ],
        "",
    ),
    (
        "0*84 1 0*7 1*2",
        &["1 0 | accept 0"],
        &[
            &[
                TREE,
                RUNS,
                "SUCCESS | MEM.PAGE.AUG 1 0 8",
                "EXIT BUSY P 8 | VP.ENTER 1 4 9 ; EXIT STOP | VP.ENTER 1 4 9",
            ],
            &["SUCCESS 0 | HOST.READ 8 0"],
        ],
        "",
    ),
    (
        "0*85 1*4 0*3 1*3 0 1*9",
        &["1 0 | accept 0"],
        &[
            &[
                TREE,
                RUNS,
                "SUCCESS | MEM.PAGE.AUG 1 0 8",
                "EXIT STOP | VP.ENTER 1 4 9",
            ],
            &[
                "OPERAND_BUSY T | MEM.SEPT.RD 1 0 0 ; SUCCESS MAPPED 8 \
                    | MEM.SEPT.RD 1 0 0",
            ],
        ],
        "",
    ),
    // Two VCPUs accept one page at once.
    (
        "0*98 1*6 0 1 0 1*6 0*7",
        &[
            "1 0 | accept 0 | set 1 7 | store 1 0",
            "1 1 | accept 0 | load 1 0",
        ],
        &[
            &[
                TREE,
                SECOND,
                RUNS,
                "SUCCESS | MEM.PAGE.AUG 1 0 8",
                "EXIT STOP | VP.ENTER 1 4 9",
            ],
            &[
                "EXIT BUSY P 8 | VP.ENTER 1 9 9",
                "EXIT STOP | VP.ENTER 1 9 9",
            ],
        ],
        "1.2 load 0x0 7",
    ),
];

#[test]
fn a_page_is_accepted_once(rt: HostRuntime) -> Result<(), Fail> {
    replay_ends(&rt, rt.alloc(), ALONE, &WAITED, CHECKED)?;
    replay_rows(&rt, rt.alloc(), ROWS)
}
