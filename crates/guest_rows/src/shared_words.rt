//! Words of the host's pages, which guests reach by shared GPAs.

use row_replay::{ALONE, Asked, PAGE, RUNS, Row, TREE, replay_asked, replay_rows};
use std::test::Fail;

const WORKED: &[Asked<'static>] = &[
    // The host's page of that number, before and behind the access that isn't allowed.
    (
        "replay s ; run s",
        "1 32 1",
        (
            "",
            &["1 0 | set 1 7 | store 1 0x800000014008 | load 2 0x800000001000"],
            &[&[
                TREE,
                RUNS,
                "EXIT EPT_VIOLATION 0x800000001000 READ | VP.ENTER 1 4 9",
                "SUCCESS 7 | HOST.READ 20 1",
            ]],
            "",
        ),
    ),
    // A page that is held: the try, its undo, and the four events of the exit.
    (
        "replay s",
        "2 32 1",
        (
            "0*75 1 0*2",
            &["1 0 | load 1 0x800000014000"],
            &[
                &[TREE, RUNS, "EXIT BUSY P 20 | VP.ENTER 1 4 9"],
                &["HKID_NOT_FREE | MNG.CREATE 20 1"],
            ],
            "",
        ),
    ),
];

const ROWS: &[Row<'static>] = &[
    // The host's words that were added, the first and the last; and shared words, which both may
    // write.
    (
        "",
        &[
            "1 0 | load 0 0 | load 1 0xff8 | store 1 0x80000000f000 \
                    | load 2 0x80000000fff8",
        ],
        &[&[
            TREE,
            "SUCCESS | HOST.WRITE 0 0 11 | HOST.WRITE 0 511 22",
            PAGE,
            RUNS,
            "SUCCESS | HOST.WRITE 15 511 33",
            "EXIT STOP | VP.ENTER 1 4 9",
            "SUCCESS 22 | HOST.READ 15 0",
        ]],
        "0.16 load 0x0 11 | 0.16 load 0xff8 22 | 0.16 load 0x80000000fff8 33",
    ),
    // Shared pages: its own TDVPR page, another VCPU's, the secure EPT, the first that the machine
    // hasn't, and the last GPA.
    (
        "",
        &[
            "1 0 | store 1 0x800000004000",
            "1 1 | load 1 0x800000004000",
            "1 2 | load 1 0x800000003000",
            "1 3 | store 1 0x800000020000",
            "1 4 | load 1 0xfffffffffff8",
        ],
        &[&[
            TREE,
            "SUCCESS | VP.CREATE 1 9 | VP.INIT 1 9 0 | VP.CREATE 1 10 \
                    | VP.INIT 1 10 0 | VP.CREATE 1 11 | VP.INIT 1 11 0 | VP.CREATE 1 12 \
                    | VP.INIT 1 12 0",
            RUNS,
            "EXIT EPT_VIOLATION 0x800000004000 WRITE | VP.ENTER 1 4 9",
            "EXIT EPT_VIOLATION 0x800000004000 READ | VP.ENTER 1 9 9",
            "EXIT EPT_VIOLATION 0x800000003000 READ | VP.ENTER 1 10 9",
            "EXIT EPT_VIOLATION 0x800000020000 WRITE | VP.ENTER 1 11 9",
            "EXIT EPT_VIOLATION 0xfffffffffff8 READ | VP.ENTER 1 12 9",
        ]],
        "",
    ),
    // A page that was held is tried again by the next entry.
    (
        "0*75 1 0*6 1*4",
        &["1 0 | load 1 0x800000014000"],
        &[
            &[
                TREE,
                RUNS,
                "EXIT BUSY P 20 | VP.ENTER 1 4 9 ; EXIT STOP | VP.ENTER 1 4 9",
            ],
            &["HKID_NOT_FREE | MNG.CREATE 20 1"],
        ],
        "0.13 load 0x800000014000 0",
    ),
    // The undo comes before the exit: until then nobody has the page alone.
    (
        "0*75 1 0 1*4 2",
        &["1 0 | store 1 0x800000014000"],
        &[
            &[TREE, RUNS, "EXIT BUSY P 20 | VP.ENTER 1 4 9"],
            &["HKID_NOT_FREE | MNG.CREATE 20 1"],
            &["OPERAND_BUSY P 20 | MNG.CREATE 20 1"],
        ],
        "",
    ),
    (
        "0*75 1 0 1*4 0 2*5",
        &["1 0 | store 1 0x800000014000"],
        &[
            &[TREE, RUNS, "EXIT BUSY P 20 | VP.ENTER 1 4 9"],
            &["HKID_NOT_FREE | MNG.CREATE 20 1"],
            &["HKID_NOT_FREE | MNG.CREATE 20 1"],
        ],
        "",
    ),
    // The undo is an event of its own before the four of the exit, of which the last releases P 1.
    (
        "0*75 1 0*5 2",
        &["1 0 | load 1 0x800000014000"],
        &[
            &[TREE, RUNS, "EXIT BUSY P 20 | VP.ENTER 1 4 9"],
            &["HKID_NOT_FREE | MNG.CREATE 20 1"],
            &["OPERAND_BUSY P 1 | MNG.VPFLUSHDONE 1"],
        ],
        "",
    ),
    (
        "0*75 1 0*6 2",
        &["1 0 | load 1 0x800000014000"],
        &[
            &[TREE, RUNS, "EXIT BUSY P 20 | VP.ENTER 1 4 9"],
            &["HKID_NOT_FREE | MNG.CREATE 20 1"],
            &["FLUSHVP_NOT_DONE 1 | MNG.VPFLUSHDONE 1"],
        ],
        "",
    ),
];

#[test]
fn a_shared_word_is_the_hosts(rt: HostRuntime) -> Result<(), Fail> {
    replay_asked(&rt, rt.alloc(), ALONE, WORKED)?;
    replay_rows(&rt, rt.alloc(), ROWS)
}
