//! Why a guest leaves, where no memory is in play.

use row_replay::{ALONE, Asked, BUILT, RUNS, Row, TREE, replay_asked, replay_rows};
use std::test::Fail;

const WORKED: &[Asked<'static>] = &[
    // MAX is tested behind each operation, an exit by vmcall is neither STOP nor MAX, and STOP comes first.
    (
        "replay s",
        "1 32 1",
        (
            "",
            &["1 0 | set 1 7 | vmcall 1"],
            &[&[
                TREE,
                RUNS,
                "EXIT MAX | VP.ENTER 1 4 1 ; EXIT VMCALL 7 | VP.ENTER 1 4 1",
                "EXIT STOP | VP.ENTER 1 4 1",
            ]],
            "",
        ),
    ),
];

const ROWS: &[Row<'static>] = &[
    // STOP comes before MAX.
    (
        "",
        &["1 0 | set 1 7 | add 1 1"],
        &[&[TREE, RUNS, "EXIT STOP | VP.ENTER 1 4 2 | VP.ENTER 1 4 2"]],
        "",
    ),
    (
        "",
        &["1 0 | set 1 7 | add 1 1 | add 1 1 | vmcall 1"],
        &[&[
            TREE,
            RUNS,
            "EXIT MAX | VP.ENTER 1 4 2",
            "EXIT VMCALL 28 | VP.ENTER 1 4 65535",
        ]],
        "",
    ),
    // A VCPU without a list, and one whose list is another TD's or another VCPU's.
    (
        "",
        &["1 1 | set 1 7", "2 0 | set 1 7"],
        &[&[TREE, RUNS, "EXIT STOP | VP.ENTER 1 4 1 | VP.ENTER 1 4 1"]],
        "",
    ),
    // Registers: 0 has what VP.INIT gave, the others 0; sums end at 2^64.
    (
        "",
        &[
            "1 0 | add 7 0 | vmcall 7 | set 1 0xffffffffffffffff | add 1 0 | vmcall 1 \
                    | add 1 1 | vmcall 1 | vmcall 6 | set 2 0x8000000000000000 | add 2 0 | vmcall 2",
        ],
        &[&[
            BUILT,
            "SUCCESS | VP.CREATE 1 4 | VP.INIT 1 4 5",
            RUNS,
            "EXIT VMCALL 5 | VP.ENTER 1 4 9",
            "EXIT VMCALL 4 | VP.ENTER 1 4 9",
            "EXIT VMCALL 8 | VP.ENTER 1 4 9",
            "EXIT VMCALL 0 | VP.ENTER 1 4 9",
            "EXIT VMCALL 9223372036854775813 | VP.ENTER 1 4 9",
        ]],
        "",
    ),
];

#[test]
fn each_exit_has_its_cause(rt: HostRuntime) -> Result<(), Fail> {
    replay_asked(&rt, rt.alloc(), ALONE, WORKED)?;
    replay_rows(&rt, rt.alloc(), ROWS)
}
