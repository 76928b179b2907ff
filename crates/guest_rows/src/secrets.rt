//! Secret words, each row in two worlds or more: what a guest keeps of them is in the guest file alone,
//! and what it tells is in the replies.

use row_replay::{
    ALONE, Asked, Beside, End, OTHER, PAGE, RUNS, SECOND, SecretRow, TREE, Told, World,
    replay_ends, replay_secret_rows, replay_worlds,
};
use std::test::Fail;

const LINES: &str = "replay s --secrets z --guest-out g ; run s --secrets z --guest-out g";

const KEPT: &[&str] = &["1 0 | secret 1 0 | store 1 8 | load 2 8"];

const TOLD: &[&str] = &["1 0 | secret 1 0 | store 1 8 | load 2 8 | vmcall 1"];

const STOPS: &[&[&str]] = &[&[TREE, PAGE, RUNS, "EXIT STOP | VP.ENTER 1 4 100"]];

// A secret is stored into a private page, and loaded again; and it is told besides.
const WORLDS: &[World<'static>] = &[
    (
        &[5],
        &[
            (LINES, "1 32 1", ("", KEPT, STOPS, "0.13 load 0x8 5")),
            (
                LINES,
                "1 32 1",
                (
                    "",
                    TOLD,
                    &[&[TREE, PAGE, RUNS, "EXIT VMCALL 5 | VP.ENTER 1 4 100"]],
                    "0.13 load 0x8 5",
                ),
            ),
        ],
    ),
    (
        &[6],
        &[
            (LINES, "1 32 1", ("", KEPT, STOPS, "0.13 load 0x8 6")),
            (
                LINES,
                "1 32 1",
                (
                    "",
                    TOLD,
                    &[&[TREE, PAGE, RUNS, "EXIT VMCALL 6 | VP.ENTER 1 4 100"]],
                    "0.13 load 0x8 6",
                ),
            ),
        ],
    ),
];

// Without a secrets file all secrets are 0; and there has to be one where one is named, of its length.
const WITHOUT: Asked<'static> = (
    "replay s --guest-out g",
    "1 32 1",
    ("", KEPT, STOPS, "0.13 load 0x8 0"),
);

const ABSENT: &[End<'static>] = &[(
    "replay s --secrets z --guest-out g",
    &[],
    &[],
    3,
    Told::Alone("cannot read z\n"),
    "",
)];

const CUT: &[End<'static>] = &[(
    "replay s --secrets z4095 --guest-out g",
    &[],
    &[],
    7,
    Told::Alone("secrets file\n"),
    "",
)];

const ROWS: &[SecretRow<'static>] = &[
    // The file may be all zeros.
    (
        &[],
        (
            "",
            &["1 0 | set 1 7 | secret 1 511 | store 1 8 | load 2 8"],
            &[&[TREE, PAGE, RUNS, "EXIT STOP | VP.ENTER 1 4 100"]],
            "0.13 load 0x8 0",
        ),
    ),
    // Words stand with their lowest byte first, one behind another; a register keeps its word between
    // entries, and a sum ends at 64 bits.
    (
        &[18446744073709551615, 258, 1],
        (
            "",
            &[
                "1 0 | secret 1 0 | secret 2 2 | secret 3 1 | vmcall 3 | add 1 2 \
                    | vmcall 1",
            ],
            &[&[
                TREE,
                RUNS,
                "EXIT MAX | VP.ENTER 1 4 3",
                "EXIT VMCALL 258 | VP.ENTER 1 4 9",
                "EXIT VMCALL 0 | VP.ENTER 1 4 9",
            ]],
            "",
        ),
    ),
    // It is stored into a shared page, which the host reads; and a sum into the guest's own page, of
    // which the host reads 0.
    (
        &[5, 40],
        (
            "",
            &[
                "1 0 | secret 1 0 | secret 2 1 | store 1 0x800000014008 | add 2 1 \
                    | store 2 8 | load 3 8",
            ],
            &[&[
                TREE,
                PAGE,
                RUNS,
                "EXIT STOP | VP.ENTER 1 4 100",
                "SUCCESS 5 | HOST.READ 20 1",
                "SUCCESS 0 | HOST.READ 8 1",
            ]],
            "0.13 load 0x8 45",
        ),
    ),
    (
        &[6, 50],
        (
            "",
            &[
                "1 0 | secret 1 0 | secret 2 1 | store 1 0x800000014008 | add 2 1 \
                    | store 2 8 | load 3 8",
            ],
            &[&[
                TREE,
                PAGE,
                RUNS,
                "EXIT STOP | VP.ENTER 1 4 100",
                "SUCCESS 6 | HOST.READ 20 1",
                "SUCCESS 0 | HOST.READ 8 1",
            ]],
            "0.13 load 0x8 56",
        ),
    ),
    // A second VCPU reads what the first one stored, and no host.
    (
        &[5],
        (
            "0*94",
            &["1 0 | secret 1 0 | store 1 8", "1 1 | load 1 8"],
            &[
                &[TREE, SECOND, PAGE, RUNS, "EXIT STOP | VP.ENTER 1 4 100"],
                &["SUCCESS 0 | HOST.READ 8 1", "EXIT STOP | VP.ENTER 1 9 100"],
            ],
            "1.2 load 0x8 5",
        ),
    ),
    (
        &[6],
        (
            "0*94",
            &["1 0 | secret 1 0 | store 1 8", "1 1 | load 1 8"],
            &[
                &[TREE, SECOND, PAGE, RUNS, "EXIT STOP | VP.ENTER 1 4 100"],
                &["SUCCESS 0 | HOST.READ 8 1", "EXIT STOP | VP.ENTER 1 9 100"],
            ],
            "1.2 load 0x8 6",
        ),
    ),
    // A page with a secret is removed: the host reads zeros of it, another TD gets a copy that is
    // measured, and then the page itself.
    (
        &[5],
        (
            "",
            &[
                "1 0 | secret 1 0 | store 1 8 | load 2 8",
                "20 0 | load 1 8 | accept 4096 | load 2 4104",
            ],
            &[&[
                TREE,
                PAGE,
                RUNS,
                "EXIT STOP | VP.ENTER 1 4 100",
                "SUCCESS 0 | HOST.READ 8 1",
                "SUCCESS | MEM.RANGE.BLOCK 1 0 0 | MEM.TRACK 1 | MEM.PAGE.REMOVE 1 0",
                "SUCCESS 0 | HOST.READ 8 1",
                OTHER,
                "SUCCESS | MEM.PAGE.ADD 20 0 9 8 | MR.EXTEND 20 0 | MR.FINALIZE 20",
                "SUCCESS 97e34871f25c65b912c41c39b078f334d647c2a6b2c0451a333bb1cf99aa1d7e\
                    c84841a0b36e1682b37f06a968d0f5f0 | MNG.RD 20 MRTD",
                "SUCCESS | MEM.PAGE.AUG 20 4096 8",
                "EXIT STOP | VP.ENTER 20 23 100",
            ]],
            "0.13 load 0x8 5 | 0.34 load 0x8 0 | 0.34 load 0x1008 0",
        ),
    ),
    (
        &[6],
        (
            "",
            &[
                "1 0 | secret 1 0 | store 1 8 | load 2 8",
                "20 0 | load 1 8 | accept 4096 | load 2 4104",
            ],
            &[&[
                TREE,
                PAGE,
                RUNS,
                "EXIT STOP | VP.ENTER 1 4 100",
                "SUCCESS 0 | HOST.READ 8 1",
                "SUCCESS | MEM.RANGE.BLOCK 1 0 0 | MEM.TRACK 1 | MEM.PAGE.REMOVE 1 0",
                "SUCCESS 0 | HOST.READ 8 1",
                OTHER,
                "SUCCESS | MEM.PAGE.ADD 20 0 9 8 | MR.EXTEND 20 0 | MR.FINALIZE 20",
                "SUCCESS 97e34871f25c65b912c41c39b078f334d647c2a6b2c0451a333bb1cf99aa1d7e\
                    c84841a0b36e1682b37f06a968d0f5f0 | MNG.RD 20 MRTD",
                "SUCCESS | MEM.PAGE.AUG 20 4096 8",
                "EXIT STOP | VP.ENTER 20 23 100",
            ]],
            "0.13 load 0x8 6 | 0.34 load 0x8 0 | 0.34 load 0x1008 0",
        ),
    ),
];

#[test]
fn a_secret_is_told_or_kept(rt: HostRuntime) -> Result<(), Fail> {
    replay_worlds(&rt, rt.alloc(), WORLDS)?;
    replay_secret_rows(&rt, rt.alloc(), ROWS)
}

#[test]
fn a_secrets_file_is_there_in_its_length(rt: HostRuntime) -> Result<(), Fail> {
    replay_ends(&rt, rt.alloc(), ALONE, &WITHOUT, ABSENT)?;
    let zeros = Beside {
        secrets: Some(&[]),
        bundles: None,
    };
    replay_ends(&rt, rt.alloc(), zeros, &WITHOUT, CUT)
}
