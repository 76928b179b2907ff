//! An import that is given up, and its token, which comes back to the source.

use crate::sources::{GIVENUP, SOURCE, arrive, come_back, given_up};
use row_replay::{
    ArrivalRow, DIRTIED, Edit, FILLED, ForgedRow, GUEST, HANDED, OPENED, PAGES, SENT, STARTED,
    TREE, WAITS, replay_forged,
};
use std::test::Fail;

const ROWS: &[ArrivalRow<'static>] = &[
    // An import is given up while memory comes in, from the TD state on, and from the start token
    // on; not once it is committed.
    (
        &[],
        (
            "",
            &[GUEST],
            &[&[
                WAITS,
                OPENED,
                "SUCCESS | IMPORT.MEM 1 1 8 | IMPORT.ABORT 1 40",
                "SUCCESS FAILED_IMPORT | MNG.RD 1 OP",
                "OP_STATE_INCORRECT FAILED_IMPORT | IMPORT.ABORT 1 41 | IMPORT.TRACK 1 2",
                "SUCCESS MAPPED 8 | MEM.SEPT.RD 1 0 0",
            ]],
            "",
        ),
    ),
    (
        &[],
        (
            "",
            &[GUEST],
            &[&[
                WAITS,
                OPENED,
                FILLED,
                "SUCCESS | IMPORT.STATE.TD 1 6 | IMPORT.ABORT 1 40",
                "SUCCESS FAILED_IMPORT | MNG.RD 1 OP",
                "OP_STATE_INCORRECT FAILED_IMPORT | IMPORT.STATE.VP 1 4 7",
            ]],
            "",
        ),
    ),
    (
        &[],
        (
            "",
            &[GUEST],
            &[&[
                WAITS,
                OPENED,
                FILLED,
                STARTED,
                "SUCCESS | IMPORT.ABORT 1 40",
                "OP_STATE_INCORRECT FAILED_IMPORT | IMPORT.COMMIT 1 | VP.ENTER 1 4 1",
                "SUCCESS 2b7edb784e77a7d6c4406aebf9118fa24b80b26d7f18fe893b7282758fb65f69c018d14a8d8c221f057b588f6f8c81a2 \
                        | MNG.RD 1 MRTD",
            ]],
            "",
        ),
    ),
    (
        &[],
        (
            "",
            &[GUEST],
            &[&[
                WAITS,
                OPENED,
                FILLED,
                STARTED,
                "SUCCESS | IMPORT.COMMIT 1",
                "OP_STATE_INCORRECT LIVE_IMPORT | IMPORT.ABORT 1 40",
                "EXIT VMCALL 33 | VP.ENTER 1 4 10",
                "SUCCESS | IMPORT.END 1",
            ]],
            "0.22 load 0x0 44 | 0.22 load 0x1000 22 | 0.22 load 0x2000 33",
        ),
    ),
];

// The token comes back, once: the TD runs on, with all that it had. It is turned, and the source stays where it is.
const LINE: &str = "replay s --keys k --bundles c";

const BACK: &[ForgedRow<'static>] = &[
    (
        &[],
        &[
            TREE,
            PAGES,
            SENT,
            DIRTIED,
            HANDED,
            "OP_STATE_INCORRECT POST_EXPORT | EXPORT.ABORT 1",
            "SUCCESS | EXPORT.ABORT 1 40",
            "EXIT VMCALL 33 | VP.ENTER 1 4 10",
            "SUCCESS | EXPORT.RESTORE 1 0",
        ],
    ),
    (
        &[],
        &[
            TREE,
            PAGES,
            SENT,
            DIRTIED,
            HANDED,
            "OP_STATE_INCORRECT POST_EXPORT | EXPORT.ABORT 1",
            "SUCCESS | EXPORT.ABORT 1 40 ; OP_STATE_INCORRECT RUNNABLE | EXPORT.ABORT 1 40",
            "EXIT VMCALL 33 | VP.ENTER 1 4 10",
            "SUCCESS | EXPORT.RESTORE 1 0",
        ],
    ),
    (
        &[(40, 40, &[Edit::Put(8, 1), Edit::Put(16, 1)])],
        &[
            TREE,
            PAGES,
            SENT,
            DIRTIED,
            HANDED,
            "OP_STATE_INCORRECT POST_EXPORT | EXPORT.ABORT 1",
            "BUNDLE_COUNTER 0 1 | EXPORT.ABORT 1 40",
            "OP_STATE_INCORRECT POST_EXPORT | VP.ENTER 1 4 10 | EXPORT.RESTORE 1 0",
        ],
    ),
    (
        &[(40, 40, &[Edit::Put(24, 2)])],
        &[
            TREE,
            PAGES,
            SENT,
            DIRTIED,
            HANDED,
            "OP_STATE_INCORRECT POST_EXPORT | EXPORT.ABORT 1",
            "BUNDLE_HEADER SESSION | EXPORT.ABORT 1 40",
            "OP_STATE_INCORRECT POST_EXPORT | VP.ENTER 1 4 10 | EXPORT.RESTORE 1 0",
        ],
    ),
    (
        &[(40, 40, &[Edit::Turn(48)])],
        &[
            TREE,
            PAGES,
            SENT,
            DIRTIED,
            HANDED,
            "OP_STATE_INCORRECT POST_EXPORT | EXPORT.ABORT 1",
            "BUNDLE_TAG | EXPORT.ABORT 1 40",
            "OP_STATE_INCORRECT POST_EXPORT | VP.ENTER 1 4 10 | EXPORT.RESTORE 1 0",
        ],
    ),
];

const ENDS: &[ArrivalRow<'static>] = &[
    // It ends no export that hasn't sent its start token.
    (
        &[],
        (
            "",
            &[GUEST],
            &[&[
                TREE,
                "OP_STATE_INCORRECT INITIALIZED | EXPORT.ABORT 1 40",
                PAGES,
                "OP_STATE_INCORRECT RUNNABLE | EXPORT.ABORT 1 40",
                SENT,
                "OP_STATE_INCORRECT LIVE_EXPORT | EXPORT.ABORT 1 40",
                DIRTIED,
                "OP_STATE_INCORRECT PAUSED_EXPORT | EXPORT.ABORT 1 40",
                HANDED,
                "SUCCESS | EXPORT.ABORT 1 40",
                "SUCCESS RUNNABLE | MNG.RD 1 OP",
            ]],
            "",
        ),
    ),
    // Tokens that somebody has turned, and none.
    (
        &[
            (40, 44, &[Edit::Length(63)]),
            (40, 45, &[Edit::Put(0, 65)]),
            (40, 46, &[Edit::Put(2, 3)]),
            (40, 47, &[Edit::Put(6, 7)]),
            (40, 48, &[Edit::Put(7, 1)]),
            (40, 49, &[Edit::Put(12, 1)]),
            (40, 50, &[Edit::Put(40, 1)]),
            (40, 51, &[Edit::Put(24, 0)]),
            (40, 52, &[Edit::Put(4, 1)]),
            (40, 53, &[Edit::Put(8, 1)]),
            (40, 54, &[Edit::Length(65)]),
            (40, 55, &[Edit::Put(6, 4)]),
            (40, 56, &[Edit::Put(6, 5)]),
            (
                40,
                57,
                &[Edit::Put(24, 2), Edit::Put(8, 1), Edit::Put(16, 1)],
            ),
            (40, 58, &[Edit::Put(8, 1), Edit::Put(16, 1), Edit::Turn(63)]),
            (40, 59, &[Edit::Put(26, 1)]),
            (40, 60, &[Edit::Put(32, 1)]),
        ],
        (
            "",
            &[GUEST],
            &[&[
                TREE,
                PAGES,
                SENT,
                DIRTIED,
                HANDED,
                "NO_BUNDLE 39 | EXPORT.ABORT 1 39",
                "BUNDLE_HEADER SHORT | EXPORT.ABORT 1 44",
                "BUNDLE_HEADER SIZE | EXPORT.ABORT 1 45",
                "BUNDLE_HEADER VERSION | EXPORT.ABORT 1 46",
                "BUNDLE_HEADER TYPE | EXPORT.ABORT 1 47",
                "BUNDLE_HEADER RESERVED | EXPORT.ABORT 1 48 | EXPORT.ABORT 1 49 \
                        | EXPORT.ABORT 1 50",
                "BUNDLE_HEADER VALUE | EXPORT.ABORT 1 51 | EXPORT.ABORT 1 52 \
                        | EXPORT.ABORT 1 53",
                "BUNDLE_HEADER LENGTH | EXPORT.ABORT 1 54",
                "BUNDLE_HEADER TYPE | EXPORT.ABORT 1 55 | EXPORT.ABORT 1 56",
                "BUNDLE_HEADER SESSION | EXPORT.ABORT 1 57",
                "BUNDLE_COUNTER 0 1 | EXPORT.ABORT 1 58",
                "BUNDLE_HEADER RESERVED | EXPORT.ABORT 1 59 | EXPORT.ABORT 1 60",
                "SUCCESS POST_EXPORT | MNG.RD 1 OP",
                "SUCCESS | EXPORT.ABORT 1 40",
                "SUCCESS RUNNABLE | MNG.RD 1 OP",
            ]],
            "",
        ),
    ),
    // A later session isn't ended by it.
    (
        &[],
        (
            "",
            &[GUEST],
            &[&[
                TREE,
                PAGES,
                SENT,
                DIRTIED,
                HANDED,
                "SUCCESS | EXPORT.ABORT 1 40 | EXPORT.RESTORE 1 0 | EXPORT.RESTORE 1 4096 \
                        | EXPORT.RESTORE 1 8192 | EXPORT.STATE.IMMUTABLE 1 20 \
                        | EXPORT.PAUSE 1 | EXPORT.STATE.TD 1 21 | EXPORT.STATE.VP 1 4 22 \
                        | EXPORT.TRACK 1 23 1",
                "BUNDLE_HEADER SESSION | EXPORT.ABORT 1 40",
                "SUCCESS POST_EXPORT | MNG.RD 1 OP",
            ]],
            "",
        ),
    ),
    // A token that is refused at a lock, and comes again.
    (
        &[],
        (
            "0*274 1 0*2 1*9",
            &[GUEST],
            &[
                &[
                    TREE,
                    PAGES,
                    SENT,
                    DIRTIED,
                    HANDED,
                    "OPERAND_BUSY P 1 | EXPORT.ABORT 1 40",
                    "SUCCESS | EXPORT.ABORT 1 40",
                ],
                &["LIFECYCLE_STATE_INCORRECT TD_KEYS_CONFIGURED | MNG.KEY.CONFIG 1"],
            ],
            "",
        ),
    ),
    (
        &[],
        (
            "0*274 1*2 0*3 1*9",
            &[GUEST],
            &[
                &[
                    TREE,
                    PAGES,
                    SENT,
                    DIRTIED,
                    HANDED,
                    "OPERAND_BUSY O | EXPORT.ABORT 1 40",
                    "SUCCESS | EXPORT.ABORT 1 40",
                ],
                &["OP_STATE_INCORRECT POST_EXPORT | EXPORT.PAUSE 1"],
            ],
            "",
        ),
    ),
    (
        &[],
        (
            "0*277 1*5",
            &[GUEST],
            &[
                &[
                    TREE,
                    PAGES,
                    SENT,
                    DIRTIED,
                    HANDED,
                    "SUCCESS | EXPORT.ABORT 1 40",
                ],
                &["OPERAND_BUSY P 1 | MNG.KEY.CONFIG 1"],
            ],
            "",
        ),
    ),
    (
        &[],
        (
            "0*277 1*6",
            &[GUEST],
            &[
                &[
                    TREE,
                    PAGES,
                    SENT,
                    DIRTIED,
                    HANDED,
                    "SUCCESS | EXPORT.ABORT 1 40",
                ],
                &["OPERAND_BUSY O | EXPORT.PAUSE 1"],
            ],
            "",
        ),
    ),
];

/// The container of that token: bytes 0 to 47 of its header, and its tag, under the key back. The model of
/// checks/second, which has an AES-GCM of its own, gave it.
const TOKEN_BYTES: &[u8] = b"TDXBNDL1(\x00\x00\x00@\x00\x00\x00@\x00\x01\x00\
    \x00\x00\x06\x00\x00\x00\x00\x00\x00\x00\x00\x00\x00\x00\x00\x00\x00\x00\x00\x00\
    \x01\x00\x00\x00\x00\x00\x00\x00\x00\x00\x00\x00\x00\x00\x00\x00\x00\x00\x00\x00\
    \x00\x00\x00\x00N\xe7\x11\xd8j(\xd8\xd4\xb0\xda\x18[\x19a\xfb\xaf";

#[test]
fn an_import_is_given_up_before_it_is_committed(rt: HostRuntime) -> Result<(), Fail> {
    let alloc = rt.alloc();
    arrive(&rt, alloc, &SOURCE, ROWS)
}

#[test]
fn a_source_goes_on_by_the_token_of_its_destination(rt: HostRuntime) -> Result<(), Fail> {
    let alloc = rt.alloc();
    let token = given_up(&rt, alloc)?;
    replay_forged(&rt, alloc, &token, LINE, "1 32 1", &[GUEST], BACK)?;
    come_back(&rt, alloc, &SOURCE, &GIVENUP, ENDS)
}

#[test]
fn the_token_is_sealed_with_the_key_back(rt: HostRuntime) -> Result<(), Fail> {
    let alloc = rt.alloc();
    let token = given_up(&rt, alloc)?;
    assert_eq!(rt; token.as_slice(), TOKEN_BYTES);
    Ok(())
}
