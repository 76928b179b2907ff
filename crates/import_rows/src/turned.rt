//! Bundles that somebody has turned or hands over out of their order, and a destination that goes on with the
//! right ones.

use crate::sources::{SOURCE, arrive, sent, with_bundles};
use row_replay::{
    ArrivalRow, Edit, FILLED, ForgedRow, GUEST, OPENED, STARTED, WAITS, replay_changes,
    replay_forged,
};
use std::test::Fail;

const LINE: &str = "replay s --keys k --bundles c";

// A page that comes again isn't there, it is cut or longer, or bytes of it are turned: what is answered then.
const TURNED: &[(&[Edit], &str)] = &[
    (&[Edit::Gone], "NO_BUNDLE 3 | IMPORT.MEM 1 3 13"),
    (
        &[Edit::Length(63)],
        "BUNDLE_HEADER SHORT | IMPORT.MEM 1 3 13",
    ),
    (
        &[Edit::Put(0, 65)],
        "BUNDLE_HEADER SIZE | IMPORT.MEM 1 3 13",
    ),
    (
        &[Edit::Put(2, 3)],
        "BUNDLE_HEADER VERSION | IMPORT.MEM 1 3 13",
    ),
    (&[Edit::Put(6, 7)], "BUNDLE_HEADER TYPE | IMPORT.MEM 1 3 13"),
    (
        &[Edit::Put(7, 1)],
        "BUNDLE_HEADER RESERVED | IMPORT.MEM 1 3 13",
    ),
    (
        &[Edit::Put(40, 1)],
        "BUNDLE_HEADER RESERVED | IMPORT.MEM 1 3 13",
    ),
    (
        &[Edit::Put(4, 4)],
        "BUNDLE_HEADER VALUE | IMPORT.MEM 1 3 13",
    ),
    (
        &[Edit::Put(16, 3)],
        "BUNDLE_HEADER VALUE | IMPORT.MEM 1 3 13",
    ),
    (
        &[Edit::Put(33, 1)],
        "BUNDLE_HEADER VALUE | IMPORT.MEM 1 3 13",
    ),
    (
        &[Edit::Length(64)],
        "BUNDLE_HEADER LENGTH | IMPORT.MEM 1 3 13",
    ),
    (
        &[Edit::Length(4159)],
        "BUNDLE_HEADER LENGTH | IMPORT.MEM 1 3 13",
    ),
    (
        &[Edit::Length(4161)],
        "BUNDLE_HEADER LENGTH | IMPORT.MEM 1 3 13",
    ),
    (
        &[Edit::Put(6, 1)],
        "BUNDLE_HEADER LENGTH | IMPORT.MEM 1 3 13",
    ),
    (
        &[Edit::Put(4, 2)],
        "BUNDLE_HEADER STREAM | IMPORT.MEM 1 3 13",
    ),
    (
        &[Edit::Put(24, 2)],
        "BUNDLE_HEADER SESSION | IMPORT.MEM 1 3 13",
    ),
    (
        &[Edit::Put(12, 1)],
        "BUNDLE_HEADER EPOCH | IMPORT.MEM 1 3 13",
    ),
    (
        &[Edit::Put(8, 3), Edit::Put(16, 3)],
        "BUNDLE_COUNTER 2 3 | IMPORT.MEM 1 3 13",
    ),
    (&[Edit::Put(4, 1)], "BUNDLE_COUNTER 1 2 | IMPORT.MEM 1 3 13"),
    (&[Edit::Put(33, 16)], "BUNDLE_TAG | IMPORT.MEM 1 3 13"),
    (&[Edit::Turn(48)], "BUNDLE_TAG | IMPORT.MEM 1 3 13"),
    (&[Edit::Turn(64)], "BUNDLE_TAG | IMPORT.MEM 1 3 13"),
];

// The last byte of its bundle is turned, and the other bundles come all the same.
const BYTE: &[ForgedRow<'static>] = &[(
    &[(3, 3, &[Edit::Turn(4159)])],
    &[
        WAITS,
        OPENED,
        "SUCCESS | IMPORT.MEM 1 1 8 | IMPORT.TRACK 1 2 ; BUNDLE_TAG | IMPORT.MEM 1 3 13",
        "SUCCESS | IMPORT.MEM 1 4 9 | IMPORT.MEM 1 5 10 ; BUNDLE_COUNTER 2 3 | IMPORT.STATE.TD 1 6",
        "OP_STATE_INCORRECT MEMORY_IMPORT | IMPORT.STATE.VP 1 4 7 | IMPORT.TRACK 1 8 \
            | IMPORT.COMMIT 1 | VP.ENTER 1 4 10 | IMPORT.END 1",
    ],
)];

// Bundles as they were made, in other calls or in another order.
const CHANGES: &[&[&str]] = &[
    // A VCPU state in the place of a page.
    &[
        WAITS,
        OPENED,
        "SUCCESS | IMPORT.MEM 1 1 8 | IMPORT.TRACK 1 2 ; BUNDLE_HEADER TYPE | IMPORT.MEM 1 7 13",
        "SUCCESS | IMPORT.MEM 1 4 9 | IMPORT.MEM 1 5 10 ; BUNDLE_COUNTER 2 3 | IMPORT.STATE.TD 1 6",
        "OP_STATE_INCORRECT MEMORY_IMPORT | IMPORT.STATE.VP 1 4 7 | IMPORT.TRACK 1 8 \
            | IMPORT.COMMIT 1 | VP.ENTER 1 4 10 | IMPORT.END 1",
    ],
    // A page behind the next one of its stream.
    &[
        WAITS,
        OPENED,
        "SUCCESS | IMPORT.MEM 1 1 8 | IMPORT.TRACK 1 2 | IMPORT.MEM 1 3 13",
        "BUNDLE_COUNTER 1 2 | IMPORT.MEM 1 5 10 ; SUCCESS | IMPORT.MEM 1 4 9",
        "SUCCESS | IMPORT.STATE.TD 1 6 | IMPORT.STATE.VP 1 4 7",
        "TOKEN_TOTAL 7 8 | IMPORT.TRACK 1 8",
        "OP_STATE_INCORRECT STATE_IMPORT | IMPORT.COMMIT 1 | VP.ENTER 1 4 10 | IMPORT.END 1",
    ],
    // A page before the epoch token.
    &[
        WAITS,
        OPENED,
        "SUCCESS | IMPORT.MEM 1 1 8 ; BUNDLE_HEADER EPOCH | IMPORT.MEM 1 4 9",
        "SUCCESS | IMPORT.TRACK 1 2 | IMPORT.MEM 1 3 13 | IMPORT.MEM 1 4 9 | IMPORT.MEM 1 5 10",
        STARTED,
        "SUCCESS | IMPORT.COMMIT 1 ; EXIT VMCALL 33 | VP.ENTER 1 4 10 ; SUCCESS | IMPORT.END 1",
    ],
    // The start token in the place of the epoch token.
    &[
        WAITS,
        OPENED,
        "SUCCESS | IMPORT.MEM 1 1 8 ; OP_STATE_INCORRECT MEMORY_IMPORT | IMPORT.TRACK 1 8",
        "BUNDLE_HEADER EPOCH | IMPORT.MEM 1 3 13 | IMPORT.MEM 1 4 9 | IMPORT.MEM 1 5 10 \
            | IMPORT.STATE.TD 1 6",
        "OP_STATE_INCORRECT MEMORY_IMPORT | IMPORT.STATE.VP 1 4 7 | IMPORT.TRACK 1 8 \
            | IMPORT.COMMIT 1 | VP.ENTER 1 4 10 | IMPORT.END 1",
    ],
    // A VCPU state before the TD state.
    &[
        WAITS,
        OPENED,
        FILLED,
        "OP_STATE_INCORRECT MEMORY_IMPORT | IMPORT.STATE.VP 1 4 7",
        STARTED,
        "SUCCESS | IMPORT.COMMIT 1 ; EXIT VMCALL 33 | VP.ENTER 1 4 10 ; SUCCESS | IMPORT.END 1",
    ],
    // A page twice.
    &[
        WAITS,
        OPENED,
        "SUCCESS | IMPORT.MEM 1 1 8 ; BUNDLE_COUNTER 1 0 | IMPORT.MEM 1 1 13",
        "SUCCESS | IMPORT.TRACK 1 2 | IMPORT.MEM 1 3 13 | IMPORT.MEM 1 4 9 | IMPORT.MEM 1 5 10",
        STARTED,
        "SUCCESS | IMPORT.COMMIT 1 ; EXIT VMCALL 33 | VP.ENTER 1 4 10 ; SUCCESS | IMPORT.END 1",
    ],
    // Without one page the start token has another total.
    &[
        WAITS,
        OPENED,
        "SUCCESS | IMPORT.MEM 1 1 8 | IMPORT.TRACK 1 2 | IMPORT.MEM 1 3 13 | IMPORT.MEM 1 4 9",
        "SUCCESS | IMPORT.STATE.TD 1 6 | IMPORT.STATE.VP 1 4 7",
        "TOKEN_TOTAL 7 8 | IMPORT.TRACK 1 8",
        "OP_STATE_INCORRECT STATE_IMPORT | IMPORT.COMMIT 1 | VP.ENTER 1 4 10 | IMPORT.END 1",
    ],
];

// The whole session again, to another TD.
const AGAIN: &[&[&str]] = &[&[
    WAITS,
    OPENED,
    FILLED,
    STARTED,
    "SUCCESS | IMPORT.COMMIT 1 ; EXIT VMCALL 33 | VP.ENTER 1 4 10 ; SUCCESS | IMPORT.END 1",
    "SUCCESS | MNG.CREATE 20 2 | MNG.KEY.CONFIG 20 | MNG.ADDCX 20 21 | MNG.ADDCX 20 22 \
        | MIG.STREAM.CREATE 20 23",
    "BUNDLE_HEADER SESSION | IMPORT.STATE.IMMUTABLE 20 0",
]];

const ROWS: &[ArrivalRow<'static>] = &[
    // Where the start token has another total the import stays where it is, and goes on with the page.
    (
        &[],
        (
            "",
            &[GUEST],
            &[&[
                WAITS,
                OPENED,
                "SUCCESS | IMPORT.MEM 1 1 8 | IMPORT.TRACK 1 2 | IMPORT.MEM 1 3 13 \
                    | IMPORT.MEM 1 4 9 | IMPORT.STATE.TD 1 6 | IMPORT.STATE.VP 1 4 7",
                "TOKEN_TOTAL 7 8 | IMPORT.TRACK 1 8",
                "SUCCESS STATE_IMPORT | MNG.RD 1 OP",
                "SUCCESS | IMPORT.MEM 1 5 10 | IMPORT.TRACK 1 8 | IMPORT.COMMIT 1",
                "EXIT VMCALL 33 | VP.ENTER 1 4 10",
                "SUCCESS | IMPORT.END 1",
            ]],
            "0.23 load 0x0 44 | 0.23 load 0x1000 22 | 0.23 load 0x2000 33",
        ),
    ),
];

// Behind each refusal the page comes as it was made, in another slot.
#[test]
fn a_destination_refuses_what_was_turned(rt: HostRuntime) -> Result<(), Fail> {
    let alloc = rt.alloc();
    let container = sent(&rt, alloc)?;
    for (edits, refusal) in TURNED {
        let forged = [(3, 3, *edits), (3, 9, [].as_slice())];
        let calls = [
            WAITS,
            OPENED,
            "SUCCESS | IMPORT.MEM 1 1 8 | IMPORT.TRACK 1 2",
            *refusal,
            "SUCCESS | IMPORT.MEM 1 9 13 | IMPORT.MEM 1 4 9 | IMPORT.MEM 1 5 10",
            STARTED,
            "SUCCESS | IMPORT.COMMIT 1",
            "EXIT VMCALL 33 | VP.ENTER 1 4 10",
            "SUCCESS | IMPORT.END 1",
        ];
        let row = (forged.as_slice(), calls.as_slice());
        replay_forged(&rt, alloc, &container, LINE, "1 32 1", &[GUEST], &[row])?;
    }
    replay_forged(&rt, alloc, &container, LINE, "1 32 1", &[GUEST], BYTE)
}

#[test]
fn a_destination_takes_bundles_in_their_order(rt: HostRuntime) -> Result<(), Fail> {
    let alloc = rt.alloc();
    let container = sent(&rt, alloc)?;
    let beside = with_bundles(&container);
    replay_changes(&rt, alloc, beside, LINE, "1 32 1", &[GUEST], CHANGES)?;
    replay_changes(&rt, alloc, beside, LINE, "1 32 2", &[GUEST], AGAIN)?;
    arrive(&rt, alloc, &SOURCE, ROWS)
}
