//! VCPUs, and the measurement that ends where all of them are READY.

use row_replay::{BUILT, EMPTY, KEYS, replay_each};
use std::test::Fail;

const EIGHT: &str = "SUCCESS | VP.CREATE 1 10 | VP.CREATE 1 11 | VP.CREATE 1 12 | VP.CREATE 1 13 \
    | VP.CREATE 1 14 | VP.CREATE 1 15 | VP.CREATE 1 16 | VP.CREATE 1 17";

// The measurement of nothing is known before anything runs.
const NOTHING: &[&[&str]] = &[&[BUILT, "SUCCESS | MR.FINALIZE 1", EMPTY]];

const FIRST: &[&[&str]] = &[
    &[
        BUILT,
        "SUCCESS | VP.CREATE 1 4",
        "VCPU_STATE_INCORRECT CREATED | MR.FINALIZE 1",
        "SUCCESS | VP.INIT 1 4 0",
        "VCPU_STATE_INCORRECT READY | VP.INIT 1 4 0",
    ],
    &[BUILT, EIGHT, "LIMIT VCPUS | VP.CREATE 1 18"],
];

const ROWS: &[&[&str]] = &[
    // The limit is judged before the page, and a refused VP.CREATE takes none.
    &[
        BUILT,
        EIGHT,
        "LIMIT VCPUS | VP.CREATE 1 2 | VP.CREATE 1 17 | VP.CREATE 1 18",
        "SUCCESS PT_NDA 0 0 | PHYMEM.PAGE.RDMD 18",
        "SUCCESS PT_TDVPR 1 0 | PHYMEM.PAGE.RDMD 10 | PHYMEM.PAGE.RDMD 17",
    ],
    // Each VCPU counts for MR.FINALIZE, the first and the last too.
    &[
        BUILT,
        EIGHT,
        "SUCCESS | VP.INIT 1 11 1 | VP.INIT 1 12 2 | VP.INIT 1 13 3 | VP.INIT 1 14 4 \
            | VP.INIT 1 15 5 | VP.INIT 1 16 6 | VP.INIT 1 17 7",
        "VCPU_STATE_INCORRECT CREATED | MR.FINALIZE 1",
        "SUCCESS | VP.INIT 1 10 0 | MR.FINALIZE 1",
        EMPTY,
    ],
    &[
        BUILT,
        EIGHT,
        "SUCCESS | VP.INIT 1 10 0 | VP.INIT 1 11 1 | VP.INIT 1 12 2 | VP.INIT 1 13 3 \
            | VP.INIT 1 14 4 | VP.INIT 1 15 5 | VP.INIT 1 16 6",
        "VCPU_STATE_INCORRECT CREATED | MR.FINALIZE 1",
        "OP_STATE_INCORRECT INITIALIZED | MNG.RD 1 MRTD",
        "SUCCESS | VP.INIT 1 17 7 | MR.FINALIZE 1",
        EMPTY,
    ],
    // A VCPU's page has to be the host's first, and is no other page of the TD.
    &[
        BUILT,
        "PAGE_METADATA_INCORRECT 2 | VP.CREATE 1 2 | VP.INIT 1 2 0",
        "PAGE_METADATA_INCORRECT 3 | VP.CREATE 1 3 | VP.INIT 1 3 0",
        "PAGE_METADATA_INCORRECT 9 | VP.INIT 1 9 0",
        "SUCCESS | VP.CREATE 1 4",
        "PAGE_METADATA_INCORRECT 4 | VP.CREATE 1 4 | MNG.CREATE 4 2",
        "TDCX_NUM_INCORRECT 2 | MNG.ADDCX 1 4",
        "NOT_HOST | HOST.WRITE 4 8 9",
        "SUCCESS | VP.INIT 1 4 5",
        // Register 0 is the VCPU's alone.
        "SUCCESS 0 | HOST.READ 4 8 | HOST.READ 4 1",
    ],
    // The VCPU of another TD.
    &[
        BUILT,
        "SUCCESS | VP.CREATE 1 4 | MNG.CREATE 5 2 | MNG.KEY.CONFIG 5 | MNG.ADDCX 5 6 \
            | MNG.ADDCX 5 7 | MNG.INIT 5",
        "PAGE_METADATA_INCORRECT 4 | VP.INIT 5 4 0 | VP.CREATE 5 4",
        "SUCCESS | MR.FINALIZE 5 | VP.INIT 1 4 0",
    ],
    // A page of another TD is none for MNG.ADDCX, and what the host wrote there before is gone.
    &[
        "SUCCESS | HOST.WRITE 2 0 1 | HOST.WRITE 2 4 9 | HOST.WRITE 2 15 8 | HOST.WRITE 3 511 7",
        "SUCCESS | HOST.WRITE 1 0 3 | HOST.WRITE 1 3 2 | HOST.WRITE 4 1 1 | HOST.WRITE 4 2 1",
        KEYS,
        "SUCCESS | MNG.CREATE 5 2 | MNG.KEY.CONFIG 5",
        "PAGE_METADATA_INCORRECT 5 | MNG.ADDCX 1 5",
        "SUCCESS | MNG.ADDCX 1 2",
        "PAGE_METADATA_INCORRECT 2 | MNG.ADDCX 5 2",
        "SUCCESS | MNG.ADDCX 1 3",
        "SUCCESS UNINITIALIZED | MNG.RD 1 OP",
        "SUCCESS | MNG.INIT 1 | VP.CREATE 1 4",
        "VCPU_STATE_INCORRECT CREATED | MR.FINALIZE 1",
        "SUCCESS | VP.INIT 1 4 0 | MR.FINALIZE 1",
        EMPTY,
    ],
];

#[test]
fn vcpus_are_made_ready_one_by_one(rt: HostRuntime) -> Result<(), Fail> {
    let alloc = rt.alloc();
    replay_each(&rt, alloc, "replay s ; run s", "1 32 1", NOTHING)?;
    replay_each(&rt, alloc, "replay s", "1 32 1", FIRST)?;
    replay_each(&rt, alloc, "replay s", "1 32 2", ROWS)
}
