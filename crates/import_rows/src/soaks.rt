//! The two scripts of a soak of two pages, as they are written: a source and its destination, of which the guest
//! sums on.

use crate::sources::with_bundles;
use row_replay::{ALONE, Asked, container_of_asked, replay_asked};
use std::test::Fail;

const GUEST: &str = "1 0 | load 1 0 | add 0 1 | load 1 4096 | add 0 1 | vmcall 0";

const SENDER: Asked<'static> = (
    "replay s --keys k --out-bundles b",
    "1 1024 1",
    (
        "",
        &[GUEST],
        &[&[
            "SUCCESS | MNG.CREATE 1 1 | MNG.KEY.CONFIG 1 | MNG.ADDCX 1 2 | MNG.ADDCX 1 3 | MNG.INIT 1 \
                | VP.CREATE 1 4 | VP.INIT 1 4 0 | MEM.SEPT.ADD 1 0 3 9 | MEM.SEPT.ADD 1 0 2 10 \
                | MEM.SEPT.ADD 1 0 1 11",
            "SUCCESS | HOST.WRITE 0 0 2 | MEM.PAGE.ADD 1 0 12 0 \
                | HOST.WRITE 0 0 14170967488582549417 | MEM.PAGE.ADD 1 4096 13 0 | MR.FINALIZE 1 \
                | MIG.STREAM.CREATE 1 5 | MIG.STREAM.CREATE 1 6",
            "EXIT MAX | VP.ENTER 1 4 2",
            "SUCCESS | EXPORT.STATE.IMMUTABLE 1 0 | EXPORT.PAUSE 1 | EXPORT.MEM 1 0 0 1 \
                | EXPORT.MEM 1 4096 1 2 | EXPORT.STATE.TD 1 3 | EXPORT.STATE.VP 1 4 4 \
                | EXPORT.TRACK 1 5 1",
        ]],
        "",
    ),
);

const TAKER: &[Asked<'static>] = &[(
    "replay s --keys k --bundles c",
    "1 1024 1",
    (
        "",
        &[GUEST],
        &[&[
            "SUCCESS | MNG.CREATE 1 1 | MNG.KEY.CONFIG 1 | MNG.ADDCX 1 2 | MNG.ADDCX 1 3 \
                | MIG.STREAM.CREATE 1 5 | MIG.STREAM.CREATE 1 6 | IMPORT.STATE.IMMUTABLE 1 0 \
                | VP.CREATE 1 4 | MEM.SEPT.ADD 1 0 3 9 | MEM.SEPT.ADD 1 0 2 10 | MEM.SEPT.ADD 1 0 1 11",
            "SUCCESS | IMPORT.MEM 1 1 12 | IMPORT.MEM 1 2 13 | IMPORT.STATE.TD 1 3 \
                | IMPORT.STATE.VP 1 4 4 | IMPORT.TRACK 1 5 | IMPORT.COMMIT 1",
            "EXIT VMCALL 14170967488582549419 | VP.ENTER 1 4 65535",
            "SUCCESS | IMPORT.END 1",
        ]],
        "",
    ),
)];

#[test]
fn a_guest_sums_the_words_of_two_pages_on_both_sides(rt: HostRuntime) -> Result<(), Fail> {
    let alloc = rt.alloc();
    let container = container_of_asked(&rt, alloc, ALONE, &SENDER)?;
    replay_asked(&rt, alloc, with_bundles(&container), TAKER)
}
