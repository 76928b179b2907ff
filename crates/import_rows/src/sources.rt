//! The sources of migrations, and how what they save comes to a destination. TWICE, REVERSED, BOTH and NONE
//! serve `checks/second/arrivals` alone, whose rows the built program is tried by.

use row_replay::{
    ALONE, ArrivalRow, Asked, BUILT, Beside, DIRTIED, FILLED, GUEST, HANDED, OPENED, PAGES, RUNS,
    Row, SECOND, SENT, STARTED, STREAM, TREE, WAITS, container_of_arrival, container_of_asked,
    container_of_row, replay_arrivals,
};
use std::alloc::Global;
use std::test::Fail;
use std::thread::Threads;

/// A whole source: a page that goes out twice, and two others, on two streams.
pub const SOURCE: Row<'static> = ("", &[GUEST], &[&[TREE, PAGES, SENT, DIRTIED, HANDED]], "");

/// A source whose first session is aborted, and whose second one is whole.
pub const TWICE: Row<'static> = (
    "",
    &[GUEST],
    &[&[
        TREE,
        PAGES,
        "SUCCESS | EXPORT.STATE.IMMUTABLE 1 20 | EXPORT.PAUSE 1 | EXPORT.MEM 1 0 1 21 \
                    | EXPORT.MEM 1 4096 0 22 | EXPORT.STATE.TD 1 23 | EXPORT.ABORT 1 \
                    | EXPORT.RESTORE 1 0 | EXPORT.RESTORE 1 4096 | EXPORT.STATE.IMMUTABLE 1 0 \
                    | EXPORT.PAUSE 1 | EXPORT.MEM 1 0 1 1 | EXPORT.MEM 1 4096 0 2 \
                    | EXPORT.MEM 1 8192 1 3 | EXPORT.STATE.TD 1 4 | EXPORT.STATE.VP 1 4 5 \
                    | EXPORT.TRACK 1 6 1",
    ]],
    "",
);

/// One that exports pages behind the TD state, the first of them for the second time.
pub const LATER: Row<'static> = (
    "",
    &[GUEST],
    &[&[
        TREE,
        PAGES,
        SENT,
        DIRTIED,
        "SUCCESS | EXPORT.STATE.TD 1 2 | EXPORT.MEM 1 4096 0 3 | EXPORT.TRACK 1 4 0 \
                    | EXPORT.MEM 1 0 1 5 | EXPORT.STATE.VP 1 4 6 | EXPORT.MEM 1 8192 0 7 \
                    | EXPORT.TRACK 1 8 1",
    ]],
    "",
);

/// One that exports a VCPU state before the TD state.
pub const REVERSED: Row<'static> = (
    "",
    &[],
    &[&[
        TREE,
        PAGES,
        "SUCCESS | EXPORT.STATE.IMMUTABLE 1 0 | EXPORT.PAUSE 1 | EXPORT.MEM 1 0 1 1 \
                    | EXPORT.STATE.VP 1 4 2 | EXPORT.STATE.TD 1 3 | EXPORT.TRACK 1 4 1",
    ]],
    "",
);

/// One with two VCPUs, and without memory.
pub const BOTH: Row<'static> = (
    "",
    &["1 0 | set 1 7 | vmcall 1", "1 1 | vmcall 0"],
    &[&[
        TREE,
        SECOND,
        "SUCCESS | MIG.STREAM.CREATE 1 11 | MR.FINALIZE 1 | EXPORT.STATE.IMMUTABLE 1 0 \
                    | EXPORT.PAUSE 1 | EXPORT.STATE.TD 1 1 | EXPORT.STATE.VP 1 9 2 \
                    | EXPORT.STATE.VP 1 4 3 | EXPORT.TRACK 1 4 1",
    ]],
    "",
);

/// One without VCPUs.
pub const NONE: Row<'static> = (
    "",
    &[],
    &[&[
        BUILT,
        STREAM,
        RUNS,
        "SUCCESS | EXPORT.STATE.IMMUTABLE 1 0 | EXPORT.PAUSE 1 | EXPORT.STATE.TD 1 1 \
                    | EXPORT.TRACK 1 2 1",
    ]],
    "",
);

/// A destination of SOURCE that gives the import up in the end.
pub const GIVENUP: Row<'static> = (
    "",
    &[GUEST],
    &[&[
        WAITS,
        OPENED,
        FILLED,
        STARTED,
        "SUCCESS | IMPORT.ABORT 1 40",
        "OP_STATE_INCORRECT FAILED_IMPORT | IMPORT.COMMIT 1",
    ]],
    "",
);

/// SOURCE once more, which goes on by the token of GIVENUP, with all that it had.
pub const RESUMED: Row<'static> = (
    "",
    &[GUEST],
    &[&[
        TREE,
        PAGES,
        SENT,
        DIRTIED,
        HANDED,
        "OP_STATE_INCORRECT POST_EXPORT | EXPORT.ABORT 1",
        "SUCCESS | EXPORT.ABORT 1 40",
        "EXIT VMCALL 33 | VP.ENTER 1 4 10",
        "SUCCESS | EXPORT.RESTORE 1 0",
    ]],
    "0.37 load 0x0 44 | 0.37 load 0x1000 22 | 0.37 load 0x2000 33",
);

/// SOURCE, GIVENUP and RESUMED as they are asked for.
pub const SENDER: Asked<'static> = ("replay s --keys k --out-bundles b", "1 32 1", SOURCE);

pub const GIVER: Asked<'static> = (
    "replay s --keys k --bundles c --out-bundles b",
    "1 32 1",
    GIVENUP,
);

pub const RESUMER: Asked<'static> = (
    "replay s --bundles c --keys k --secrets z --out-bundles b --guest-out g",
    "1 32 1",
    RESUMED,
);

/// What SENDER saves.
pub fn sent<R: Threads + Sync>(threads: &R, alloc: Global) -> Result<Vec<u8>, Fail> {
    container_of_asked(threads, alloc, ALONE, &SENDER)
}

/// What GIVER saves, to which that comes.
pub fn given_up<R: Threads + Sync>(threads: &R, alloc: Global) -> Result<Vec<u8>, Fail> {
    let container = sent(threads, alloc)?;
    container_of_asked(threads, alloc, with_bundles(&container), &GIVER)
}

/// A container beside a script.
pub fn with_bundles(container: &[u8]) -> Beside<'_> {
    Beside {
        secrets: None,
        bundles: Some(container),
    }
}

/// Replays rows to which the bundles of a source come, turned as each says.
pub fn arrive<R: Threads + Sync>(
    threads: &R,
    alloc: Global,
    source: &Row<'static>,
    rows: &[ArrivalRow<'static>],
) -> Result<(), Fail> {
    let container = container_of_row(threads, alloc, source)?;
    replay_arrivals(threads, alloc, &container, rows)
}

/// Replays rows of a source to which the bundles of its destination come.
pub fn come_back<R: Threads + Sync>(
    threads: &R,
    alloc: Global,
    source: &Row<'static>,
    destination: &Row<'static>,
    rows: &[ArrivalRow<'static>],
) -> Result<(), Fail> {
    let container = sent_back(threads, alloc, source, destination)?;
    replay_arrivals(threads, alloc, &container, rows)
}

/// The container that a destination saves to which the bundles of a source come.
pub fn sent_back<R: Threads + Sync>(
    threads: &R,
    alloc: Global,
    source: &Row<'static>,
    destination: &Row<'static>,
) -> Result<Vec<u8>, Fail> {
    let sent = container_of_row(threads, alloc, source)?;
    container_of_arrival(threads, alloc, &sent, destination)
}
