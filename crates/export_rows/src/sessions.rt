//! Sessions of an export, from their beginning to the start token or to an abort.

use row_replay::{BEGUN, BUILT, OTHER, RUNS, Row, SECOND, STREAM, TREE, replay_rows};
use std::test::Fail;

const ROWS: &[Row<'static>] = &[
    // Bundles are counted on stream 0, which no stream is added to once a session stands.
    (
        "",
        &[],
        &[&[
            TREE,
            RUNS,
            "NO_STREAM 0 | EXPORT.STATE.IMMUTABLE 1 1",
            "SUCCESS RUNNABLE | MNG.RD 1 OP",
            STREAM,
            BEGUN,
            "SUCCESS LIVE_EXPORT | MNG.RD 1 OP",
            "OP_STATE_INCORRECT LIVE_EXPORT | MIG.STREAM.CREATE 1 11",
        ]],
        "",
    ),
    // Each op state, and what is refused in it.
    (
        "",
        &["1 0 | set 1 7 | set 2 8 | set 3 9"],
        &[&[
            TREE,
            STREAM,
            "OP_STATE_INCORRECT INITIALIZED | EXPORT.STATE.IMMUTABLE 1 1 | EXPORT.TRACK 1 2 0 \
                | EXPORT.TRACK 1 3 1 | EXPORT.STATE.TD 1 4 | EXPORT.STATE.VP 1 4 5",
            RUNS,
            "OP_STATE_INCORRECT RUNNABLE | EXPORT.TRACK 1 6 0 | EXPORT.TRACK 1 7 1 \
                | EXPORT.STATE.TD 1 8 | EXPORT.STATE.VP 1 4 9 | EXPORT.STATE.VP 1 2 10",
            BEGUN,
            "OP_STATE_INCORRECT LIVE_EXPORT | EXPORT.STATE.IMMUTABLE 1 11 | EXPORT.TRACK 1 12 1 \
                | EXPORT.STATE.TD 1 13 | EXPORT.STATE.VP 1 4 14",
            "EXIT MAX | VP.ENTER 1 4 1",
            "SUCCESS | EXPORT.TRACK 1 15 0 | EXPORT.PAUSE 1",
            "OP_STATE_INCORRECT PAUSED_EXPORT | EXPORT.STATE.IMMUTABLE 1 16 | EXPORT.PAUSE 1 \
                | VP.ENTER 1 4 1",
            "SUCCESS | EXPORT.TRACK 1 17 0 | EXPORT.STATE.TD 1 18 | EXPORT.STATE.VP 1 4 19 \
                | EXPORT.TRACK 1 20 0 | EXPORT.TRACK 1 21 1",
            "SUCCESS POST_EXPORT | MNG.RD 1 OP",
            "OP_STATE_INCORRECT POST_EXPORT | EXPORT.STATE.IMMUTABLE 1 22 | EXPORT.TRACK 1 23 0 \
                | EXPORT.TRACK 1 24 1 | EXPORT.STATE.TD 1 25 | EXPORT.STATE.VP 1 4 26 \
                | EXPORT.PAUSE 1 | EXPORT.ABORT 1 | VP.ENTER 1 4 1",
        ]],
        "",
    ),
    // A page that is no VCPU of the TD: TDCX, secure EPT, stream, the host's, and another TD's VCPU.
    (
        "",
        &[],
        &[&[
            TREE,
            OTHER,
            STREAM,
            RUNS,
            BEGUN,
            "SUCCESS | EXPORT.PAUSE 1",
            "PAGE_METADATA_INCORRECT 2 | EXPORT.STATE.VP 1 2 1",
            "PAGE_METADATA_INCORRECT 5 | EXPORT.STATE.VP 1 5 2",
            "PAGE_METADATA_INCORRECT 10 | EXPORT.STATE.VP 1 10 3",
            "PAGE_METADATA_INCORRECT 15 | EXPORT.STATE.VP 1 15 4",
            "PAGE_METADATA_INCORRECT 23 | EXPORT.STATE.VP 1 23 5",
            "PAGE_METADATA_INCORRECT 4 | EXPORT.STATE.VP 4 23 6 | EXPORT.STATE.TD 4 7",
            "SUCCESS | EXPORT.STATE.VP 1 4 8",
        ]],
        "",
    ),
    // Each state is exported once in a session, whatever the epoch, and the start token tells how many
    // are missing. The next session wants them all again.
    (
        "",
        &[],
        &[&[
            TREE,
            SECOND,
            STREAM,
            RUNS,
            BEGUN,
            "SUCCESS | EXPORT.PAUSE 1",
            "STATE_MISSING 3 | EXPORT.TRACK 1 1 1",
            "SUCCESS | EXPORT.STATE.TD 1 2",
            "ALREADY_EXPORTED | EXPORT.STATE.TD 1 3",
            "STATE_MISSING 2 | EXPORT.TRACK 1 4 1",
            "SUCCESS | EXPORT.STATE.VP 1 9 5",
            "ALREADY_EXPORTED | EXPORT.STATE.VP 1 9 6",
            "STATE_MISSING 1 | EXPORT.TRACK 1 7 1",
            "SUCCESS | EXPORT.TRACK 1 8 0",
            "ALREADY_EXPORTED | EXPORT.STATE.TD 1 9 | EXPORT.STATE.VP 1 9 10",
            "SUCCESS | EXPORT.ABORT 1 | EXPORT.STATE.IMMUTABLE 1 11 | EXPORT.PAUSE 1",
            "STATE_MISSING 3 | EXPORT.TRACK 1 12 1",
            "SUCCESS | EXPORT.STATE.VP 1 4 13 | EXPORT.STATE.VP 1 9 14",
            "STATE_MISSING 1 | EXPORT.TRACK 1 15 1",
            "SUCCESS | EXPORT.STATE.TD 1 16 | EXPORT.TRACK 1 17 1",
            "SUCCESS POST_EXPORT | MNG.RD 1 OP",
        ]],
        "",
    ),
    // A session that is aborted live, and one that is aborted paused: the TD runs on.
    (
        "",
        &["1 0 | set 1 7 | set 2 8 | set 3 9"],
        &[&[
            TREE,
            STREAM,
            RUNS,
            BEGUN,
            "SUCCESS | EXPORT.ABORT 1",
            "EXIT MAX | VP.ENTER 1 4 1",
            "OP_STATE_INCORRECT RUNNABLE | EXPORT.TRACK 1 1 0 | EXPORT.ABORT 1",
            "SUCCESS | EXPORT.STATE.IMMUTABLE 1 2 | EXPORT.PAUSE 1 | EXPORT.STATE.VP 1 4 3 \
                | EXPORT.ABORT 1",
            "EXIT MAX | VP.ENTER 1 4 1",
            "SUCCESS | MIG.STREAM.CREATE 1 11 | EXPORT.STATE.IMMUTABLE 1 4",
            "SUCCESS LIVE_EXPORT | MNG.RD 1 OP",
        ]],
        "",
    ),
    // A TD without VCPUs has its own state alone, and a TD that is exported may end.
    (
        "",
        &[],
        &[&[
            BUILT,
            STREAM,
            RUNS,
            BEGUN,
            "SUCCESS | EXPORT.PAUSE 1",
            "STATE_MISSING 1 | EXPORT.TRACK 1 1 1",
            "SUCCESS | EXPORT.STATE.TD 1 2 | EXPORT.TRACK 1 3 1",
            "SUCCESS | MNG.VPFLUSHDONE 1 | PHYMEM.CACHE.WB | MNG.KEY.FREEID 1 \
                | PHYMEM.PAGE.RECLAIM 1 2 | PHYMEM.PAGE.RECLAIM 1 3 | PHYMEM.PAGE.RECLAIM 1 10 \
                | PHYMEM.PAGE.RECLAIM 1 1",
        ]],
        "",
    ),
];

#[test]
fn sessions_go_from_their_beginning_to_an_end(rt: HostRuntime) -> Result<(), Fail> {
    replay_rows(&rt, rt.alloc(), ROWS)
}
