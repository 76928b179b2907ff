//! The source of a migration of three pages on two streams, with each change that is refused.

use row_replay::{
    ALONE, DIRTIED, GUEST, HANDED, PAGES, Row, SENT, TREE, replay_changes, replay_rows,
};
use std::test::Fail;

// The whole source, with a line or two changed.
const CHANGES: &[&[&str]] = &[
    // Without MEM.TRACK a translation that may write could be left.
    &[
        TREE,
        PAGES,
        "SUCCESS | EXPORT.STATE.IMMUTABLE 1 0 | EXPORT.BLOCKW 1 0",
        "TLB_TRACKING_NOT_DONE | EXPORT.MEM 1 0 1 1",
        DIRTIED,
        HANDED,
    ],
    // A page that is exported and not dirty isn't exported again.
    &[
        TREE,
        PAGES,
        SENT,
        "EPT_ENTRY_STATE_INCORRECT EXPORTED_BLOCKEDW | EXPORT.MEM 1 0 1 9",
        DIRTIED,
        HANDED,
    ],
    // A dirty one is, but in another migration epoch.
    &[
        TREE,
        PAGES,
        SENT,
        DIRTIED,
        "EXPORTED_THIS_EPOCH | EXPORT.MEM 1 0 0 3",
        "SUCCESS | EXPORT.TRACK 1 2 0 | EXPORT.MEM 1 4096 1 4 | EXPORT.MEM 1 8192 1 5 \
            | EXPORT.STATE.TD 1 6 | EXPORT.STATE.VP 1 4 7",
        "DIRTY_PAGES 1 | EXPORT.TRACK 1 8 1",
    ],
    // There are two streams, and there can be four.
    &[
        TREE,
        PAGES,
        SENT,
        DIRTIED,
        "SUCCESS | EXPORT.TRACK 1 2 0 ; NO_STREAM 2 | EXPORT.MEM 1 4096 2 9",
        "SUCCESS | EXPORT.MEM 1 0 0 3 | EXPORT.MEM 1 4096 1 4 | EXPORT.MEM 1 8192 1 5 \
            | EXPORT.STATE.TD 1 6 | EXPORT.STATE.VP 1 4 7 | EXPORT.TRACK 1 8 1",
    ],
    &[
        TREE,
        PAGES,
        "SUCCESS | MIG.STREAM.CREATE 1 13 | MIG.STREAM.CREATE 1 14",
        "LIMIT STREAMS | MIG.STREAM.CREATE 1 15",
        SENT,
        DIRTIED,
        HANDED,
    ],
    // Each state is exported once, and the start token wants them all.
    &[
        TREE,
        PAGES,
        SENT,
        DIRTIED,
        "SUCCESS | EXPORT.TRACK 1 2 0 | EXPORT.MEM 1 0 0 3 | EXPORT.MEM 1 4096 1 4 \
            | EXPORT.MEM 1 8192 1 5 | EXPORT.STATE.TD 1 6",
        "ALREADY_EXPORTED | EXPORT.STATE.TD 1 9",
        "SUCCESS | EXPORT.STATE.VP 1 4 7 | EXPORT.TRACK 1 8 1",
    ],
    &[
        TREE,
        PAGES,
        SENT,
        DIRTIED,
        "SUCCESS | EXPORT.TRACK 1 2 0 | EXPORT.MEM 1 0 0 3 | EXPORT.MEM 1 4096 1 4 \
            | EXPORT.MEM 1 8192 1 5 | EXPORT.STATE.TD 1 6",
        "STATE_MISSING 1 | EXPORT.TRACK 1 8 1",
    ],
    // Nobody runs from the pause on.
    &[
        TREE,
        PAGES,
        SENT,
        DIRTIED,
        "OP_STATE_INCORRECT PAUSED_EXPORT | VP.ENTER 1 4 10",
        HANDED,
    ],
    // Nor does another session begin before the page is restored.
    &[
        TREE,
        PAGES,
        SENT,
        DIRTIED,
        "SUCCESS | EXPORT.ABORT 1 ; UNRESTORED_PAGES 1 | EXPORT.STATE.IMMUTABLE 1 9",
        "SUCCESS | EXPORT.RESTORE 1 0 | EXPORT.STATE.IMMUTABLE 1 10",
    ],
    // The start token wants no dirty page, whether the others were exported or not.
    &[
        TREE,
        PAGES,
        SENT,
        DIRTIED,
        "SUCCESS | EXPORT.TRACK 1 2 0 | EXPORT.STATE.TD 1 6 | EXPORT.STATE.VP 1 4 7",
        "DIRTY_PAGES 1 | EXPORT.TRACK 1 9 1",
        "SUCCESS | EXPORT.MEM 1 0 0 3 | EXPORT.MEM 1 4096 1 4 | EXPORT.MEM 1 8192 1 5 \
            | EXPORT.TRACK 1 8 1",
    ],
    &[
        TREE,
        PAGES,
        SENT,
        DIRTIED,
        "SUCCESS | EXPORT.TRACK 1 2 0 | EXPORT.STATE.TD 1 6 | EXPORT.STATE.VP 1 4 7",
        "DIRTY_PAGES 1 | EXPORT.TRACK 1 9 1",
        "SUCCESS | EXPORT.MEM 1 0 0 3 | EXPORT.TRACK 1 8 1",
    ],
];

const ROWS: &[Row<'static>] = &[
    // Each stream that is created is used, and no other.
    (
        "",
        &[GUEST],
        &[&[
            TREE,
            PAGES,
            "SUCCESS | MIG.STREAM.CREATE 1 13",
            SENT,
            "SUCCESS | EXPORT.PAUSE 1 | EXPORT.MEM 1 4096 2 9",
            "NO_STREAM 3 | EXPORT.MEM 1 8192 3 10",
        ]],
        "",
    ),
    // States count first, and then dirty pages, however many bundles there are.
    (
        "",
        &[GUEST],
        &[&[
            TREE,
            PAGES,
            SENT,
            DIRTIED,
            "STATE_MISSING 2 | EXPORT.TRACK 1 9 1",
            "SUCCESS | EXPORT.MEM 1 4096 1 4 | EXPORT.STATE.VP 1 4 7 | EXPORT.STATE.TD 1 6",
            "DIRTY_PAGES 1 | EXPORT.TRACK 1 10 1",
            "OP_STATE_INCORRECT PAUSED_EXPORT | EXPORT.UNBLOCKW 1 4096 | EXPORT.BLOCKW 1 4096",
        ]],
        "",
    ),
];

#[test]
fn a_source_is_refused_what_its_destination_could_not_take(rt: HostRuntime) -> Result<(), Fail> {
    let alloc = rt.alloc();
    replay_changes(
        &rt,
        alloc,
        ALONE,
        "replay s --keys k",
        "1 32 1",
        &[GUEST],
        CHANGES,
    )?;
    replay_rows(&rt, alloc, ROWS)
}
