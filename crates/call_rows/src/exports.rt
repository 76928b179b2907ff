//! Streams of a migration, and what is left to restore where no page was ever exported.

use row_replay::{BUILT, ENDED, INITIALIZED, KEYS, TREE, replay_each};
use std::test::Fail;

const STREAMS: &[&[&str]] = &[
    // A TD may get streams from its TDCX pages on, and four of them: their number is judged before the
    // page.
    &[
        KEYS,
        "SUCCESS | MNG.ADDCX 1 2 | MNG.ADDCX 1 3 | MIG.STREAM.CREATE 1 5 | MNG.INIT 1 \
            | MIG.STREAM.CREATE 1 6 | MR.FINALIZE 1 | MIG.STREAM.CREATE 1 7",
        "SUCCESS PT_MIGSC 1 0 | PHYMEM.PAGE.RDMD 5 | PHYMEM.PAGE.RDMD 6 | PHYMEM.PAGE.RDMD 7",
        "PAGE_METADATA_INCORRECT 2 | MIG.STREAM.CREATE 1 2",
        "PAGE_METADATA_INCORRECT 7 | MIG.STREAM.CREATE 1 7",
        "SUCCESS | MIG.STREAM.CREATE 1 31",
        "LIMIT STREAMS | MIG.STREAM.CREATE 1 8 | MIG.STREAM.CREATE 1 5 | MIG.STREAM.CREATE 1 2",
        "SUCCESS PT_NDA 0 0 | PHYMEM.PAGE.RDMD 8",
        "SUCCESS PT_MIGSC 1 0 | PHYMEM.PAGE.RDMD 31",
        "SUCCESS RUNNABLE | MNG.RD 1 OP",
    ],
    // A stream's page is no other page, of this TD or of another one.
    &[
        BUILT,
        INITIALIZED,
        "SUCCESS | MIG.STREAM.CREATE 1 5 | MIG.STREAM.CREATE 20 6 | VP.CREATE 1 4",
        "PAGE_METADATA_INCORRECT 5 | VP.CREATE 1 5 | MEM.SEPT.ADD 1 0 3 5 | MIG.STREAM.CREATE 20 5 \
            | MNG.CREATE 5 1 | MNG.RD 5 LIFE | MIG.STREAM.CREATE 5 7 | EXPORT.PAUSE 5",
        "PAGE_METADATA_INCORRECT 6 | MIG.STREAM.CREATE 1 6 | VP.INIT 20 6 0",
        "PAGE_METADATA_INCORRECT 4 | MIG.STREAM.CREATE 1 4 | MIG.STREAM.CREATE 20 4",
        "PAGE_METADATA_INCORRECT 20 | MIG.STREAM.CREATE 1 20",
        "NOT_HOST | HOST.WRITE 5 0 9 | HOST.WRITE 6 0 9",
    ],
    // It comes cleared, and goes back to the host cleared, as any page of an ended TD.
    &[
        BUILT,
        "SUCCESS | HOST.WRITE 5 0 9 | HOST.WRITE 5 511 9 | MIG.STREAM.CREATE 1 5 \
            | MIG.STREAM.CREATE 1 6",
        "LIFECYCLE_STATE_INCORRECT TD_KEYS_CONFIGURED | PHYMEM.PAGE.RECLAIM 1 5",
        "SUCCESS 0 | HOST.READ 5 0 | HOST.READ 5 511",
        ENDED,
        "PAGES_EXIST 4 | PHYMEM.PAGE.RECLAIM 1 1",
        "SUCCESS | PHYMEM.PAGE.RECLAIM 1 5",
        "PAGES_EXIST 3 | PHYMEM.PAGE.RECLAIM 1 1",
        "SUCCESS PT_NDA 0 0 | PHYMEM.PAGE.RDMD 5",
        "SUCCESS PT_MIGSC 1 0 | PHYMEM.PAGE.RDMD 6",
        "SUCCESS 0 | HOST.READ 5 0 | HOST.READ 5 511",
        "SUCCESS | HOST.WRITE 5 0 9 | PHYMEM.PAGE.RECLAIM 1 2 | PHYMEM.PAGE.RECLAIM 1 3 \
            | PHYMEM.PAGE.RECLAIM 1 6 | PHYMEM.PAGE.RECLAIM 1 1",
        // The next TD has none yet.
        BUILT,
        "SUCCESS | MIG.STREAM.CREATE 1 6 | MIG.STREAM.CREATE 1 5 | MIG.STREAM.CREATE 1 7 \
            | MIG.STREAM.CREATE 1 8",
        "LIMIT STREAMS | MIG.STREAM.CREATE 1 9",
    ],
];

#[test]
fn a_td_has_four_streams(rt: HostRuntime) -> Result<(), Fail> {
    replay_each(&rt, rt.alloc(), "replay s", "1 32 2", STREAMS)
}

const RESTORES: &[&[&str]] = &[
    // Each state of an entry that no export was at, and each level at which a walk may end.
    &[
        TREE,
        "SUCCESS | MEM.PAGE.ADD 1 0 8 0 | MEM.PAGE.ADD 1 4096 9 0",
        "OP_STATE_INCORRECT INITIALIZED | EXPORT.RESTORE 1 0",
        "SUCCESS | MR.FINALIZE 1 | MEM.PAGE.AUG 1 8192 10 | MEM.PAGE.AUG 1 12288 11 \
            | MEM.RANGE.BLOCK 1 4096 0 | MEM.RANGE.BLOCK 1 12288 0",
        "EPT_ENTRY_STATE_INCORRECT MAPPED | EXPORT.RESTORE 1 0",
        "EPT_ENTRY_STATE_INCORRECT BLOCKED | EXPORT.RESTORE 1 4096",
        "EPT_ENTRY_STATE_INCORRECT PENDING | EXPORT.RESTORE 1 8192",
        "EPT_ENTRY_STATE_INCORRECT PENDING_BLOCKED | EXPORT.RESTORE 1 12288",
        "EPT_ENTRY_STATE_INCORRECT FREE | EXPORT.RESTORE 1 16384 | EXPORT.RESTORE 1 0x1ff000",
        "EPT_WALK_FAILED 1 | EXPORT.RESTORE 1 0x200000",
        "EPT_WALK_FAILED 2 | EXPORT.RESTORE 1 0x40000000",
        "EPT_WALK_FAILED 3 | EXPORT.RESTORE 1 0x8000000000 | EXPORT.RESTORE 1 0x7ffffffff000",
        "SUCCESS MAPPED 8 | MEM.SEPT.RD 1 0 0",
        "SUCCESS BLOCKED 9 | MEM.SEPT.RD 1 4096 0",
    ],
];

#[test]
fn an_entry_that_was_not_exported_is_not_restored(rt: HostRuntime) -> Result<(), Fail> {
    replay_each(&rt, rt.alloc(), "replay s", "1 32 1", RESTORES)
}
