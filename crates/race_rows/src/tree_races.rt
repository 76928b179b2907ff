//! Two processors at the tree and the pages of a TD, under a schedule.
//!
//! The ten calls of TREE have 64 events. MR.FINALIZE has 5, MEM.SEPT.RD and MIG.STREAM.CREATE have 7,
//! MEM.SEPT.ADD, MEM.PAGE.AUG and MR.EXTEND have 9, and MEM.PAGE.ADD has 11.

use row_replay::{INITIALIZED, TREE, replay_races, replays};
use std::test::Fail;

// The last event of each call releases the TDR, which is to be held alone to end the TD.
const RACES: &[&[&str]] = &[
    &[
        TREE,
        "SUCCESS NL_MAPPED 7 | MEM.SEPT.RD 1 0 1",
        "0*63 1 | OPERAND_BUSY P 1 | MNG.VPFLUSHDONE 1",
        "0*64 1*3 | LIFECYCLE_STATE_INCORRECT TD_KEYS_CONFIGURED | MNG.KEY.FREEID 1",
        "0*70 1 | OPERAND_BUSY P 1 | MNG.VPFLUSHDONE 1",
        "0*71 1*3 | LIFECYCLE_STATE_INCORRECT TD_KEYS_CONFIGURED | MNG.KEY.FREEID 1",
        // Even readers have the tree alone.
        "0*67 1*5 | OPERAND_BUSY T | MEM.SEPT.RD 1 0 1",
        "0*66 1*3 | OPERAND_BUSY O | MR.EXTEND 1 0",
    ],
    &[
        TREE,
        "SUCCESS | MEM.SEPT.ADD 1 0x200000 1 8",
        "0*72 1 | OPERAND_BUSY P 1 | MNG.VPFLUSHDONE 1",
        "0*73 1*3 | LIFECYCLE_STATE_INCORRECT TD_KEYS_CONFIGURED | MNG.KEY.FREEID 1",
        // The entry is read as it was, not at all, and as it is.
        "0*66 1*7 | SUCCESS FREE | MEM.SEPT.RD 1 0x200000 1",
        "0*67 1*5 | OPERAND_BUSY T | MEM.SEPT.RD 1 0x200000 1",
        "0*70 1*5 | OPERAND_BUSY T | MEM.SEPT.ADD 1 0x400000 1 9",
        "0*71 1*7 | SUCCESS NL_MAPPED 8 | MEM.SEPT.RD 1 0x200000 1",
        "0*71 1*9 | EPT_ENTRY_STATE_INCORRECT NL_MAPPED | MEM.SEPT.ADD 1 0x200000 1 9",
        // Calls that share the op state run beside it, and those that want it alone don't.
        "0*68 1*9 | SUCCESS 1 | MNG.RD 1 EPOCH",
        "0*66 1*3 | OPERAND_BUSY O | MEM.PAGE.ADD 1 0 9 0",
        "0*71 1*3 | OPERAND_BUSY O | MR.FINALIZE 1",
        "0*68 1*2 | OPERAND_BUSY P 8 | HOST.READ 8 0",
        "0*69 1*2 | OPERAND_BUSY P 8 | HOST.WRITE 8 0 9",
        "0*70 1*3 | NOT_HOST | HOST.WRITE 8 0 9",
    ],
    &[
        TREE,
        "SUCCESS | MEM.PAGE.ADD 1 0 8 0",
        "0*74 1 | OPERAND_BUSY P 1 | MNG.VPFLUSHDONE 1",
        "0*75 1*3 | LIFECYCLE_STATE_INCORRECT TD_KEYS_CONFIGURED | MNG.KEY.FREEID 1",
        "0*66 1*4 | OPERAND_BUSY O | MEM.SEPT.RD 1 0 0",
        "0*73 1*4 | OPERAND_BUSY O | MEM.SEPT.ADD 1 0x200000 1 9",
        "0*74 1*7 | SUCCESS MAPPED 8 | MEM.SEPT.RD 1 0 0",
        // The source is held alone, then the page too, and both past the act.
        "0*68 1*2 | OPERAND_BUSY P 0 | HOST.READ 0 0",
        "0*69 1*2 | OPERAND_BUSY P 8 | HOST.READ 8 0",
        "0*70 1*2 | OPERAND_BUSY P 8 | HOST.READ 8 0",
        "0*71 1*3 | SUCCESS PT_REG 1 0 | PHYMEM.PAGE.RDMD 8",
        "0*71 1*2 | OPERAND_BUSY P 0 | HOST.WRITE 0 0 9",
        "0*72 1*3 | SUCCESS | HOST.WRITE 0 0 9",
    ],
    &[
        TREE,
        "SUCCESS | MEM.PAGE.ADD 1 0 8 0 | MR.EXTEND 1 0",
        "0*83 1 | OPERAND_BUSY P 1 | MNG.VPFLUSHDONE 1",
        "0*84 1*3 | LIFECYCLE_STATE_INCORRECT TD_KEYS_CONFIGURED | MNG.KEY.FREEID 1",
        "0*77 1*4 | OPERAND_BUSY O | MEM.SEPT.RD 1 0 0",
        "0*80 1*3 | OPERAND_BUSY O | MEM.PAGE.ADD 1 4096 9 0",
        // The page is shared with those who look at it.
        "0*79 1*3 | SUCCESS 0 | HOST.READ 8 0",
        "0*78 1 0*3 1*2 | NOT_HOST | HOST.WRITE 8 0 9",
    ],
    &[
        TREE,
        "SUCCESS | MR.FINALIZE 1 | MEM.PAGE.AUG 1 0 8",
        "0*77 1 | OPERAND_BUSY P 1 | MNG.VPFLUSHDONE 1",
        "0*78 1*3 | LIFECYCLE_STATE_INCORRECT TD_KEYS_CONFIGURED | MNG.KEY.FREEID 1",
        // The entry is read as it was, not at all, and as it is.
        "0*71 1*7 | SUCCESS FREE | MEM.SEPT.RD 1 0 0",
        "0*72 1*5 | OPERAND_BUSY T | MEM.SEPT.RD 1 0 0",
        "0*75 1*5 | OPERAND_BUSY T | MEM.PAGE.AUG 1 4096 9",
        "0*76 1*7 | SUCCESS PENDING 8 | MEM.SEPT.RD 1 0 0",
        "0*76 1*9 | EPT_ENTRY_STATE_INCORRECT PENDING | MEM.PAGE.AUG 1 0 9",
        "0*76 1*9 | SUCCESS | MEM.PAGE.AUG 1 4096 9",
        // Calls that share the op state run beside it, and those that want it alone don't.
        "0*73 1*9 | SUCCESS 1 | MNG.RD 1 EPOCH",
        "0*71 1*3 | OPERAND_BUSY O | MR.FINALIZE 1",
        "0*76 1*3 | OPERAND_BUSY O | MR.FINALIZE 1",
        // The page is the host's until it is held alone, and the TD's once it is released.
        "0*72 1*3 | SUCCESS | HOST.WRITE 8 0 9",
        "0*73 1*2 | OPERAND_BUSY P 8 | HOST.READ 8 0",
        "0*74 1*2 | OPERAND_BUSY P 8 | HOST.WRITE 8 0 9",
        "0*75 1*3 | NOT_HOST | HOST.WRITE 8 0 9",
    ],
    // Calls that are refused under the tree's lock, and calls that come too late for a lock.
    &[
        TREE,
        "EPT_WALK_FAILED 1 | MEM.PAGE.ADD 1 0x200000 8 0",
        "0*70 1 | OPERAND_BUSY P 1 | MNG.VPFLUSHDONE 1",
        "0*71 1*3 | LIFECYCLE_STATE_INCORRECT TD_KEYS_CONFIGURED | MNG.KEY.FREEID 1",
    ],
    &[
        TREE,
        "OPERAND_BUSY T | MEM.SEPT.ADD 1 0x200000 1 8",
        "0*66 1*3 0 | SUCCESS NL_MAPPED 5 | MEM.SEPT.RD 1 0 3",
    ],
    &[
        TREE,
        "OPERAND_BUSY P 8 | MEM.SEPT.ADD 1 0x200000 1 8",
        "0*67 1 0 | SUCCESS 0 | HOST.READ 8 0",
    ],
    &[
        TREE,
        "OPERAND_BUSY P 8 | MEM.PAGE.ADD 1 0 8 0",
        "0*68 1 0 | SUCCESS 0 | HOST.READ 8 0",
    ],
    &[
        TREE,
        "OPERAND_BUSY P 0 | MEM.PAGE.ADD 1 0 8 0",
        "0*67 1 0 | SUCCESS | HOST.WRITE 0 0 9",
    ],
    &[
        TREE,
        "SUCCESS | MR.FINALIZE 1",
        "OPERAND_BUSY P 1 | MEM.PAGE.AUG 1 0 8",
        "0*69 1 0 | LIFECYCLE_STATE_INCORRECT TD_KEYS_CONFIGURED | MNG.KEY.FREEID 1",
    ],
    &[
        TREE,
        "SUCCESS | MR.FINALIZE 1",
        "OPERAND_BUSY O | MEM.PAGE.AUG 1 0 8",
        "0*70 1*2 0 | OP_STATE_INCORRECT RUNNABLE | MR.FINALIZE 1",
    ],
    &[
        TREE,
        "SUCCESS | MR.FINALIZE 1",
        "OPERAND_BUSY T | MEM.PAGE.AUG 1 0 8",
        "0*71 1*3 0 | SUCCESS FREE | MEM.SEPT.RD 1 0 0",
    ],
    &[
        TREE,
        "SUCCESS | MR.FINALIZE 1",
        "OPERAND_BUSY P 8 | MEM.PAGE.AUG 1 0 8",
        "0*72 1 0 | SUCCESS 0 | HOST.READ 8 0",
    ],
];

#[test]
fn memory_calls_meet_at_locks(rt: HostRuntime) -> Result<(), Fail> {
    replay_races(&rt, rt.alloc(), 1, RACES)
}

// Calls of a migration's source, of which an op state refuses EXPORT.BLOCKW, EXPORT.UNBLOCKW,
// EXPORT.PAUSE and EXPORT.ABORT, once it is locked.
const SOURCES: &[&[&str]] = &[
    &[
        TREE,
        "SUCCESS | MIG.STREAM.CREATE 1 8",
        "0*70 1 | OPERAND_BUSY P 1 | MNG.VPFLUSHDONE 1",
        "0*71 1*3 | LIFECYCLE_STATE_INCORRECT TD_KEYS_CONFIGURED | MNG.KEY.FREEID 1",
        // The op state is held alone past the act, so that streams are created one after the other.
        "0*66 1*4 | OPERAND_BUSY O | MEM.SEPT.RD 1 0 3",
        "0*69 1*3 | OPERAND_BUSY O | MIG.STREAM.CREATE 1 9",
        "0*70 1*7 | SUCCESS | MIG.STREAM.CREATE 1 9",
        // The page is the host's until it is held alone, and the TD's once it is released.
        "0*66 1*3 | SUCCESS | HOST.WRITE 8 0 9",
        "0*67 1*2 | OPERAND_BUSY P 8 | HOST.READ 8 0",
        "0*68 1*2 | OPERAND_BUSY P 8 | HOST.WRITE 8 0 9",
        "0*69 1*3 | NOT_HOST | HOST.WRITE 8 0 9",
    ],
    &[
        TREE,
        "OPERAND_BUSY P 1 | MIG.STREAM.CREATE 1 8",
        "0*64 1 0 | LIFECYCLE_STATE_INCORRECT TD_KEYS_CONFIGURED | MNG.KEY.FREEID 1",
    ],
    &[
        TREE,
        "OPERAND_BUSY O | MIG.STREAM.CREATE 1 8",
        "0*65 1*2 0 | SUCCESS 1 | MNG.RD 1 EPOCH",
    ],
    &[
        TREE,
        "OPERAND_BUSY P 8 | MIG.STREAM.CREATE 1 8",
        "0*66 1 0 | SUCCESS 0 | HOST.READ 8 0",
    ],
    // EXPORT.BLOCKW and EXPORT.UNBLOCKW share the op state.
    &[
        TREE,
        "OP_STATE_INCORRECT INITIALIZED | EXPORT.BLOCKW 1 0",
        "0*66 1*5 | SUCCESS 1 | MNG.RD 1 EPOCH",
        "0*66 1*3 | OPERAND_BUSY O | MR.FINALIZE 1",
        "0*68 1*5 | SUCCESS | MR.FINALIZE 1",
    ],
    &[
        TREE,
        "OPERAND_BUSY P 1 | EXPORT.BLOCKW 1 0",
        "0*64 1 0 | LIFECYCLE_STATE_INCORRECT TD_KEYS_CONFIGURED | MNG.KEY.FREEID 1",
    ],
    &[
        TREE,
        "OPERAND_BUSY O | EXPORT.BLOCKW 1 0",
        "0*65 1*2 0 | SUCCESS | MR.FINALIZE 1",
    ],
    &[
        TREE,
        "OP_STATE_INCORRECT INITIALIZED | EXPORT.UNBLOCKW 1 0",
        "0*66 1*5 | SUCCESS 1 | MNG.RD 1 EPOCH",
        "0*66 1*3 | OPERAND_BUSY O | MR.FINALIZE 1",
    ],
    &[
        TREE,
        "OPERAND_BUSY P 1 | EXPORT.UNBLOCKW 1 0",
        "0*64 1 0 | LIFECYCLE_STATE_INCORRECT TD_KEYS_CONFIGURED | MNG.KEY.FREEID 1",
    ],
    &[
        TREE,
        "OPERAND_BUSY O | EXPORT.UNBLOCKW 1 0",
        "0*65 1*2 0 | SUCCESS | MR.FINALIZE 1",
    ],
    // EXPORT.PAUSE and EXPORT.ABORT have it alone.
    &[
        TREE,
        "OP_STATE_INCORRECT INITIALIZED | EXPORT.PAUSE 1",
        "0*67 1*3 | OPERAND_BUSY O | MNG.RD 1 EPOCH",
        "0*68 1*5 | SUCCESS 1 | MNG.RD 1 EPOCH",
    ],
    &[
        TREE,
        "OPERAND_BUSY P 1 | EXPORT.PAUSE 1",
        "0*64 1 0 | LIFECYCLE_STATE_INCORRECT TD_KEYS_CONFIGURED | MNG.KEY.FREEID 1",
    ],
    &[
        TREE,
        "OPERAND_BUSY O | EXPORT.PAUSE 1",
        "0*65 1*2 0 | SUCCESS 1 | MNG.RD 1 EPOCH",
    ],
    &[
        TREE,
        "OP_STATE_INCORRECT INITIALIZED | EXPORT.ABORT 1",
        "0*67 1*3 | OPERAND_BUSY O | MNG.RD 1 EPOCH",
        "0*68 1*5 | SUCCESS 1 | MNG.RD 1 EPOCH",
    ],
    &[
        TREE,
        "OPERAND_BUSY P 1 | EXPORT.ABORT 1",
        "0*64 1 0 | LIFECYCLE_STATE_INCORRECT TD_KEYS_CONFIGURED | MNG.KEY.FREEID 1",
    ],
    &[
        TREE,
        "OPERAND_BUSY O | EXPORT.ABORT 1",
        "0*65 1*2 0 | SUCCESS 1 | MNG.RD 1 EPOCH",
    ],
    // EXPORT.RESTORE has the tree alone, and an entry's state refuses it.
    &[
        TREE,
        "SUCCESS | MEM.PAGE.ADD 1 0 8 0 | MR.FINALIZE 1",
        "EPT_ENTRY_STATE_INCORRECT MAPPED | EXPORT.RESTORE 1 0",
        "0*82 1*3 | OPERAND_BUSY O | MR.FINALIZE 1",
        "0*82 1*7 | SUCCESS MAPPED 8 | MEM.SEPT.RD 1 0 0",
        "0*83 1*5 | OPERAND_BUSY T | MEM.SEPT.RD 1 0 0",
        "0*85 1*7 | SUCCESS MAPPED 8 | MEM.SEPT.RD 1 0 0",
    ],
    &[
        TREE,
        "SUCCESS | MEM.PAGE.ADD 1 0 8 0 | MR.FINALIZE 1",
        "OPERAND_BUSY P 1 | EXPORT.RESTORE 1 0",
        "0*80 1 0 | LIFECYCLE_STATE_INCORRECT TD_KEYS_CONFIGURED | MNG.KEY.FREEID 1",
    ],
    &[
        TREE,
        "SUCCESS | MEM.PAGE.ADD 1 0 8 0 | MR.FINALIZE 1",
        "OPERAND_BUSY O | EXPORT.RESTORE 1 0",
        "0*81 1*2 0 | OP_STATE_INCORRECT RUNNABLE | MR.FINALIZE 1",
    ],
    &[
        TREE,
        "SUCCESS | MEM.PAGE.ADD 1 0 8 0 | MR.FINALIZE 1",
        "OPERAND_BUSY T | EXPORT.RESTORE 1 0",
        "0*82 1*3 0 | SUCCESS MAPPED 8 | MEM.SEPT.RD 1 0 0",
    ],
];

#[test]
fn calls_of_a_source_meet_at_locks(rt: HostRuntime) -> Result<(), Fail> {
    replay_races(&rt, rt.alloc(), 1, SOURCES)
}

// Two TDs, each built and measured by its own processor, at the same GPAs.
const BY_TURNS: &[&[&str]] = &[
    &[
        TREE,
        "SUCCESS | HOST.WRITE 0 0 1 | MEM.PAGE.ADD 1 0 8 0 | MR.EXTEND 1 0 | MR.FINALIZE 1",
        "SUCCESS dcecdb011f9ee855f9e82a2409224c0324f09e55718276dd539ac77dffc51c99d02300192df5c35ee9\
            5f517906e2deb3 | MNG.RD 1 MRTD",
    ],
    &[
        INITIALIZED,
        "SUCCESS | VP.CREATE 20 23 | VP.INIT 20 23 0 | MEM.SEPT.ADD 20 0 3 9 \
            | MEM.SEPT.ADD 20 0 2 10 | MEM.SEPT.ADD 20 0 1 11 | HOST.WRITE 12 0 2 \
            | MEM.PAGE.ADD 20 0 13 12 | MR.EXTEND 20 0 | MR.FINALIZE 20",
        "SUCCESS 1313593d65d9447d61cb6ed51b0d370ac0fe4c16a02ade0c7fb9f9affdd15c641f8d9dcc1084651634\
            22da5a9b61db62 | MNG.RD 20 MRTD",
    ],
];

// Event by event, once the first one has left the key table.
#[test]
fn two_tds_are_built_by_turns(rt: HostRuntime) -> Result<(), Fail> {
    let mut schedule = String::from_str(rt.alloc(), "0*5")?;
    for _ in 0_u8..100 {
        schedule.push_str(" 1 0")?;
    }
    replays(&rt, rt.alloc(), "replay s", "2 32 2", &schedule, BY_TURNS)
}
