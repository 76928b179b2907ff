//! Several processors, under a schedule and without one.
//!
//! A call that succeeds with n locks has 2n + 1 events: its tries, its act, and its releases in
//! reverse order. So the calls of KEYS have 8 events, those of BUILT 23, and those of ENDED 13.

use row_replay::{BUILT, EMPTY, ENDED, KEYS, replay_races, replays};
use std::test::Fail;

const AT_THE_TDR: &[&[&str]] = &[
    &[
        KEYS,
        // Processor 2 is denied by processor 1, which is being refused.
        "0*6 1 0*2 2 1 | OPERAND_BUSY P 1 | HOST.READ 1 0 || OPERAND_BUSY P 1 | MNG.ADDCX 1 2",
        // It isn't where processor 1 undid its try before.
        "0*6 1 0*2 1 2 | OPERAND_BUSY P 1 | HOST.READ 1 0 || SUCCESS | MNG.ADDCX 1 2",
        // Nor where processor 1 comes after the last event of MNG.KEY.CONFIG.
        "0*8 1 2*2 | SUCCESS 0 | HOST.READ 1 0 || OPERAND_BUSY P 1 | MNG.ADDCX 1 2",
        // The TD can't be ended while its key is configured.
        "0*6 1 2*2 | OPERAND_BUSY P 1 | MNG.VPFLUSHDONE 1 || OPERAND_BUSY P 1 | MNG.RD 1 LIFE",
    ],
    // The key comes too late.
    &[
        "SUCCESS | MNG.CREATE 1 1",
        "LIFECYCLE_STATE_INCORRECT TD_BLOCKED | MNG.KEY.CONFIG 1",
        "0*5 1*5 | SUCCESS | MNG.VPFLUSHDONE 1 || SUCCESS TD_BLOCKED | MNG.RD 1 LIFE",
    ],
    // Reads share the TDR.
    &[
        KEYS,
        "SUCCESS TD_KEYS_CONFIGURED | MNG.RD 1 LIFE",
        "0*8 0 1 2 0 1 2 0 1 2 | SUCCESS TD_KEYS_CONFIGURED | MNG.RD 1 LIFE \
        || SUCCESS PT_TDR 1 0 | PHYMEM.PAGE.RDMD 1",
    ],
    // A bad argument is answered whoever holds the page.
    &[
        "SUCCESS | MNG.CREATE 1 1",
        "0 1 2 | OPERAND_INVALID 2 | MNG.ADDCX 1 1 || OPERAND_INVALID 2 | VP.INIT 1 1 0",
    ],
];

const AT_A_PAGE: &[&[&str]] = &[
    // A call that is denied its second lock gives the first one back.
    &[
        "SUCCESS 0 | HOST.READ 2 0",
        "1*8 0 1*2 2*2 1 2*3 | SUCCESS | MNG.CREATE 1 1 | MNG.KEY.CONFIG 1 \
        ; OPERAND_BUSY P 2 | MNG.ADDCX 1 2 \
        || OPERAND_BUSY P 1 | MNG.RD 1 LIFE ; SUCCESS TD_KEYS_CONFIGURED | MNG.RD 1 LIFE",
    ],
    // Two TDs want the same page.
    &[
        KEYS,
        "SUCCESS | MNG.ADDCX 1 9",
        "1*8 0*10 1*3 | SUCCESS | MNG.CREATE 5 2 | MNG.KEY.CONFIG 5 \
        ; OPERAND_BUSY P 9 | MNG.ADDCX 5 9",
        "1*8 0*12 1*5 | SUCCESS | MNG.CREATE 5 2 | MNG.KEY.CONFIG 5 \
        ; PAGE_METADATA_INCORRECT 9 | MNG.ADDCX 5 9",
    ],
];

const AT_THE_OP_STATE: &[&[&str]] = &[
    &[
        BUILT,
        "OP_STATE_INCORRECT INITIALIZED | MNG.RD 1 MRTD",
        "0*25 1*3 | OPERAND_BUSY O | MR.FINALIZE 1 \
        ; OP_STATE_INCORRECT INITIALIZED | MNG.RD 1 MRTD",
    ],
    // Only one MR.FINALIZE measures.
    &[
        BUILT,
        "SUCCESS | MR.FINALIZE 1",
        EMPTY,
        "0*23 1 0*2 1 | OPERAND_BUSY O | MR.FINALIZE 1",
        "0*23 1 0*5 | OP_STATE_INCORRECT RUNNABLE | MR.FINALIZE 1",
    ],
    // Calls that share the op state run side by side.
    &[
        BUILT,
        "SUCCESS | VP.CREATE 1 4 | VP.CREATE 1 5 | VP.INIT 1 4 1",
        "0*37 0 1 0 1 0 1 0 1 0 1 0 1 0 1 | SUCCESS | VP.INIT 1 5 2 | MR.FINALIZE 1",
    ],
    &[
        BUILT,
        "SUCCESS | VP.CREATE 1 4 | VP.INIT 1 4 1",
        "0*33 1*3 | OPERAND_BUSY O | MR.FINALIZE 1 ; SUCCESS | MR.FINALIZE 1",
    ],
    // VCPUs are created one after the other.
    &[
        BUILT,
        "SUCCESS | VP.CREATE 1 4",
        "0*25 1*3 | OPERAND_BUSY O | VP.CREATE 1 5 ; SUCCESS | VP.CREATE 1 5 \
        || PAGE_METADATA_INCORRECT 4 | VP.CREATE 1 4",
    ],
];

const AT_THE_KEY_TABLE: &[&[&str]] = &[&[
    "SUCCESS | MNG.CREATE 1 1 | MNG.VPFLUSHDONE 1 | PHYMEM.CACHE.WB",
    "0*11 1*3 2 | OPERAND_BUSY K | MNG.CREATE 2 2 || OPERAND_BUSY K | PHYMEM.CACHE.WB",
]];

const AT_A_RECLAIM: &[&[&str]] = &[
    // A page is the host's with the act, and can be read once it is released.
    &[
        KEYS,
        "SUCCESS | MNG.ADDCX 1 2",
        ENDED,
        "SUCCESS | PHYMEM.PAGE.RECLAIM 1 2",
        "0*28 1*2 2 | OPERAND_BUSY P 2 | HOST.READ 2 0 \
        || OPERAND_BUSY P 1 | PHYMEM.PAGE.RECLAIM 1 1",
        "0*29 1*2 2 | OPERAND_BUSY P 2 | HOST.WRITE 2 0 9 \
        || OPERAND_BUSY P 1 | PHYMEM.PAGE.RECLAIM 1 1",
        "0*30 1*6 2 | SUCCESS | HOST.WRITE 2 0 9 ; SUCCESS 9 | HOST.READ 2 0 \
        || OPERAND_BUSY P 1 | PHYMEM.PAGE.RECLAIM 1 1",
        "0*31 2*3 | PAGE_METADATA_INCORRECT 1 | MNG.RD 1 LIFE \
        || SUCCESS | PHYMEM.PAGE.RECLAIM 1 1",
    ],
    // A plain read of the host's holds a page as well.
    &[
        KEYS,
        "SUCCESS | MNG.ADDCX 1 2",
        ENDED,
        "OPERAND_BUSY P 2 | PHYMEM.PAGE.RECLAIM 1 2",
        "PAGES_EXIST 1 | PHYMEM.PAGE.RECLAIM 1 1",
        "0*26 1 0*3 | SUCCESS 0 | HOST.READ 2 0",
    ],
];

const PAIRS: &[&[&str]] = &[
    // MNG.ADDCX has page 2 alone until its last event but one, and the TDR until its last.
    &[
        KEYS,
        "SUCCESS | MNG.ADDCX 1 2",
        "0*10 1*2 | OPERAND_BUSY P 2 | HOST.READ 2 0",
        "0*10 1*2 | OPERAND_BUSY P 1 | MNG.RD 1 LIFE",
        "0*11 1*2 | OPERAND_BUSY P 2 | HOST.WRITE 2 0 9",
        "0*11 1*2 | OPERAND_BUSY P 1 | HOST.READ 1 0",
        "0*12 1*3 | NOT_HOST | HOST.WRITE 2 0 9",
        "0*12 1*2 | OPERAND_BUSY P 1 | MNG.RD 1 LIFE",
        "0*13 1*3 | SUCCESS PT_TDCX 1 0 | PHYMEM.PAGE.RDMD 2",
        "0*13 1*3 | SUCCESS TD_KEYS_CONFIGURED | MNG.RD 1 LIFE",
    ],
    // MNG.RD shares the op state, and MR.FINALIZE wants it alone.
    &[
        BUILT,
        "SUCCESS 1 | MNG.RD 1 EPOCH",
        "0*25 1*3 | OPERAND_BUSY O | MR.FINALIZE 1",
    ],
    // The op state is judged only once it is locked.
    &[BUILT, EMPTY, "0*24 1*5 | SUCCESS | MR.FINALIZE 1"],
    // The same VCPU, held by the other processor and after it.
    &[
        BUILT,
        "SUCCESS | VP.CREATE 1 4 | VP.INIT 1 4 1",
        "0*33 1*5 | OPERAND_BUSY P 4 | VP.INIT 1 4 2",
        "0*35 1*7 | VCPU_STATE_INCORRECT READY | VP.INIT 1 4 2",
    ],
    // A write-back while the flush holds the key table is refused, and so it counts for nothing.
    &[
        "SUCCESS | MNG.CREATE 1 1 | MNG.VPFLUSHDONE 1",
        "CACHE_WB_NOT_DONE | MNG.KEY.FREEID 1",
        "0*8 1 | OPERAND_BUSY K | PHYMEM.CACHE.WB",
    ],
    &[
        "SUCCESS | MNG.CREATE 1 1 | MNG.VPFLUSHDONE 1",
        "SUCCESS | MNG.KEY.FREEID 1",
        "0*9 1*3 | SUCCESS | PHYMEM.CACHE.WB",
    ],
    // The HKID is free with the act of MNG.KEY.FREEID, and given once the key table is released.
    &[
        "SUCCESS | MNG.CREATE 1 1",
        ENDED,
        "0*13 1*5 | HKID_NOT_FREE | MNG.CREATE 2 1",
        "0*16 1*3 | OPERAND_BUSY K | MNG.CREATE 2 1",
        "0*17 1*5 | SUCCESS | MNG.CREATE 2 1",
    ],
];

#[test]
fn calls_meet_at_locks(rt: HostRuntime) -> Result<(), Fail> {
    for (hkids, table) in [
        (1, AT_THE_TDR),
        (2, AT_A_PAGE),
        (1, AT_THE_OP_STATE),
        (2, AT_THE_KEY_TABLE),
        (1, AT_A_RECLAIM),
        (1, PAIRS),
    ] {
        replay_races(&rt, rt.alloc(), hkids, table)?;
    }
    Ok(())
}

// Without a schedule each processor runs to its end, in the order of their numbers.
const IN_NUMBER_ORDER: &[&[&[&str]]] = &[
    &[
        &[BUILT, "SUCCESS | VP.CREATE 1 4"],
        &["SUCCESS | VP.INIT 1 4 0 | MR.FINALIZE 1", EMPTY],
        &[
            ENDED,
            "SUCCESS | PHYMEM.PAGE.RECLAIM 1 2 | PHYMEM.PAGE.RECLAIM 1 3",
        ],
        &["SUCCESS | PHYMEM.PAGE.RECLAIM 1 4 | PHYMEM.PAGE.RECLAIM 1 1 | MNG.CREATE 4 1"],
    ],
    // Processor 0 asks too early, and processors 1 and 2 have their own TDs.
    &[
        &["PAGE_METADATA_INCORRECT 1 | MNG.RD 1 LIFE | MNG.VPFLUSHDONE 1"],
        &[BUILT, "SUCCESS | MR.FINALIZE 1", EMPTY],
        &[
            "HKID_NOT_FREE | MNG.CREATE 5 1",
            "SUCCESS | MNG.CREATE 5 2 | MNG.KEY.CONFIG 5",
            "PAGE_METADATA_INCORRECT 3 | MNG.ADDCX 5 3",
            "SUCCESS | MNG.ADDCX 5 6",
        ],
        &[
            "SUCCESS RUNNABLE | MNG.RD 1 OP",
            "TDCX_NUM_INCORRECT 1 | MNG.RD 5 OP",
        ],
    ],
];

#[test]
fn processors_follow_one_another(rt: HostRuntime) -> Result<(), Fail> {
    for rows in IN_NUMBER_ORDER {
        replays(&rt, rt.alloc(), "replay s", "4 32 2", "", rows)?;
    }
    Ok(())
}
