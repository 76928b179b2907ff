//! From MNG.VPFLUSHDONE to the return of the last page, and what the next TD finds.

use row_replay::{BUILT, EMPTY, ENDED, replay_each};
use std::test::Fail;

const WHOLE: &[&[&str]] = &[&[
    BUILT,
    "SUCCESS | MNG.VPFLUSHDONE 1",
    "CACHE_WB_NOT_DONE | MNG.KEY.FREEID 1",
    "SUCCESS | PHYMEM.CACHE.WB | MNG.KEY.FREEID 1 | PHYMEM.PAGE.RECLAIM 1 2",
    "PAGES_EXIST 1 | PHYMEM.PAGE.RECLAIM 1 1",
    "SUCCESS | PHYMEM.PAGE.RECLAIM 1 3 | PHYMEM.PAGE.RECLAIM 1 1",
    "SUCCESS PT_NDA 0 0 | PHYMEM.PAGE.RDMD 1",
]];

const ORDERS: &[&[&str]] = &[
    // A TD that never had keys, and one that never had pages.
    &[
        "SUCCESS | MNG.CREATE 1 1",
        ENDED,
        "SUCCESS | PHYMEM.PAGE.RECLAIM 1 1 | MNG.CREATE 1 1 | MNG.KEY.CONFIG 1",
        ENDED,
        "SUCCESS | PHYMEM.PAGE.RECLAIM 1 1",
        "SUCCESS PT_NDA 0 0 | PHYMEM.PAGE.RDMD 1",
    ],
    // The TDR before its pages: it is told how many there are.
    &[
        BUILT,
        "SUCCESS | VP.CREATE 1 4 | VP.CREATE 1 5",
        ENDED,
        "PAGES_EXIST 4 | PHYMEM.PAGE.RECLAIM 1 1",
        "SUCCESS | PHYMEM.PAGE.RECLAIM 1 3",
        "PAGES_EXIST 3 | PHYMEM.PAGE.RECLAIM 1 1",
        "SUCCESS | PHYMEM.PAGE.RECLAIM 1 5 | PHYMEM.PAGE.RECLAIM 1 2",
        "PAGES_EXIST 1 | PHYMEM.PAGE.RECLAIM 1 1",
        "SUCCESS PT_TDR 1 0 | PHYMEM.PAGE.RDMD 1",
        "SUCCESS PT_TDVPR 1 0 | PHYMEM.PAGE.RDMD 4",
        "SUCCESS | PHYMEM.PAGE.RECLAIM 1 4 | PHYMEM.PAGE.RECLAIM 1 1",
    ],
    // Pages that aren't the TD's: a host page, one that came back before, another TD's.
    &[
        BUILT,
        "SUCCESS | MNG.CREATE 5 2 | MNG.KEY.CONFIG 5 | MNG.ADDCX 5 6",
        ENDED,
        "PAGE_METADATA_INCORRECT 9 | PHYMEM.PAGE.RECLAIM 1 9",
        "PAGE_METADATA_INCORRECT 5 | PHYMEM.PAGE.RECLAIM 1 5",
        "PAGE_METADATA_INCORRECT 6 | PHYMEM.PAGE.RECLAIM 1 6",
        "SUCCESS | PHYMEM.PAGE.RECLAIM 1 2",
        "PAGE_METADATA_INCORRECT 2 | PHYMEM.PAGE.RECLAIM 1 2",
        "LIFECYCLE_STATE_INCORRECT TD_KEYS_CONFIGURED | PHYMEM.PAGE.RECLAIM 5 3",
        "SUCCESS PT_TDCX 5 0 | PHYMEM.PAGE.RDMD 6",
        "PAGES_EXIST 1 | PHYMEM.PAGE.RECLAIM 1 1",
        "SUCCESS | PHYMEM.PAGE.RECLAIM 1 3 | PHYMEM.PAGE.RECLAIM 1 1",
    ],
];

#[test]
fn pages_come_back_with_the_tdr_last(rt: HostRuntime) -> Result<(), Fail> {
    replay_each(&rt, rt.alloc(), "replay s ; run s", "1 32 1", WHOLE)?;
    replay_each(&rt, rt.alloc(), "replay s", "1 32 2", ORDERS)
}

// Words of TDR, TDCS and TDVPR that weren't 0 while the pages were the TD's.
const CLEARED: &str = "SUCCESS 0 | HOST.READ 1 0 | HOST.READ 1 1 | HOST.READ 1 2 | HOST.READ 1 3 \
    | HOST.READ 1 4 | HOST.READ 1 5 | HOST.READ 2 4 | HOST.READ 2 5 | HOST.READ 2 15 \
    | HOST.READ 2 40 | HOST.READ 2 41 | HOST.READ 2 64 | HOST.READ 2 69 | HOST.READ 3 0 \
    | HOST.READ 4 0 | HOST.READ 4 1 | HOST.READ 4 8 | HOST.READ 5 0 | HOST.READ 5 1 \
    | HOST.READ 5 8";

const CLEAN: &[&[&str]] = &[
    &[
        BUILT,
        "SUCCESS | VP.CREATE 1 4 | VP.CREATE 1 5 | VP.INIT 1 4 7 | VP.INIT 1 5 8 | MR.FINALIZE 1",
        CLEARED,
        ENDED,
        CLEARED,
        "SUCCESS | PHYMEM.PAGE.RECLAIM 1 5 | PHYMEM.PAGE.RECLAIM 1 4 | PHYMEM.PAGE.RECLAIM 1 3 \
            | PHYMEM.PAGE.RECLAIM 1 2 | PHYMEM.PAGE.RECLAIM 1 1",
        "SUCCESS PT_NDA 0 0 | PHYMEM.PAGE.RDMD 1 | PHYMEM.PAGE.RDMD 2 | PHYMEM.PAGE.RDMD 3 \
            | PHYMEM.PAGE.RDMD 4 | PHYMEM.PAGE.RDMD 5",
        CLEARED,
        "SUCCESS | HOST.WRITE 2 4 9 | HOST.WRITE 4 8 9",
        "SUCCESS 9 | HOST.READ 2 4 | HOST.READ 4 8",
    ],
    // They can be any page of the next TD.
    &[
        BUILT,
        "SUCCESS | VP.CREATE 1 4 | VP.INIT 1 4 7",
        ENDED,
        "SUCCESS | PHYMEM.PAGE.RECLAIM 1 4 | PHYMEM.PAGE.RECLAIM 1 2 | MNG.CREATE 4 1 \
            | MNG.KEY.CONFIG 4 | MNG.ADDCX 4 2",
        "SUCCESS PT_TDR 4 0 | PHYMEM.PAGE.RDMD 4",
        "SUCCESS PT_TDCX 4 0 | PHYMEM.PAGE.RDMD 2",
        "SUCCESS PT_TDCX 1 0 | PHYMEM.PAGE.RDMD 3",
        "PAGE_METADATA_INCORRECT 2 | PHYMEM.PAGE.RECLAIM 1 2",
        "PAGE_METADATA_INCORRECT 3 | MNG.ADDCX 4 3",
        "SUCCESS | PHYMEM.PAGE.RECLAIM 1 3 | PHYMEM.PAGE.RECLAIM 1 1 | MNG.ADDCX 4 1 | MNG.INIT 4",
        "SUCCESS INITIALIZED | MNG.RD 4 OP",
    ],
];

#[test]
fn pages_come_back_cleared(rt: HostRuntime) -> Result<(), Fail> {
    replay_each(&rt, rt.alloc(), "replay s", "1 32 1", CLEAN)
}

// Another TD with HKID 1, and with HKID 2.
const NEXT: &str =
    "SUCCESS | MNG.CREATE 5 1 | MNG.KEY.CONFIG 5 | MNG.ADDCX 5 6 | MNG.ADDCX 5 7 | MNG.INIT 5";

const SECOND: &str =
    "SUCCESS | MNG.CREATE 5 2 | MNG.KEY.CONFIG 5 | MNG.ADDCX 5 6 | MNG.ADDCX 5 7 | MNG.INIT 5";

const EMPTY_NEXT: &str = "SUCCESS 38b060a751ac96384cd9327eb1b1e36a21fdb71114be07434c0cc7bf63f6e1da\
    274edebfe76f65fbd51ad2f14898b95b | MNG.RD 5 MRTD";

const HKIDS: &[&[&str]] = &[
    // A TD that was INITIALIZED to its end: its HKID goes to one whose measurement starts empty.
    &[
        BUILT,
        ENDED,
        NEXT,
        "SUCCESS INITIALIZED | MNG.RD 5 OP",
        "SUCCESS | MR.FINALIZE 5",
        EMPTY_NEXT,
        "SUCCESS TD_TEARDOWN | MNG.RD 1 LIFE",
        "SUCCESS | PHYMEM.PAGE.RECLAIM 1 2 | PHYMEM.PAGE.RECLAIM 1 3 | PHYMEM.PAGE.RECLAIM 1 1",
        EMPTY_NEXT,
    ],
    // The same in the same pages, twice.
    &[
        BUILT,
        ENDED,
        "SUCCESS | PHYMEM.PAGE.RECLAIM 1 2 | PHYMEM.PAGE.RECLAIM 1 3 | PHYMEM.PAGE.RECLAIM 1 1",
        BUILT,
        "SUCCESS | VP.CREATE 1 4",
        ENDED,
        "SUCCESS | PHYMEM.PAGE.RECLAIM 1 4 | PHYMEM.PAGE.RECLAIM 1 3 | PHYMEM.PAGE.RECLAIM 1 2 \
            | PHYMEM.PAGE.RECLAIM 1 1",
        BUILT,
        "SUCCESS | MR.FINALIZE 1",
        EMPTY,
    ],
    // An HKID isn't free before MNG.KEY.FREEID, and a write-back before the flush doesn't count.
    &[
        BUILT,
        "HKID_NOT_FREE | MNG.CREATE 5 1",
        "SUCCESS | PHYMEM.CACHE.WB | MNG.VPFLUSHDONE 1",
        "HKID_NOT_FREE | MNG.CREATE 5 1",
        "CACHE_WB_NOT_DONE | MNG.KEY.FREEID 1 | MNG.KEY.FREEID 1",
        "SUCCESS | PHYMEM.CACHE.WB | PHYMEM.CACHE.WB",
        "HKID_NOT_FREE | MNG.CREATE 5 1",
        "SUCCESS PT_NDA 0 0 | PHYMEM.PAGE.RDMD 5",
        "SUCCESS | MNG.KEY.FREEID 1 | MNG.CREATE 5 1",
        "HKID_NOT_FREE | MNG.CREATE 8 1",
    ],
    // The next TD with that HKID needs a write-back of its own.
    &[
        "SUCCESS | MNG.CREATE 1 1",
        ENDED,
        "SUCCESS | MNG.CREATE 5 1 | MNG.VPFLUSHDONE 5",
        "CACHE_WB_NOT_DONE | MNG.KEY.FREEID 5",
        "SUCCESS | PHYMEM.CACHE.WB | MNG.KEY.FREEID 5",
    ],
    // A write-back marks all HKIDs that are flushed, and none that is flushed later.
    &[
        "SUCCESS | MNG.CREATE 1 1 | MNG.CREATE 2 2 | MNG.CREATE 3 3",
        "SUCCESS | MNG.VPFLUSHDONE 1 | MNG.VPFLUSHDONE 3 | PHYMEM.CACHE.WB | MNG.VPFLUSHDONE 2",
        "SUCCESS | MNG.KEY.FREEID 3",
        "CACHE_WB_NOT_DONE | MNG.KEY.FREEID 2",
        "SUCCESS | MNG.KEY.FREEID 1 | PHYMEM.CACHE.WB | MNG.KEY.FREEID 2 | MNG.CREATE 4 3",
    ],
    // Two TDs side by side: neither's calls touch the other.
    &[
        BUILT,
        SECOND,
        "SUCCESS | VP.CREATE 5 8 | MR.FINALIZE 1",
        EMPTY,
        "OP_STATE_INCORRECT INITIALIZED | MNG.RD 5 MRTD",
        "VCPU_STATE_INCORRECT CREATED | MR.FINALIZE 5",
        ENDED,
        "LIFECYCLE_STATE_INCORRECT TD_KEYS_CONFIGURED | MNG.KEY.FREEID 5 | PHYMEM.PAGE.RECLAIM 5 6",
        "HKID_NOT_FREE | MNG.CREATE 9 2",
        "SUCCESS | MNG.CREATE 9 1 | VP.INIT 5 8 0 | MR.FINALIZE 5 | PHYMEM.PAGE.RECLAIM 1 2",
        EMPTY_NEXT,
        "SUCCESS RUNNABLE | MNG.RD 5 OP",
        "SUCCESS TD_TEARDOWN | MNG.RD 1 LIFE",
        "SUCCESS TD_KEYS_CONFIGURED | MNG.RD 5 LIFE",
        "SUCCESS TD_HKID_ASSIGNED | MNG.RD 9 LIFE",
        "SUCCESS | MNG.VPFLUSHDONE 5",
        "CACHE_WB_NOT_DONE | MNG.KEY.FREEID 5",
        "SUCCESS | MNG.KEY.CONFIG 9 | PHYMEM.CACHE.WB | MNG.KEY.FREEID 5 | PHYMEM.PAGE.RECLAIM 5 6 \
            | PHYMEM.PAGE.RECLAIM 5 7 | PHYMEM.PAGE.RECLAIM 5 8 | PHYMEM.PAGE.RECLAIM 5 5",
        "PAGES_EXIST 1 | PHYMEM.PAGE.RECLAIM 1 1",
        "SUCCESS TD_KEYS_CONFIGURED | MNG.RD 9 LIFE",
    ],
];

#[test]
fn hkids_go_from_td_to_td(rt: HostRuntime) -> Result<(), Fail> {
    replay_each(&rt, rt.alloc(), "replay s", "1 32 3", HKIDS)
}
