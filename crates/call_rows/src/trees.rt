//! The secure EPT of a TD: what is read of its entries, where a walk ends, and whose each page is.

use row_replay::{BUILT, EMPTY, INITIALIZED, TREE, replay_each};
use std::test::Fail;

// What is read first of a tree without pages, where a walk ends, and which page isn't added.
const FIRST: &[&[&str]] = &[
    &[TREE, "SUCCESS NL_MAPPED 5 | MEM.SEPT.RD 1 0 3"],
    &[TREE, "SUCCESS FREE | MEM.SEPT.RD 1 0 0"],
    &[TREE, "EPT_WALK_FAILED 3 | MEM.SEPT.RD 1 0x8000000000 0"],
    &[TREE, "OPERAND_INVALID 2 | MEM.SEPT.RD 1 0x800000000000 0"],
    &[
        TREE,
        "EPT_ENTRY_STATE_INCORRECT NL_MAPPED | MEM.SEPT.ADD 1 0 1 11",
    ],
    &[TREE, "OPERAND_INVALID 2 | MEM.PAGE.ADD 1 1 8 0"],
    &[TREE, "OPERAND_INVALID 4 | MEM.PAGE.ADD 1 0 8 8"],
    &[TREE, "EPT_ENTRY_STATE_INCORRECT FREE | MR.EXTEND 1 0"],
];

const ENTRIES: &[&[&str]] = &[
    // Each level has its page at GPA 0, and is free beside it. A walk fails at the first level
    // where nothing is mapped, before the page that is to be taken is looked at.
    &[
        TREE,
        "SUCCESS NL_MAPPED 6 | MEM.SEPT.RD 1 0 2",
        "SUCCESS NL_MAPPED 7 | MEM.SEPT.RD 1 0 1",
        "SUCCESS FREE | MEM.SEPT.RD 1 0x1ff000 0 | MEM.SEPT.RD 1 0x200000 1 \
            | MEM.SEPT.RD 1 0x3fe00000 1 | MEM.SEPT.RD 1 0x40000000 2 \
            | MEM.SEPT.RD 1 0x7fc0000000 2 | MEM.SEPT.RD 1 0x8000000000 3 \
            | MEM.SEPT.RD 1 0x7f8000000000 3",
        "EPT_WALK_FAILED 1 | MEM.SEPT.RD 1 0x200000 0 | MEM.SEPT.RD 1 0x3ffff000 0 \
            | MEM.PAGE.ADD 1 0x200000 8 0 | MEM.PAGE.ADD 1 0x200000 2 3 | MR.EXTEND 1 0x200100",
        "EPT_WALK_FAILED 2 | MEM.SEPT.RD 1 0x40000000 0 | MEM.SEPT.RD 1 0x40000000 1 \
            | MEM.SEPT.ADD 1 0x40000000 1 8 | MEM.SEPT.ADD 1 0x40000000 1 2 \
            | MEM.PAGE.ADD 1 0x40001000 8 0 | MR.EXTEND 1 0x40000000",
        "EPT_WALK_FAILED 3 | MEM.SEPT.RD 1 0x8000000000 1 \
            | MEM.SEPT.RD 1 0x8000000000 2 | MEM.SEPT.ADD 1 0x8000000000 1 8 \
            | MEM.SEPT.ADD 1 0x8000000000 2 8 | MEM.PAGE.ADD 1 0x8000000000 8 0 \
            | MR.EXTEND 1 0x8000000000 | MEM.SEPT.RD 1 0x7ffffffff000 0",
        // The entry is judged before the page too.
        "EPT_ENTRY_STATE_INCORRECT NL_MAPPED | MEM.SEPT.ADD 1 0 2 11 \
            | MEM.SEPT.ADD 1 0 3 11 | MEM.SEPT.ADD 1 0 1 7 | MEM.SEPT.ADD 1 0 3 2",
        "PAGE_METADATA_INCORRECT 2 | MEM.SEPT.ADD 1 0x200000 1 2",
        "PAGE_METADATA_INCORRECT 4 | MEM.SEPT.ADD 1 0x40000000 2 4",
        "PAGE_METADATA_INCORRECT 7 | MEM.SEPT.ADD 1 0x200000 1 7 | MEM.SEPT.ADD 1 0x8000000000 3 7",
        "SUCCESS FREE | MEM.SEPT.RD 1 0x200000 1 | MEM.SEPT.RD 1 0x8000000000 3",
        "SUCCESS PT_NDA 0 0 | PHYMEM.PAGE.RDMD 8 | PHYMEM.PAGE.RDMD 11",
        "SUCCESS PT_EPT 1 0 | PHYMEM.PAGE.RDMD 5 | PHYMEM.PAGE.RDMD 6 | PHYMEM.PAGE.RDMD 7",
        "SUCCESS 0 | HOST.READ 3 0 | HOST.READ 5 0 | HOST.READ 6 0",
        "NOT_HOST | HOST.WRITE 3 0 9 | HOST.WRITE 7 0 9",
        // No part of a tree is measured, and it may grow once the TD is finalized.
        "SUCCESS | MR.FINALIZE 1 | MEM.SEPT.ADD 1 0x200000 1 8",
        "SUCCESS NL_MAPPED 8 | MEM.SEPT.RD 1 0x200000 1",
        "SUCCESS FREE | MEM.SEPT.RD 1 0x200000 0",
        EMPTY,
    ],
    // A tree grows from its root: there is no branch below an entry that is free.
    &[
        BUILT,
        "SUCCESS FREE | MEM.SEPT.RD 1 0 3",
        "EPT_WALK_FAILED 3 | MEM.SEPT.RD 1 0 0 | MEM.SEPT.RD 1 0 1 | MEM.SEPT.RD 1 0 2 \
            | MEM.SEPT.ADD 1 0 2 5 | MEM.SEPT.ADD 1 0 1 5 | MEM.PAGE.ADD 1 0 8 0 | MR.EXTEND 1 0",
        "SUCCESS PT_NDA 0 0 | PHYMEM.PAGE.RDMD 5",
        "SUCCESS | MEM.SEPT.ADD 1 0 3 5",
        "SUCCESS FREE | MEM.SEPT.RD 1 0 2",
        "EPT_WALK_FAILED 2 | MEM.SEPT.RD 1 0 0 | MEM.SEPT.RD 1 0 1 | MEM.SEPT.ADD 1 0 1 6 \
            | MEM.PAGE.ADD 1 0 8 0 | MR.EXTEND 1 0",
        "SUCCESS | MEM.SEPT.ADD 1 0 2 6",
        "SUCCESS FREE | MEM.SEPT.RD 1 0 1",
        "EPT_WALK_FAILED 1 | MEM.SEPT.RD 1 0 0 | MEM.PAGE.ADD 1 0 8 0 | MR.EXTEND 1 0",
    ],
    // Each level has nine bits of its own: here entry 1 of the root, then 2, 3 and 4.
    &[
        BUILT,
        "SUCCESS | MEM.SEPT.ADD 1 0x8000000000 3 5 | MEM.SEPT.ADD 1 0x8080000000 2 6 \
            | MEM.SEPT.ADD 1 0x8080600000 1 7 | MEM.PAGE.ADD 1 0x8080604000 8 0",
        "SUCCESS NL_MAPPED 5 | MEM.SEPT.RD 1 0x8000000000 3",
        "SUCCESS NL_MAPPED 6 | MEM.SEPT.RD 1 0x8080000000 2",
        "SUCCESS NL_MAPPED 7 | MEM.SEPT.RD 1 0x8080600000 1",
        "SUCCESS MAPPED 8 | MEM.SEPT.RD 1 0x8080604000 0",
        "SUCCESS FREE | MEM.SEPT.RD 1 0 3 | MEM.SEPT.RD 1 0x8000000000 2 \
            | MEM.SEPT.RD 1 0x8040000000 2 | MEM.SEPT.RD 1 0x8080000000 1 \
            | MEM.SEPT.RD 1 0x8080400000 1 | MEM.SEPT.RD 1 0x8080603000 0 \
            | MEM.SEPT.RD 1 0x8080605000 0",
        "EPT_WALK_FAILED 3 | MEM.SEPT.RD 1 0x604000 0 | MEM.SEPT.RD 1 0x10080604000 0",
        "EPT_WALK_FAILED 2 | MEM.SEPT.RD 1 0x8000604000 0",
        "EPT_WALK_FAILED 1 | MEM.SEPT.RD 1 0x8080404000 0",
    ],
    // The last GPA that is private.
    &[
        BUILT,
        "SUCCESS | MEM.SEPT.ADD 1 0x7f8000000000 3 5 | MEM.SEPT.ADD 1 0x7fffc0000000 2 6 \
            | MEM.SEPT.ADD 1 0x7fffffe00000 1 7 | MEM.PAGE.ADD 1 0x7ffffffff000 8 0 \
            | MR.EXTEND 1 0x7fffffffff00",
        "SUCCESS MAPPED 8 | MEM.SEPT.RD 1 0x7ffffffff000 0",
        "SUCCESS FREE | MEM.SEPT.RD 1 0x7fffffffe000 0 | MEM.SEPT.RD 1 0x7fffffc00000 1 \
            | MEM.SEPT.RD 1 0x7fff80000000 2 | MEM.SEPT.RD 1 0x7f0000000000 3 | MEM.SEPT.RD 1 0 3",
        "OPERAND_INVALID 2 | MEM.SEPT.RD 1 0x800000000000 0 | MEM.SEPT.ADD 1 0x800000000000 3 9 \
            | MEM.PAGE.ADD 1 0x800000000000 9 0 | MR.EXTEND 1 0x800000000000",
    ],
    // What the host wrote to a page is no entry once the page is taken: 101 would be NL_MAPPED and
    // name page 6, and 129 MAPPED and name page 8.
    &[
        "SUCCESS | HOST.WRITE 3 0 85 | HOST.WRITE 5 0 101 | HOST.WRITE 6 0 117 \
            | HOST.WRITE 7 0 129",
        BUILT,
        "SUCCESS FREE | MEM.SEPT.RD 1 0 3",
        "SUCCESS | MEM.SEPT.ADD 1 0 3 5",
        "SUCCESS FREE | MEM.SEPT.RD 1 0 2",
        "SUCCESS | MEM.SEPT.ADD 1 0 2 6",
        "SUCCESS FREE | MEM.SEPT.RD 1 0 1",
        "SUCCESS | MEM.SEPT.ADD 1 0 1 7",
        "SUCCESS FREE | MEM.SEPT.RD 1 0 0",
    ],
    // Two TDs whose trees grow side by side, in pages by turns, at the same GPAs.
    &[
        BUILT,
        INITIALIZED,
        "SUCCESS | MEM.SEPT.ADD 1 0 3 5 | MEM.SEPT.ADD 20 0 3 6 | MEM.SEPT.ADD 20 0 2 7 \
            | MEM.SEPT.ADD 1 0 2 8",
        "EPT_WALK_FAILED 1 | MEM.SEPT.RD 1 0 0 | MEM.SEPT.RD 20 0 0",
        "SUCCESS | MEM.SEPT.ADD 1 0 1 9",
        "SUCCESS FREE | MEM.SEPT.RD 1 0 0 | MEM.SEPT.RD 20 0 1",
        "PAGE_METADATA_INCORRECT 9 | MEM.SEPT.ADD 20 0 1 9",
        "SUCCESS | MEM.SEPT.ADD 20 0 1 10 | MEM.PAGE.ADD 20 4096 11 0 | MEM.PAGE.ADD 1 0 12 0",
        "PAGE_METADATA_INCORRECT 11 | MEM.PAGE.ADD 1 4096 11 0 | MEM.PAGE.ADD 1 4096 13 11",
        "PAGE_METADATA_INCORRECT 12 | MEM.PAGE.ADD 20 0 12 0 | MEM.SEPT.ADD 20 0x200000 1 12",
        "SUCCESS NL_MAPPED 5 | MEM.SEPT.RD 1 0 3",
        "SUCCESS NL_MAPPED 8 | MEM.SEPT.RD 1 0 2",
        "SUCCESS NL_MAPPED 9 | MEM.SEPT.RD 1 0 1",
        "SUCCESS NL_MAPPED 6 | MEM.SEPT.RD 20 0 3",
        "SUCCESS NL_MAPPED 7 | MEM.SEPT.RD 20 0 2",
        "SUCCESS NL_MAPPED 10 | MEM.SEPT.RD 20 0 1",
        "SUCCESS MAPPED 12 | MEM.SEPT.RD 1 0 0",
        "SUCCESS MAPPED 11 | MEM.SEPT.RD 20 4096 0",
        "SUCCESS FREE | MEM.SEPT.RD 1 4096 0 | MEM.SEPT.RD 20 0 0",
        "SUCCESS PT_EPT 20 0 | PHYMEM.PAGE.RDMD 7",
        "SUCCESS PT_REG 1 0 | PHYMEM.PAGE.RDMD 12",
    ],
];

#[test]
fn walks_end_at_their_entry_or_above(rt: HostRuntime) -> Result<(), Fail> {
    replay_each(&rt, rt.alloc(), "replay s", "1 32 1", FIRST)?;
    replay_each(&rt, rt.alloc(), "replay s", "1 32 2", ENTRIES)
}
