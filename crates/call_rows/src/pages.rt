//! Private pages of a TD: which are added, what is measured of them, and what is left at the end.

use row_replay::{BUILT, EMPTY, ENDED, INITIALIZED, TREE, replay_each};
use std::test::Fail;

const PLACES: &[&[&str]] = &[
    // A page is the TD's with its source's words, and the source is the host's as before.
    &[
        TREE,
        "SUCCESS | HOST.WRITE 0 0 1 | HOST.WRITE 8 0 2",
        "EPT_ENTRY_STATE_INCORRECT FREE | MR.EXTEND 1 0 | MR.EXTEND 1 0x1fff00",
        "SUCCESS | MEM.PAGE.ADD 1 0 8 0 | MR.EXTEND 1 0 | MR.EXTEND 1 0xf00",
        "SUCCESS MAPPED 8 | MEM.SEPT.RD 1 0 0",
        "SUCCESS PT_REG 1 0 | PHYMEM.PAGE.RDMD 8",
        "SUCCESS 0 | HOST.READ 8 0",
        "NOT_HOST | HOST.WRITE 8 0 3",
        "SUCCESS PT_NDA 0 0 | PHYMEM.PAGE.RDMD 0",
        "SUCCESS 1 | HOST.READ 0 0",
        "SUCCESS | HOST.WRITE 0 0 4 | MEM.PAGE.ADD 1 4096 9 0",
        "SUCCESS MAPPED 9 | MEM.SEPT.RD 1 4096 0",
        "EPT_ENTRY_STATE_INCORRECT FREE | MR.EXTEND 1 0x2000",
    ],
    // The same page twice, and two pages in one place. The entry is judged first, then the source,
    // and the page last.
    &[
        TREE,
        "SUCCESS | MEM.PAGE.ADD 1 0 8 0",
        "EPT_ENTRY_STATE_INCORRECT MAPPED | MEM.PAGE.ADD 1 0 8 0 | MEM.PAGE.ADD 1 0 9 0 \
            | MEM.PAGE.ADD 1 0 2 3",
        "PAGE_METADATA_INCORRECT 8 | MEM.PAGE.ADD 1 4096 8 0 | MEM.PAGE.ADD 1 4096 9 8 \
            | MEM.SEPT.ADD 1 0x200000 1 8 | MNG.CREATE 8 2 | VP.CREATE 1 8",
        "PAGE_METADATA_INCORRECT 2 | MEM.PAGE.ADD 1 4096 2 0 | MEM.PAGE.ADD 1 4096 9 2 \
            | MEM.PAGE.ADD 1 4096 8 2",
        "PAGE_METADATA_INCORRECT 4 | MEM.PAGE.ADD 1 4096 4 0 | MEM.PAGE.ADD 1 4096 9 4",
        "PAGE_METADATA_INCORRECT 7 | MEM.PAGE.ADD 1 4096 7 0 | MEM.PAGE.ADD 1 4096 9 7",
        "SUCCESS FREE | MEM.SEPT.RD 1 4096 0",
        "SUCCESS PT_NDA 0 0 | PHYMEM.PAGE.RDMD 9",
        "SUCCESS | MR.FINALIZE 1",
        // What was refused wasn't measured either.
        ADDED,
    ],
];

#[test]
fn pages_are_added_once(rt: HostRuntime) -> Result<(), Fail> {
    replay_each(&rt, rt.alloc(), "replay s", "1 32 2", PLACES)
}

const AUGMENTED: &[&[&str]] = &[
    // A page waits for its guest. It is the TD's at once, and it isn't measured.
    &[
        TREE,
        "SUCCESS | HOST.WRITE 8 0 2 | MEM.PAGE.ADD 1 0 9 0",
        "OP_STATE_INCORRECT INITIALIZED | MEM.PAGE.AUG 1 4096 8 | MEM.PAGE.AUG 1 0 2",
        "SUCCESS | MR.FINALIZE 1 | MEM.PAGE.AUG 1 4096 8",
        "SUCCESS PENDING 8 | MEM.SEPT.RD 1 4096 0",
        "SUCCESS PT_REG 1 0 | PHYMEM.PAGE.RDMD 8",
        "SUCCESS 0 | HOST.READ 8 0",
        "NOT_HOST | HOST.WRITE 8 0 3",
        ADDED,
        // The entry is judged first, and the page last.
        "EPT_ENTRY_STATE_INCORRECT PENDING | MEM.PAGE.AUG 1 4096 10 | MEM.PAGE.AUG 1 4096 8 \
            | MEM.PAGE.AUG 1 4096 2",
        "EPT_ENTRY_STATE_INCORRECT MAPPED | MEM.PAGE.AUG 1 0 10 | MEM.PAGE.AUG 1 0 9",
        "EPT_WALK_FAILED 1 | MEM.PAGE.AUG 1 0x200000 10 | MEM.PAGE.AUG 1 0x200000 8",
        "PAGE_METADATA_INCORRECT 8 | MEM.PAGE.AUG 1 0x2000 8 | MEM.SEPT.ADD 1 0x200000 1 8 \
            | MNG.CREATE 8 2 | MNG.RD 8 OP",
        "PAGE_METADATA_INCORRECT 9 | MEM.PAGE.AUG 1 0x2000 9",
        "PAGE_METADATA_INCORRECT 4 | MEM.PAGE.AUG 1 0x2000 4",
        "PAGE_METADATA_INCORRECT 7 | MEM.PAGE.AUG 1 0x2000 7",
        "OP_STATE_INCORRECT RUNNABLE | MEM.PAGE.ADD 1 0x2000 10 0 | MR.EXTEND 1 4096",
        "SUCCESS FREE | MEM.SEPT.RD 1 0x2000 0",
        "SUCCESS PT_NDA 0 0 | PHYMEM.PAGE.RDMD 10",
        // The tree grows first where the page is to stand.
        "SUCCESS | MEM.SEPT.ADD 1 0x200000 1 10 | MEM.PAGE.AUG 1 0x3ff000 11",
        "SUCCESS PENDING 11 | MEM.SEPT.RD 1 0x3ff000 0",
        "SUCCESS FREE | MEM.SEPT.RD 1 0x200000 0",
        // Such a page comes back as each other one does.
        ENDED,
        "PAGES_EXIST 10 | PHYMEM.PAGE.RECLAIM 1 1",
        "SUCCESS | PHYMEM.PAGE.RECLAIM 1 8",
        "PAGES_EXIST 9 | PHYMEM.PAGE.RECLAIM 1 1",
        "SUCCESS PT_NDA 0 0 | PHYMEM.PAGE.RDMD 8",
        "SUCCESS 0 | HOST.READ 8 0",
        "SUCCESS PT_REG 1 0 | PHYMEM.PAGE.RDMD 11",
    ],
    // Between other entries, and of one TD alone.
    &[
        BUILT,
        INITIALIZED,
        "SUCCESS | MEM.SEPT.ADD 1 0x8000000000 3 5 | MEM.SEPT.ADD 1 0x8080000000 2 6 \
            | MEM.SEPT.ADD 1 0x8080600000 1 7 | MR.FINALIZE 1 | MEM.PAGE.AUG 1 0x8080604000 8",
        "SUCCESS PENDING 8 | MEM.SEPT.RD 1 0x8080604000 0",
        "SUCCESS FREE | MEM.SEPT.RD 1 0x8080603000 0 | MEM.SEPT.RD 1 0x8080605000 0",
        EMPTY,
        "PAGE_METADATA_INCORRECT 8 | MEM.SEPT.ADD 20 0 3 8",
        "SUCCESS | MEM.SEPT.ADD 20 0 3 9 | MR.FINALIZE 20",
        "PAGE_METADATA_INCORRECT 9 | MEM.PAGE.AUG 1 0x8080605000 9",
        "EPT_WALK_FAILED 2 | MEM.PAGE.AUG 20 0 10",
        "SUCCESS | MEM.PAGE.AUG 1 0x8080605000 10",
        "SUCCESS PT_REG 1 0 | PHYMEM.PAGE.RDMD 10",
    ],
];

#[test]
fn pages_wait_for_their_guest(rt: HostRuntime) -> Result<(), Fail> {
    replay_each(&rt, rt.alloc(), "replay s", "1 32 2", AUGMENTED)
}

const CHUNKS: &str = "SUCCESS | MR.EXTEND 1 0 | MR.EXTEND 1 256 | MR.EXTEND 1 512 \
    | MR.EXTEND 1 768 | MR.EXTEND 1 1024 | MR.EXTEND 1 1280 | MR.EXTEND 1 1536 | MR.EXTEND 1 1792 \
    | MR.EXTEND 1 2048 | MR.EXTEND 1 2304 | MR.EXTEND 1 2560 | MR.EXTEND 1 2816 | MR.EXTEND 1 3072 \
    | MR.EXTEND 1 3328 | MR.EXTEND 1 3584 | MR.EXTEND 1 3840 | MR.FINALIZE 1";

// Words at both ends of chunks, whose bytes all differ.
const WORDS: &str = "SUCCESS | HOST.WRITE 0 0 0x0102030405060708 \
    | HOST.WRITE 0 31 0x1112131415161718 | HOST.WRITE 0 32 0x2122232425262728 \
    | HOST.WRITE 0 170 0x3132333435363738 | HOST.WRITE 0 300 0x4142434445464748 \
    | HOST.WRITE 0 511 0x5152535455565758";

// The SHA-384 of the one record that page 0's GPA makes.
const ADDED: &str = "SUCCESS 8f3e9a8aca6784eab874f7aa4dda5d49104a88047f1f86695ef2a88f5691a90e34aac4\
    8ce45ffa1f5a23c7d62980d570 | MNG.RD 1 MRTD";

// One page and its sixteen chunks: 49 records.
const WHOLE: &[&[&str]] = &[&[
    TREE,
    "SUCCESS | HOST.WRITE 0 0 1 | MEM.PAGE.ADD 1 0 8 0",
    CHUNKS,
    "SUCCESS 0e00f6b7c3282838ff96f698adf84e2842b99c5832e39082e2a844a7fc565f2ce652ee28496af2357d\
            09122040013a71 | MNG.RD 1 MRTD",
]];

const MEASURED: &[&[&str]] = &[
    // A page of zeros.
    &[
        TREE,
        "SUCCESS | MEM.PAGE.ADD 1 0 8 0",
        CHUNKS,
        "SUCCESS 236f0efa607ff8843f1855d7ef80dc3dda8fb455787a186b8787212951eab0096e3193bb26f817c2b6\
            3c21f5e10f9938 | MNG.RD 1 MRTD",
    ],
    // The words are those of the moment at which the page was added.
    &[
        WORDS,
        TREE,
        "SUCCESS | MEM.PAGE.ADD 1 0 8 0 | HOST.WRITE 0 0 9 | HOST.WRITE 0 511 9",
        CHUNKS,
        "SUCCESS 0d465dcd52564cc3988b34aee9b3bcd3390ee243a6cb734d397c48cb169ac3066287e8ee985d0eac8a\
            a2ecb730cc5a29 | MNG.RD 1 MRTD",
    ],
    // Without a chunk only the place of a page is measured, whatever its words are.
    &[
        TREE,
        "SUCCESS | MEM.PAGE.ADD 1 0 8 0 | MR.FINALIZE 1",
        ADDED,
    ],
    &[
        WORDS,
        TREE,
        "SUCCESS | MEM.PAGE.ADD 1 0 9 0 | MR.FINALIZE 1",
        ADDED,
    ],
    // A chunk in each quarter of a page, in two orders, and one of them twice.
    &[
        WORDS,
        TREE,
        "SUCCESS | MEM.PAGE.ADD 1 0 8 0 | MR.EXTEND 1 0x100 | MR.EXTEND 1 0x500 \
            | MR.EXTEND 1 0x900 | MR.EXTEND 1 0xf00 | MR.FINALIZE 1",
        "SUCCESS 4c08ef9a336cf35ce93fb7a0ccad34f9496fe234bb0072c7065cd781a2bbebbe4196a2a098a410bae3\
            b8a08f58ff1e96 | MNG.RD 1 MRTD",
    ],
    &[
        WORDS,
        TREE,
        "SUCCESS | MEM.PAGE.ADD 1 0 8 0 | MR.EXTEND 1 0xf00 | MR.EXTEND 1 0x900 \
            | MR.EXTEND 1 0x500 | MR.EXTEND 1 0x100 | MR.EXTEND 1 0x100 | MR.FINALIZE 1",
        "SUCCESS 9c90b296a157c9bf29bab2b42141c65905c34cec29cf54dc223dfeb132a21d44b5dc8c7924cd70d42f\
            ceec2ba7038d89 | MNG.RD 1 MRTD",
    ],
    // A GPA of many bytes: a chunk is measured with its own, and not with that of its page.
    &[
        WORDS,
        BUILT,
        "SUCCESS | MEM.SEPT.ADD 1 0x8000000000 3 5 | MEM.SEPT.ADD 1 0x8080000000 2 6 \
            | MEM.SEPT.ADD 1 0x8080600000 1 7 | MEM.PAGE.ADD 1 0x8080604000 8 0 \
            | MR.EXTEND 1 0x8080604f00 | MR.FINALIZE 1",
        "SUCCESS 22089f0944edee7da722c52912019a0ff495f7955c18dd5fb14ca7f58fa1ef7c6f8667f68fa93d476c\
            0f657cfc645d48 | MNG.RD 1 MRTD",
    ],
    // Two TDs that are measured by turns.
    &[
        WORDS,
        TREE,
        INITIALIZED,
        "SUCCESS | MEM.SEPT.ADD 20 0 3 9 | MEM.SEPT.ADD 20 0 2 10 | MEM.SEPT.ADD 20 0 1 11 \
            | MEM.PAGE.ADD 1 4096 12 0 | MEM.PAGE.ADD 20 0 13 0 | MR.EXTEND 1 0x1000 \
            | MR.EXTEND 20 0x100 | MEM.PAGE.ADD 1 0 14 0 | MR.FINALIZE 20 | MR.EXTEND 1 0xf00 \
            | MR.FINALIZE 1",
        "SUCCESS 3ac468ea02add27f2d1e3726dd6118fbbac2d2304bdbae68a38610e2430b7326e22fb54bb587d49c24\
            bbf8e57bb34763 | MNG.RD 1 MRTD",
        "SUCCESS b68cb221d0eed2c1078a8a96af943ec1df0465a1be86661798dc71935fa690f8af621a19389a632308\
            e3e1abef6a7549 | MNG.RD 20 MRTD",
    ],
    // A TD that ends before it is finalized leaves nothing to the next one with its HKID.
    &[
        WORDS,
        TREE,
        "SUCCESS | MEM.PAGE.ADD 1 4096 8 0 | MR.EXTEND 1 4096",
        ENDED,
        "SUCCESS | PHYMEM.PAGE.RECLAIM 1 8 | PHYMEM.PAGE.RECLAIM 1 7 | PHYMEM.PAGE.RECLAIM 1 6 \
            | PHYMEM.PAGE.RECLAIM 1 5 | PHYMEM.PAGE.RECLAIM 1 4 | PHYMEM.PAGE.RECLAIM 1 3 \
            | PHYMEM.PAGE.RECLAIM 1 2 | PHYMEM.PAGE.RECLAIM 1 1",
        TREE,
        "SUCCESS | MEM.PAGE.ADD 1 0 8 0 | MR.FINALIZE 1",
        ADDED,
    ],
];

#[test]
fn measurements_are_sha384_of_records(rt: HostRuntime) -> Result<(), Fail> {
    replay_each(&rt, rt.alloc(), "replay s ; run s", "1 32 1", WHOLE)?;
    replay_each(&rt, rt.alloc(), "replay s", "1 32 2", MEASURED)
}

// Words of the pages of a tree, and of private pages, that weren't 0 while the pages were the TD's.
const CLEARED: &str = "SUCCESS 0 | HOST.READ 3 0 | HOST.READ 5 0 | HOST.READ 6 0 | HOST.READ 7 0 \
    | HOST.READ 7 1 | HOST.READ 8 0 | HOST.READ 8 511 | HOST.READ 9 31 | HOST.READ 9 170";

const ENDS: &[&[&str]] = &[
    // From the root of the tree down, and then from its pages up.
    &[
        WORDS,
        TREE,
        "SUCCESS | MEM.PAGE.ADD 1 0 8 0 | MEM.PAGE.ADD 1 4096 9 0",
        CLEARED,
        ENDED,
        "PAGES_EXIST 8 | PHYMEM.PAGE.RECLAIM 1 1",
        "SUCCESS | PHYMEM.PAGE.RECLAIM 1 3 | PHYMEM.PAGE.RECLAIM 1 2 | PHYMEM.PAGE.RECLAIM 1 5 \
            | PHYMEM.PAGE.RECLAIM 1 6 | PHYMEM.PAGE.RECLAIM 1 7",
        "PAGES_EXIST 3 | PHYMEM.PAGE.RECLAIM 1 1",
        "SUCCESS PT_REG 1 0 | PHYMEM.PAGE.RDMD 8",
        CLEARED,
        "SUCCESS | PHYMEM.PAGE.RECLAIM 1 8 | PHYMEM.PAGE.RECLAIM 1 4 | PHYMEM.PAGE.RECLAIM 1 9 \
            | PHYMEM.PAGE.RECLAIM 1 1",
        CLEARED,
        "SUCCESS PT_NDA 0 0 | PHYMEM.PAGE.RDMD 3 | PHYMEM.PAGE.RDMD 7 | PHYMEM.PAGE.RDMD 8",
        "SUCCESS 72623859790382856 | HOST.READ 0 0",
        "PAGE_METADATA_INCORRECT 1 | PHYMEM.PAGE.RECLAIM 1 8",
    ],
    &[
        WORDS,
        TREE,
        "SUCCESS | MEM.PAGE.ADD 1 0 8 0 | MEM.PAGE.ADD 1 4096 9 0 | MR.FINALIZE 1",
        ENDED,
        "SUCCESS | PHYMEM.PAGE.RECLAIM 1 9 | PHYMEM.PAGE.RECLAIM 1 8 | PHYMEM.PAGE.RECLAIM 1 7 \
            | PHYMEM.PAGE.RECLAIM 1 6 | PHYMEM.PAGE.RECLAIM 1 5 | PHYMEM.PAGE.RECLAIM 1 4 \
            | PHYMEM.PAGE.RECLAIM 1 2",
        "PAGES_EXIST 1 | PHYMEM.PAGE.RECLAIM 1 1",
        "SUCCESS | PHYMEM.PAGE.RECLAIM 1 3 | PHYMEM.PAGE.RECLAIM 1 1",
        CLEARED,
        // The next TD's tree begins empty in the same pages.
        BUILT,
        "SUCCESS FREE | MEM.SEPT.RD 1 0 3",
        "SUCCESS | MEM.SEPT.ADD 1 0 3 7 | MEM.SEPT.ADD 1 0 2 8 | MEM.SEPT.ADD 1 0 1 9",
        "SUCCESS FREE | MEM.SEPT.RD 1 0 0 | MEM.SEPT.RD 1 4096 0",
        "SUCCESS | MR.FINALIZE 1",
        EMPTY,
    ],
    // The pages go to another TD while the rest waits: what was private is then a page of a tree.
    &[
        WORDS,
        TREE,
        INITIALIZED,
        "SUCCESS | MEM.PAGE.ADD 1 0 8 0 | MEM.SEPT.ADD 20 0 3 9",
        ENDED,
        "PAGE_METADATA_INCORRECT 9 | PHYMEM.PAGE.RECLAIM 1 9",
        "PAGE_METADATA_INCORRECT 8 | MEM.SEPT.ADD 20 0 2 8",
        "LIFECYCLE_STATE_INCORRECT TD_KEYS_CONFIGURED | PHYMEM.PAGE.RECLAIM 20 9",
        "SUCCESS | PHYMEM.PAGE.RECLAIM 1 8 | MEM.SEPT.ADD 20 0 2 8 | PHYMEM.PAGE.RECLAIM 1 7 \
            | MEM.SEPT.ADD 20 0 1 7",
        "SUCCESS FREE | MEM.SEPT.RD 20 0 0",
        "PAGE_METADATA_INCORRECT 7 | PHYMEM.PAGE.RECLAIM 1 7",
        "PAGES_EXIST 5 | PHYMEM.PAGE.RECLAIM 1 1",
        "SUCCESS | MEM.PAGE.ADD 20 0 10 0",
    ],
];

#[test]
fn private_pages_come_back_cleared(rt: HostRuntime) -> Result<(), Fail> {
    replay_each(&rt, rt.alloc(), "replay s", "1 32 2", ENDS)
}
