//! The container that is saved has the bundles of all processors, each in the slot that its call names.

use aes_block::Aes256;
use bundle_store::read_container;
use gcm_seal::open_in_place;
use hex::FromHex;
use row_replay::{
    ALONE, Asked, BUILT, DIRTIED, End, GUEST, HANDED, OTHER, PAGE, PAGES, RUNS, Row, SECOND, SENT,
    STREAM, TREE, Told, container_of_asked, container_of_row, replay_ends,
};
use std::alloc::Global;
use std::test::Fail;

// The first processor exports its TD as far as the start token, and the second one begins two sessions
// of another. Calls that are refused make no bundle.
const ROWS: &[Row<'static>] = &[
    (
        "",
        &["1 0 | set 1 7 | store 1 16 | rtmr 0"],
        &[
            &[
                TREE,
                SECOND,
                PAGE,
                STREAM,
                RUNS,
                "SUCCESS | EXPORT.STATE.IMMUTABLE 1 4095",
                "EXIT STOP | VP.ENTER 1 4 3",
                "OP_STATE_INCORRECT LIVE_EXPORT | EXPORT.STATE.TD 1 9",
                "SUCCESS | EXPORT.TRACK 1 2 0 | EXPORT.PAUSE 1 | EXPORT.STATE.VP 1 9 7 \
                | EXPORT.STATE.TD 1 3",
                "STATE_MISSING 1 | EXPORT.TRACK 1 10 1",
                "ALREADY_EXPORTED | EXPORT.STATE.TD 1 11",
                "SUCCESS | EXPORT.STATE.VP 1 4 256 | EXPORT.TRACK 1 1 1",
            ],
            &[
                OTHER,
                "OP_STATE_INCORRECT INITIALIZED | EXPORT.STATE.IMMUTABLE 20 0",
                "SUCCESS | MIG.STREAM.CREATE 20 27 | MR.FINALIZE 20",
                "OP_STATE_INCORRECT POST_EXPORT | EXPORT.TRACK 1 12 0",
                "SUCCESS | EXPORT.STATE.IMMUTABLE 20 4 | EXPORT.TRACK 20 6 0 | EXPORT.ABORT 20 \
                | EXPORT.STATE.IMMUTABLE 20 5 | EXPORT.TRACK 20 8 0 | EXPORT.PAUSE 20 \
                | EXPORT.STATE.VP 20 23 13",
            ],
        ],
        "0.17 rtmr 0 606daa39ddc0d778bcce133fd6aac49cdec67d4d75f06c2e560c795ee0c2104dc199bf3279dbedb12f93f1\
        83ffe79e8f",
    ),
    // The sessions are numbered as they begin, and the slots as the calls name them.
    (
        "1*200",
        &[],
        &[
            &[
                BUILT,
                STREAM,
                RUNS,
                "SUCCESS | EXPORT.STATE.IMMUTABLE 1 0 | EXPORT.TRACK 1 1 0",
            ],
            &[
                OTHER,
                "SUCCESS | MIG.STREAM.CREATE 20 27 | MR.FINALIZE 20 | EXPORT.STATE.IMMUTABLE 20 3 \
                    | EXPORT.PAUSE 20 | EXPORT.STATE.TD 20 2",
            ],
        ],
        "",
    ),
];

// A whole source: a page that goes out twice, and two others, on two streams.
const SOURCE: Row<'static> = ("", &[GUEST], &[&[TREE, PAGES, SENT, DIRTIED, HANDED]], "");

const WORKED: Asked<'static> = (
    "replay s --keys k --out-bundles b ; run s --keys k --out-bundles b",
    "1 32 1",
    SOURCE,
);

const BOTH_OUTPUTS: Asked<'static> = (
    "replay s --keys k --out-bundles b --guest-out g",
    "1 32 1",
    SOURCE,
);

// Its second save fails, the put of its replies does, and it has no keys.
const ENDS: &[End<'static>] = &[
    (
        "replay s --keys k --out-bundles b --guest-out g",
        &[3],
        &[],
        4,
        Told::Behind("cannot write g\n"),
        "b",
    ),
    (
        "replay s --keys k --out-bundles b --guest-out g",
        &[],
        &[0],
        4,
        Told::Alone(""),
        "",
    ),
    ("replay s", &[], &[], 7, Told::Alone("key file\n"), ""),
];

/// A bundle as it is sealed: its slot, its length, bytes 0 to 47, and its tag, which covers the payload.
/// The model of checks/second, which has an AES-GCM of its own, gave their bytes.
#[derive(Clone, Copy)]
struct Sealed {
    slot: u16,
    length: usize,
    head: &'static str,
    tag: &'static str,
}

/// What the first row's container has.
const OF_SESSIONS: [Sealed; 11] = [
    Sealed {
        slot: 1,
        length: 64,
        head: "400001000000050005000000ffffffff0500000000000000010000000000000000000000000000000500000000000000",
        tag: "d1a7f6eaa05fb4d245ba84277bdb1597",
    },
    Sealed {
        slot: 2,
        length: 64,
        head: "400001000000040001000000020000000100000000000000010000000000000000000000000000000100000000000000",
        tag: "8391a83f9cd38e9f74a2ba9452f1c292",
    },
    Sealed {
        slot: 3,
        length: 256,
        head: "400001000000010003000000020000000300000000000000010000000000000000000000000000000000000000000000",
        tag: "1cf1c67d3f56c3b00be1df5d4749c0d2",
    },
    Sealed {
        slot: 4,
        length: 112,
        head: "400001000000000000000000010000000000000000000000020000000100000000000000000000000000000000000000",
        tag: "5bd945f8aab09dd8617a620e0b4f5853",
    },
    Sealed {
        slot: 5,
        length: 112,
        head: "400001000000000000000000010000000000000000000000030000000100000000000000000000000000000000000000",
        tag: "756e1be3a925c62612a13d10f61029b2",
    },
    Sealed {
        slot: 6,
        length: 64,
        head: "400001000000040001000000020000000100000000000000020000000000000000000000000000000100000000000000",
        tag: "95bbe40edeb2ba05e4ad4b011b7bf592",
    },
    Sealed {
        slot: 7,
        length: 128,
        head: "400001000000020002000000020000000200000000000000010001000000000000000000000000000000000000000000",
        tag: "67247dca1dc87eb734a266850e42acc6",
    },
    Sealed {
        slot: 8,
        length: 64,
        head: "400001000000040001000000020000000100000000000000030000000000000000000000000000000100000000000000",
        tag: "f835f06ea02c3e34595752154b165d9a",
    },
    Sealed {
        slot: 13,
        length: 128,
        head: "400001000000020002000000020000000200000000000000030000000000000000000000000000000000000000000000",
        tag: "d29c11a2e2940d9ecf53494a2a321f7e",
    },
    Sealed {
        slot: 256,
        length: 128,
        head: "400001000000020004000000020000000400000000000000010000000300000000000000000000000000000000000000",
        tag: "2c3a0c7d207f548698006834f9d80e35",
    },
    Sealed {
        slot: 4095,
        length: 112,
        head: "400001000000000000000000010000000000000000000000010000000200000000000000000000000000000000000000",
        tag: "d2558775001afd62755b5af3cd7124d2",
    },
];

/// What the second row's container has.
const OF_TURNS: [Sealed; 4] = [
    Sealed {
        slot: 0,
        length: 112,
        head: "400001000000000000000000010000000000000000000000020000000000000000000000000000000000000000000000",
        tag: "190927a6c08bac17c8ed282d41f19db4",
    },
    Sealed {
        slot: 1,
        length: 64,
        head: "400001000000040001000000020000000100000000000000020000000000000000000000000000000100000000000000",
        tag: "95bbe40edeb2ba05e4ad4b011b7bf592",
    },
    Sealed {
        slot: 2,
        length: 256,
        head: "400001000000010001000000010000000100000000000000010000000000000000000000000000000000000000000000",
        tag: "401dc2a2c1db4f476e784ccbc830cf8c",
    },
    Sealed {
        slot: 3,
        length: 112,
        head: "400001000000000000000000010000000000000000000000010000000100000000000000000000000000000000000000",
        tag: "bad216ebf830020ae6a35d95f8433173",
    },
];

/// What the whole source's container has.
const OF_PAGES: [Sealed; 9] = [
    Sealed {
        slot: 0,
        length: 112,
        head: "400001000000000000000000010000000000000000000000010000000100000000000000000000000000000000000000",
        tag: "6c6b6980d1c15d0fc5f0adaa6857ec16",
    },
    Sealed {
        slot: 1,
        length: 4160,
        head: "400001000100030000000000010000000000000000000000010000000000000000000000000000000000000000000000",
        tag: "fad4c7ea66472374672a264fdb7878db",
    },
    Sealed {
        slot: 2,
        length: 64,
        head: "400001000000040001000000020000000100000000000000010000000000000000000000000000000200000000000000",
        tag: "d79ba60f5285a27a113ea47a85c4bb79",
    },
    Sealed {
        slot: 3,
        length: 4160,
        head: "400001000000030002000000020000000200000000000000010000000000000000000000000000000000000000000000",
        tag: "e86b01f3d7f326199b1205a328397e33",
    },
    Sealed {
        slot: 4,
        length: 4160,
        head: "400001000100030001000000020000000100000000000000010000000000000000100000000000000000000000000000",
        tag: "6ccf72094f824d2eb91a1ef6fdd5285a",
    },
    Sealed {
        slot: 5,
        length: 4160,
        head: "400001000100030002000000020000000200000000000000010000000000000000200000000000000000000000000000",
        tag: "1be9654d20a1492fd43991a2ae8f7214",
    },
    Sealed {
        slot: 6,
        length: 256,
        head: "400001000000010003000000020000000300000000000000010000000000000000000000000000000000000000000000",
        tag: "e74b2de82099e1a9fa8d4ecb58b119bf",
    },
    Sealed {
        slot: 7,
        length: 128,
        head: "400001000000020004000000020000000400000000000000010000000200000000000000000000000000000000000000",
        tag: "796b9f31ff5fa38410537d8142b6296a",
    },
    Sealed {
        slot: 8,
        length: 64,
        head: "400001000000050005000000ffffffff0500000000000000010000000000000000000000000000000800000000000000",
        tag: "70763439dccae31b0f410a3995e22563",
    },
];

/// The first bytes of its pages as they were exported, by their slots. All others are 0.
const FIRST_BYTES: [(u16, u8); 4] = [(1, 11), (3, 44), (4, 22), (5, 33)];

/// The bytes from a place up to another, or none where they aren't there.
fn part(bytes: &[u8], from: usize, to: usize) -> &[u8] {
    if from <= to && to <= bytes.len() {
        &bytes[from..to]
    } else {
        &bytes[..0]
    }
}

// Whether a container has these bundles.
fn compare(alloc: Global, container: &[u8], wanted: &[Sealed]) -> Result<(), Fail> {
    let bundles = read_container(alloc, container)?;
    let count = bundles.len();
    if count != wanted.len() {
        return Err(Fail::new(format!(in alloc; "{count} bundles")?));
    }
    for (bundle, sealed) in bundles.iter().zip(wanted.iter()) {
        let slot = bundle.slot;
        let bytes = bundle.bytes.as_slice();
        let head = <[u8; 48]>::from_hex(sealed.head)?;
        let tag = <[u8; 16]>::from_hex(sealed.tag)?;
        let is_so = slot == sealed.slot
            && bytes.len() == sealed.length
            && part(bytes, 0, 48) == head.as_slice()
            && part(bytes, 48, 64) == tag.as_slice();
        if !is_so {
            return Err(Fail::new(format!(in alloc; "slot {slot}")?));
        }
    }
    Ok(())
}

#[test]
fn bundles_stand_in_their_slots(rt: HostRuntime) -> Result<(), Fail> {
    let alloc = rt.alloc();
    for (row, wanted) in ROWS
        .iter()
        .zip([OF_SESSIONS.as_slice(), OF_TURNS.as_slice()])
    {
        let container = container_of_row(&rt, alloc, row)?;
        compare(alloc, &container, wanted)?;
    }
    let container = container_of_asked(&rt, alloc, ALONE, &WORKED)?;
    compare(alloc, &container, &OF_PAGES)
}

#[test]
fn a_source_ends_without_its_keys_or_where_its_outside_fails(rt: HostRuntime) -> Result<(), Fail> {
    replay_ends(&rt, rt.alloc(), ALONE, &BOTH_OUTPUTS, ENDS)
}

// That byte, or 0 where it isn't there.
fn byte(bytes: &[u8], i: usize) -> u8 {
    if i < bytes.len() { bytes[i] } else { 0 }
}

// Whether a bundle opens under that key, and its payload then.
fn open(key: &Aes256, bytes: &[u8]) -> (bool, [u8; 4096]) {
    let mut iv = [0u8; 12];
    iv[0] = byte(bytes, 4);
    for i in 0..2 {
        iv[2 + i] = byte(bytes, 24 + i);
    }
    for i in 0..8 {
        iv[4 + i] = byte(bytes, 16 + i);
    }
    let mut head = [0u8; 48];
    for i in 0..48 {
        head[i] = byte(bytes, i);
    }
    let mut tag = [0u8; 16];
    for i in 0..16 {
        tag[i] = byte(bytes, 48 + i);
    }
    let mut page = [0u8; 4096];
    for i in 0..4096 {
        page[i] = byte(bytes, 64 + i);
    }
    let is_open = open_in_place(key, &iv, &head, &mut page, &tag);
    (is_open, page)
}

#[test]
fn pages_are_read_again(rt: HostRuntime) -> Result<(), Fail> {
    let alloc = rt.alloc();
    let mut forward = [0u8; 32];
    for i in 0..32 {
        forward[i] = i as u8;
    }
    let key = Aes256::new(&forward);
    let container = container_of_asked(&rt, alloc, ALONE, &WORKED)?;
    let bundles = read_container(alloc, &container)?;
    let mut count: usize = 0;
    for bundle in bundles.iter() {
        for (slot, first) in FIRST_BYTES {
            if bundle.slot == slot {
                let mut wanted = [0u8; 4096];
                wanted[0] = first;
                let (is_open, page) = open(&key, bundle.bytes.as_slice());
                assert!(rt; is_open && page == wanted, "slot {slot}");
                count = count.wrapping_add(1);
            }
        }
    }
    assert_eq!(rt; count, FIRST_BYTES.len());
    Ok(())
}
