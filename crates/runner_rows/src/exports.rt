//! A script whose calls make a bundle: the keys that it wants, and the container that it leaves.

use bundle_store::{MemFiles, MemSink, NamedFile};
use leaf_engine::NoGate;
use script_runner::tdx_main;
use std::alloc::Global;
use std::test::Fail;

// The script s, which makes a bundle in slot 9 and whose guest reads a page of the host; the script r,
// whose call of that kind is refused; and keys of 64 and 63 bytes.
const FILES: [(&str, &[u8]); 4] = [
    (
        "s",
        b"machine 1 8 1\ncode 1 0\nload 1 0x800000006000\nend\nlp 0\nMNG.CREATE 1 1\nMNG.KEY.CONFIG 1\n\
         MNG.ADDCX 1 2\nMNG.ADDCX 1 3\nMNG.INIT 1\nVP.CREATE 1 4\nVP.INIT 1 4 0\nMIG.STREAM.CREATE 1 5\n\
         MR.FINALIZE 1\nEXPORT.STATE.IMMUTABLE 1 9\nVP.ENTER 1 4 2\nend\n",
    ),
    ("r", b"machine 1 8 1\nlp 0\nEXPORT.STATE.TD 1 4095\nend\n"),
    ("k", &[7; 64]),
    ("k63", &[7; 63]),
];

fn files(alloc: Global, failing: &[u64]) -> Result<MemFiles, Fail> {
    let mut files = Vec::new(alloc);
    for (name, bytes) in FILES {
        files.push(NamedFile {
            name: String::from_str(alloc, name)?,
            bytes: bytes.to_vec(alloc)?,
        })?;
    }
    Ok(MemFiles::new(alloc, files, failing.to_vec(alloc)?))
}

// The bytes that a name has, or a bar where it isn't there.
fn held<'a>(files: &'a MemFiles, name: &str) -> &'a [u8] {
    for file in &files.files {
        if file.name.as_str() == name {
            return file.bytes.as_slice();
        }
    }
    b"|"
}

const REPLIES: &str =
    "0.1 SUCCESS\n0.2 SUCCESS\n0.3 SUCCESS\n0.4 SUCCESS\n0.5 SUCCESS\n0.6 SUCCESS\n\
    0.7 SUCCESS\n0.8 SUCCESS\n0.9 SUCCESS\n0.10 SUCCESS\n0.11 EXIT STOP\n";

const NO_GUEST_FILE: &str = "0.1 SUCCESS\n0.2 SUCCESS\n0.3 SUCCESS\n0.4 SUCCESS\n0.5 SUCCESS\n\
    0.6 SUCCESS\n0.7 SUCCESS\n0.8 SUCCESS\n0.9 SUCCESS\n0.10 SUCCESS\n0.11 EXIT STOP\ncannot write g\n";

const NO_CONTAINER: &str = "0.1 SUCCESS\n0.2 SUCCESS\n0.3 SUCCESS\n0.4 SUCCESS\n0.5 SUCCESS\n\
    0.6 SUCCESS\n0.7 SUCCESS\n0.8 SUCCESS\n0.9 SUCCESS\n0.10 SUCCESS\n0.11 EXIT STOP\ncannot write o\n";

const KEYS: &str = "key file\n";

// The bundle that s makes, as it is sealed with bytes of 7. The model of checks/second gave it.
const CONTAINER: &str =
    "544458424e444c31090000007000000040000100000000000000000001000000000000000000000001000000\
    0100000000000000000000000000000000000000015a171fd7f3af4f43fda2c18a5b055c01ea6a85e75ac619\
    5d401a1b4b6213898341011a2191964a126d58dd29ffb077f73d8004010195b3256d64e0f740deaf";

const EMPTY: &str = "544458424e444c31";

const NONE: &str = "7c";

const GUEST: &str = "0.11 load 0x800000006000 0\n";

// Words, the loads and saves that fail, the puts that do, the status, the text, the bytes that o has, and
// the text that g has.
type Row<'a> = (&'a str, &'a [u64], &'a [u64], u8, &'a str, &'a str, &'a str);

const ROWS: &[Row<'static>] = &[
    (
        "replay s --keys k --out-bundles o --guest-out g",
        &[],
        &[],
        0,
        REPLIES,
        CONTAINER,
        GUEST,
    ),
    (
        "run --out-bundles o s --guest-out g --keys k",
        &[],
        &[],
        0,
        REPLIES,
        CONTAINER,
        GUEST,
    ),
    ("replay s --keys k", &[], &[], 0, REPLIES, NONE, "|"),
    // The container is saved first, and nothing behind a save that failed, or where the replies weren't put.
    (
        "replay s --keys k --out-bundles o --guest-out g",
        &[3],
        &[],
        4,
        NO_GUEST_FILE,
        CONTAINER,
        "|",
    ),
    (
        "replay s --keys k --out-bundles o --guest-out g",
        &[3],
        &[1],
        4,
        REPLIES,
        CONTAINER,
        "|",
    ),
    (
        "replay s --keys k --out-bundles o --guest-out g",
        &[2],
        &[],
        4,
        NO_CONTAINER,
        NONE,
        "|",
    ),
    (
        "replay s --keys k --out-bundles o --guest-out g",
        &[],
        &[0],
        4,
        "",
        NONE,
        "|",
    ),
    (
        "replay s --keys k --out-bundles o --guest-out o",
        &[3],
        &[1],
        4,
        REPLIES,
        CONTAINER,
        "|",
    ),
    // Without keys nothing is run, whether a call would come to make a bundle or not.
    (
        "replay s --out-bundles o --guest-out g",
        &[],
        &[],
        7,
        KEYS,
        NONE,
        "|",
    ),
    ("run r", &[], &[0], 7, "", NONE, "|"),
    ("replay r --keys k63", &[], &[], 7, KEYS, NONE, "|"),
    (
        "replay r --keys k --out-bundles o",
        &[],
        &[],
        0,
        "0.1 PAGE_METADATA_INCORRECT 1\n",
        EMPTY,
        "|",
    ),
    // A script is checked without keys.
    ("check s", &[], &[], 0, "ok 1 11 1 0\n", NONE, "|"),
];

#[test]
fn a_bundle_wants_keys_and_a_container(rt: HostRuntime) -> Result<(), Fail> {
    let alloc = rt.alloc();
    for (line, failing, puts, status, want, container, guest) in ROWS {
        let mut words = Vec::new(alloc);
        for word in line.split(' ') {
            words.push(String::from_str(alloc, word)?)?;
        }
        let mut files = files(alloc, failing)?;
        let mut out = MemSink::new(alloc, puts.to_vec(alloc)?);
        let got = tdx_main(&rt, alloc, &words, &mut files, &mut out, &NoGate);
        assert_eq!(rt; got, *status, "status of {line}");
        assert_eq!(rt; out.bytes.as_slice(), want.as_bytes(), "text of {line}");
        let saved = hex::decode(alloc, *container)?;
        assert_eq!(rt; held(&files, "o"), saved.as_slice(), "o of {line}");
        assert_eq!(rt; held(&files, "g"), guest.as_bytes(), "g of {line}");
    }
    Ok(())
}
