//! One name for several files: all inputs are loaded before an output is saved, and of two outputs the guest
//! file is saved last.

use bundle_store::{MemFiles, MemSink, NamedFile};
use leaf_engine::NoGate;
use script_runner::tdx_main;
use std::alloc::Global;
use std::test::Fail;

// The script s, which has one reply, and whose container has no bundle and whose guest file no line; the
// container c, with an empty bundle in slot 1; the keys k; and the secrets z.
fn files(alloc: Global, failing: &[u64]) -> Result<MemFiles, Fail> {
    let zeros = vec![in alloc; 0u8; 4_096]?;
    let list: [(&str, &[u8]); 4] = [
        ("s", b"machine 1 8 1\nlp 0\nHOST.READ 1 0\nend\n"),
        ("c", b"TDXBNDL1\x01\x00\x00\x00\x00\x00\x00\x00"),
        ("k", &zeros[..64]),
        ("z", &zeros),
    ];
    let mut files = Vec::new(alloc);
    for (name, bytes) in list {
        files.push(NamedFile {
            name: String::from_str(alloc, name)?,
            bytes: bytes.to_vec(alloc)?,
        })?;
    }
    Ok(MemFiles::new(alloc, files, failing.to_vec(alloc)?))
}

const REPLY: &str = "0.1 SUCCESS 0\n";

const CONTAINER: &str = "TDXBNDL1";

const GUEST: &str = "";

// Words, the loads and saves that fail, the status, the text, and the name that has other bytes then, with
// these bytes, or none.
type Row<'a> = (&'a str, &'a [u64], u8, &'a str, Option<(&'a str, &'a str)>);

const ROWS: &[Row<'static>] = &[
    // An output that is an input too.
    (
        "replay s --out-bundles s",
        &[],
        0,
        REPLY,
        Some(("s", CONTAINER)),
    ),
    ("replay s --guest-out s", &[], 0, REPLY, Some(("s", GUEST))),
    (
        "replay s --bundles c --out-bundles c",
        &[],
        0,
        REPLY,
        Some(("c", CONTAINER)),
    ),
    (
        "replay s --bundles c --guest-out c",
        &[],
        0,
        REPLY,
        Some(("c", GUEST)),
    ),
    (
        "replay s --keys k --out-bundles k",
        &[],
        0,
        REPLY,
        Some(("k", CONTAINER)),
    ),
    (
        "replay s --secrets z --guest-out z",
        &[],
        0,
        REPLY,
        Some(("z", GUEST)),
    ),
    (
        "run --out-bundles c s --bundles c",
        &[],
        0,
        REPLY,
        Some(("c", CONTAINER)),
    ),
    // Two outputs: the container is saved first.
    (
        "replay s --out-bundles c --guest-out c",
        &[],
        0,
        REPLY,
        Some(("c", GUEST)),
    ),
    (
        "run s --guest-out c --out-bundles c",
        &[],
        0,
        REPLY,
        Some(("c", GUEST)),
    ),
    (
        "replay s --out-bundles s --guest-out s",
        &[],
        0,
        REPLY,
        Some(("s", GUEST)),
    ),
    (
        "replay s --bundles c --out-bundles c --guest-out c",
        &[3],
        4,
        "0.1 SUCCESS 0\ncannot write c\n",
        Some(("c", CONTAINER)),
    ),
    // An input stays where its name isn't saved.
    (
        "replay s --bundles c --out-bundles c --guest-out c",
        &[2],
        4,
        "0.1 SUCCESS 0\ncannot write c\n",
        None,
    ),
    (
        "replay s --guest-out s",
        &[1],
        4,
        "0.1 SUCCESS 0\ncannot write s\n",
        None,
    ),
    (
        "replay s --bundles c --keys z --out-bundles c",
        &[],
        7,
        "key file\n",
        None,
    ),
    (
        "replay s --bundles c --keys k --out-bundles k",
        &[2],
        3,
        "cannot read k\n",
        None,
    ),
    // One input for two.
    ("replay s --bundles s", &[], 6, "bundle file byte 0\n", None),
    ("replay s --keys z --secrets z", &[], 7, "key file\n", None),
    (
        "replay c --bundles c",
        &[],
        2,
        "script line 1 UNTERMINATED\n",
        None,
    ),
];

// Whether a name has these bytes, or those that it had before.
fn has_bytes(file: &NamedFile, before: &MemFiles, changed: Option<(&str, &str)>) -> bool {
    if let Some((name, bytes)) = changed {
        if file.name.as_str() == name {
            return file.bytes.as_slice() == bytes.as_bytes();
        }
    }
    for old in &before.files {
        if old.name.as_str() == file.name.as_str() {
            return file.bytes.as_slice() == old.bytes.as_slice();
        }
    }
    false
}

#[test]
fn files_may_have_one_name(rt: HostRuntime) -> Result<(), Fail> {
    let alloc = rt.alloc();
    let before = files(alloc, &[])?;
    for (line, failing, status, want, changed) in ROWS {
        let mut words = Vec::new(alloc);
        for word in line.split(' ') {
            words.push(String::from_str(alloc, word)?)?;
        }
        let mut files = files(alloc, failing)?;
        let mut out = MemSink::new(alloc, Vec::new(alloc));
        let got = tdx_main(&rt, alloc, &words, &mut files, &mut out, &NoGate);
        assert_eq!(rt; got, *status, "status of {line}");
        assert_eq!(rt; out.bytes.as_slice(), want.as_bytes(), "text of {line}");
        assert_eq!(rt; files.files.len(), before.files.len(), "files of {line}");
        for file in &files.files {
            assert!(rt; has_bytes(file, &before, *changed), "a file of {line}");
        }
    }
    Ok(())
}
