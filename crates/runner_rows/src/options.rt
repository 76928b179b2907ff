//! Scripts in memory, replayed with the files that options name.

use bundle_store::{MemFiles, MemSink, NamedFile};
use leaf_engine::NoGate;
use script_runner::tdx_main;
use std::alloc::Global;
use std::process::Abort;
use std::test::Fail;
use std::thread::Threads;

const USAGE: &[u8] =
    b"usage: tdx replay|run SCRIPT [--bundles F] [--keys F] [--secrets F] [--out-bundles F] [--guest-out F] [--report-key F] | tdx check SCRIPT | tdx soak N | tdx verify FILE KEY\n";

// The script s, which has one reply; n, which has none; t, whose call makes a bundle where it isn't refused;
// e, whose bytes are none; the container b, c with 3 bytes more, d, whose second entry has the slot of its first,
// of 64 bytes, and f, whose entry is cut; keys of 64, 63 and 65 bytes; the most bytes that a
// key or secrets file is loaded with, and one more; and secrets of 4,096, 4,095 and 4,097 bytes.
fn files(alloc: Global, failing: &[u64]) -> Result<MemFiles, Fail> {
    let keys = [7u8; 65];
    let long = vec![in alloc; 7u8; 65_537]?;
    let list: [(&str, &[u8]); 16] = [
        ("s", b"machine 1 8 1\nlp 0\nHOST.READ 1 0\nend\n"),
        ("n", b"machine 1 8 1\n"),
        ("t", b"machine 1 8 1\nlp 0\nEXPORT.TRACK 1 0 0\nend\n"),
        ("e", b""),
        ("b", b"TDXBNDL1"),
        ("c", b"TDXBNDL1abc"),
        (
            "d",
            b"TDXBNDL1\x05\x00\x00\x00\x40\x00\x00\x00\
              0123456789abcdef0123456789abcdef0123456789abcdef0123456789abcdef\
              \x05\x00\x00\x00\x00\x00\x00\x00",
        ),
        ("f", b"TDXBNDL1\x05\x00\x00\x00\x0a\x00\x00\x00abc"),
        ("k", &keys[..64]),
        ("k63", &keys[..63]),
        ("k65", &keys),
        ("k65536", &long[..65_536]),
        ("k65537", &long),
        ("w", &long[..4_096]),
        ("w4095", &long[..4_095]),
        ("w4097", &long[..4_097]),
    ];
    let mut files = Vec::new(alloc);
    for (name, bytes) in list {
        files.push(NamedFile {
            name: String::from_str(alloc, name)?,
            bytes: bytes.to_vec(alloc)?,
        })?;
    }
    Ok(MemFiles::new(alloc, files, failing.to_vec(alloc)?))
}

// The bytes that a name has.
fn held<'a>(files: &'a MemFiles, name: &str) -> Option<&'a [u8]> {
    for file in &files.files {
        if file.name.as_str() == name {
            return Some(file.bytes.as_slice());
        }
    }
    None
}

// Words, the loads and saves that fail, the puts that do, the status, the text, and whether o is saved.
type Row<'a> = (&'a str, &'a [u64], &'a [u64], u8, &'a [u8], bool);

const REPLY: &[u8] = b"0.1 SUCCESS 0\n";

const REFUSAL: &[u8] = b"0.1 PAGE_METADATA_INCORRECT 1\n";

const ROWS: &[Row<'static>] = &[
    (
        "replay s --bundles b --keys k --out-bundles o",
        &[],
        &[],
        0,
        REPLY,
        true,
    ),
    (
        "replay --keys k --out-bundles o s --bundles b",
        &[],
        &[],
        0,
        REPLY,
        true,
    ),
    ("replay --out-bundles o s", &[], &[], 0, REPLY, true),
    ("replay n --out-bundles o", &[], &[], 0, b"", true),
    ("replay s --keys k", &[], &[], 0, REPLY, false),
    (
        "replay s --bundles c --out-bundles o",
        &[],
        &[],
        6,
        b"bundle file byte 8\n",
        false,
    ),
    (
        "replay s --bundles d",
        &[],
        &[],
        6,
        b"bundle file byte 80\n",
        false,
    ),
    (
        "replay s --bundles f",
        &[],
        &[],
        6,
        b"bundle file byte 8\n",
        false,
    ),
    (
        "replay s --bundles e",
        &[],
        &[],
        6,
        b"bundle file byte 0\n",
        false,
    ),
    (
        "replay s --keys k63 --out-bundles o",
        &[],
        &[],
        7,
        b"key file\n",
        false,
    ),
    ("replay s --keys k65", &[], &[], 7, b"key file\n", false),
    ("replay s --keys k65536", &[], &[], 7, b"key file\n", false),
    ("replay s --keys k65537", &[], &[], 7, b"key file\n", false),
    // A key file is wanting where a call of the script makes a bundle, whatever it answers. That is told
    // in the place of the file's length: behind the container's form, and before that of the secrets.
    ("replay t --keys k", &[], &[], 0, REFUSAL, false),
    ("replay t", &[], &[], 7, b"key file\n", false),
    ("run t --out-bundles o", &[], &[], 7, b"key file\n", false),
    (
        "replay t --secrets w4095 --bundles b",
        &[],
        &[],
        7,
        b"key file\n",
        false,
    ),
    (
        "replay t --bundles c",
        &[],
        &[],
        6,
        b"bundle file byte 8\n",
        false,
    ),
    (
        "replay t --secrets x",
        &[],
        &[],
        3,
        b"cannot read x\n",
        false,
    ),
    ("check t", &[], &[], 0, b"ok 1 1 0 0\n", false),
    // The container's form is tested before the keys', and both are loaded before.
    (
        "replay s --keys k63 --bundles c",
        &[],
        &[],
        6,
        b"bundle file byte 8\n",
        false,
    ),
    (
        "replay s --keys x --bundles c",
        &[],
        &[],
        3,
        b"cannot read x\n",
        false,
    ),
    (
        "replay s --keys x --bundles y",
        &[],
        &[],
        3,
        b"cannot read y\n",
        false,
    ),
    // The script is loaded and read before them.
    (
        "replay x --bundles y",
        &[],
        &[],
        3,
        b"cannot read x\n",
        false,
    ),
    (
        "replay e --bundles y",
        &[],
        &[],
        2,
        b"script line 1 MACHINE\n",
        false,
    ),
    (
        "replay s --bundles b --keys k",
        &[0],
        &[],
        3,
        b"cannot read s\n",
        false,
    ),
    (
        "replay s --bundles b --keys k",
        &[1],
        &[],
        3,
        b"cannot read b\n",
        false,
    ),
    (
        "replay s --bundles b --keys k",
        &[2],
        &[],
        3,
        b"cannot read k\n",
        false,
    ),
    (
        "replay s --out-bundles o",
        &[1],
        &[],
        4,
        b"0.1 SUCCESS 0\ncannot write o\n",
        false,
    ),
    ("replay s --out-bundles o", &[1], &[1], 4, REPLY, false),
    ("replay s --out-bundles o", &[], &[0], 4, b"", false),
    ("replay s --keys k63", &[], &[0], 7, b"", false),
    ("replay s --keys", &[], &[], 1, USAGE, false),
    ("replay s --keys --bundles b", &[], &[], 1, USAGE, false),
    ("replay s --keys -", &[], &[], 3, b"cannot read -\n", false),
    ("replay s --keys=-", &[], &[], 3, b"cannot read -\n", false),
    ("replay s --keys=k", &[], &[], 0, REPLY, false),
    ("replay --out-bundles=o -- s", &[], &[], 0, REPLY, true),
    ("replay s --keys k --keys k", &[], &[], 1, USAGE, false),
    ("replay s s --keys k", &[], &[], 1, USAGE, false),
    ("replay --keys k", &[], &[], 1, USAGE, false),
];

const SECRETS: &[Row<'static>] = &[
    ("replay s --secrets w", &[], &[], 0, REPLY, false),
    (
        "run --secrets w s --out-bundles o",
        &[],
        &[],
        0,
        REPLY,
        true,
    ),
    (
        "replay s --secrets k",
        &[],
        &[],
        7,
        b"secrets file\n",
        false,
    ),
    (
        "replay s --secrets w4095 --out-bundles o",
        &[],
        &[],
        7,
        b"secrets file\n",
        false,
    ),
    (
        "run --secrets w4097 s",
        &[],
        &[],
        7,
        b"secrets file\n",
        false,
    ),
    (
        "replay s --secrets k65537",
        &[],
        &[],
        7,
        b"secrets file\n",
        false,
    ),
    // It is loaded behind the keys, and its form is tested behind theirs.
    (
        "replay s --secrets w4095 --keys k63",
        &[],
        &[],
        7,
        b"key file\n",
        false,
    ),
    (
        "replay s --secrets w4095 --keys k --bundles c",
        &[],
        &[],
        6,
        b"bundle file byte 8\n",
        false,
    ),
    (
        "replay s --secrets x --keys k63 --bundles c",
        &[],
        &[],
        3,
        b"cannot read x\n",
        false,
    ),
    (
        "replay s --secrets x --keys y",
        &[],
        &[],
        3,
        b"cannot read y\n",
        false,
    ),
    (
        "run s --keys k --secrets w",
        &[2],
        &[],
        3,
        b"cannot read w\n",
        false,
    ),
    ("replay s --secrets", &[], &[], 1, USAGE, false),
    ("replay s --secrets -w", &[], &[], 1, USAGE, false),
    (
        "replay --secrets w s --secrets w",
        &[],
        &[],
        1,
        USAGE,
        false,
    ),
    ("check s --secrets w", &[], &[], 1, USAGE, false),
];

// What replay makes of options, run makes of them too.
const RUNS: &[Row<'static>] = &[
    (
        "run s --bundles b --keys k --out-bundles o",
        &[],
        &[],
        0,
        REPLY,
        true,
    ),
    (
        "run s --bundles c",
        &[],
        &[],
        6,
        b"bundle file byte 8\n",
        false,
    ),
    ("run s --keys k63", &[], &[], 7, b"key file\n", false),
    ("run x", &[], &[], 3, b"cannot read x\n", false),
    (
        "run e --bundles y",
        &[],
        &[],
        2,
        b"script line 1 MACHINE\n",
        false,
    ),
    (
        "run s --out-bundles o",
        &[1],
        &[],
        4,
        b"0.1 SUCCESS 0\ncannot write o\n",
        false,
    ),
    ("run s --out-bundles o", &[], &[0], 4, b"", false),
    ("run", &[], &[], 1, USAGE, false),
    ("run s s", &[], &[], 1, USAGE, false),
    ("run s --keys", &[], &[], 1, USAGE, false),
];

fn ends_as<R: Abort + Threads + Sync>(
    rt: &R,
    alloc: Global,
    rows: &[Row<'static>],
) -> Result<(), Fail> {
    for (line, failing, puts, status, want, is_saved) in rows {
        let mut words = Vec::new(alloc);
        for word in line.split(' ') {
            words.push(String::from_str(alloc, word)?)?;
        }
        let mut files = files(alloc, failing)?;
        let mut out = MemSink::new(alloc, puts.to_vec(alloc)?);
        let got = tdx_main(rt, alloc, &words, &mut files, &mut out, &NoGate);
        assert_eq!(rt; got, *status, "status of {line}");
        assert_eq!(rt; out.bytes.as_slice(), *want, "text of {line}");
        match held(&files, "o") {
            Some(bytes) => assert_eq!(rt; bytes, b"TDXBNDL1".as_slice(), "container of {line}"),
            None => assert_eq!(rt; *is_saved, false, "no container of {line}"),
        }
    }
    Ok(())
}

#[test]
fn options_name_inputs_and_an_output(rt: HostRuntime) -> Result<(), Fail> {
    ends_as(&rt, rt.alloc(), ROWS)
}

#[test]
fn a_secrets_file_has_its_length(rt: HostRuntime) -> Result<(), Fail> {
    ends_as(&rt, rt.alloc(), SECRETS)
}

#[test]
fn run_has_the_options_of_replay(rt: HostRuntime) -> Result<(), Fail> {
    ends_as(&rt, rt.alloc(), RUNS)
}
