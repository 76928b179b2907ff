//! The container and the guest file, and the numbers of `check`.

use bundle_store::{MemFiles, MemSink, NamedFile};
use leaf_engine::NoGate;
use script_runner::tdx_main;
use std::alloc::Global;
use std::test::Fail;

const USAGE: &str =
    "usage: tdx replay|run SCRIPT [--bundles F] [--keys F] [--secrets F] [--out-bundles F] [--guest-out F] [--report-key F] | tdx check SCRIPT | tdx soak N | tdx verify FILE KEY\n";

// The script s, which has one reply; n, which has none; t, whose numbers are told by `check`, with its comments; e, whose
// bytes are none; and f, with a bad third line behind a comment.
const FILES: [(&str, &str); 5] = [
    ("s", "machine 1 8 1\nlp 0\nHOST.READ 1 0\nend\n"),
    ("n", "machine 1 8 1\n"),
    (
        "t",
        "# no processor\nmachine 3 32 1\n\nschedule 0*4 2\ncode 5 7\n# no operation\nset 0 1\nload 1 8\nend\n\
         code 5 0\nend\nlp 2\n# no call\nHOST.READ 1 0\n\nHOST.READ 99 0\nend\nlp 0\nMNG.CREATE 5 1\nend\n\
         # no item\nschedule 2 1\ncode 6 0\nadd 0 1\nend\n",
    ),
    ("e", ""),
    ("f", "# one\nmachine 1 8 1\nlp 1\n"),
];

fn files(alloc: Global, failing: &[u64]) -> Result<MemFiles, Fail> {
    let mut files = Vec::new(alloc);
    for (name, text) in FILES {
        files.push(NamedFile {
            name: String::from_str(alloc, name)?,
            bytes: text.as_bytes().to_vec(alloc)?,
        })?;
    }
    Ok(MemFiles::new(alloc, files, failing.to_vec(alloc)?))
}

// The bytes that a name has, or a bar where it isn't there.
fn held<'a>(files: &'a MemFiles, name: &str) -> &'a [u8] {
    for file in &files.files {
        if file.name.as_str() == name {
            return file.bytes.as_slice();
        }
    }
    b"|"
}

// Words, the loads and saves that fail, the puts that do, the status, the text, and what o and g have.
type Row<'a> = (&'a str, &'a [u64], &'a [u64], u8, &'a str, &'a str, &'a str);

const REPLY: &str = "0.1 SUCCESS 0\n";

const CONTAINER: &str = "TDXBNDL1";

const NONE: &str = "|";

const OUTPUTS: &[Row<'static>] = &[
    ("replay s --guest-out g", &[], &[], 0, REPLY, NONE, ""),
    ("replay --guest-out g s", &[], &[], 0, REPLY, NONE, ""),
    (
        "replay --guest-out g s --out-bundles o",
        &[],
        &[],
        0,
        REPLY,
        CONTAINER,
        "",
    ),
    // Of one name for both it has the guest file's text.
    (
        "replay s --guest-out o --out-bundles o",
        &[],
        &[],
        0,
        REPLY,
        "",
        NONE,
    ),
    (
        "replay s --guest-out o --out-bundles o",
        &[2],
        &[],
        4,
        "0.1 SUCCESS 0\ncannot write o\n",
        CONTAINER,
        NONE,
    ),
    // The container is saved first, and nothing behind a save that failed.
    (
        "replay s --out-bundles o --guest-out g",
        &[2],
        &[],
        4,
        "0.1 SUCCESS 0\ncannot write g\n",
        CONTAINER,
        NONE,
    ),
    (
        "replay s --guest-out g --out-bundles o",
        &[1],
        &[],
        4,
        "0.1 SUCCESS 0\ncannot write o\n",
        NONE,
        NONE,
    ),
    (
        "replay s --guest-out g",
        &[1],
        &[],
        4,
        "0.1 SUCCESS 0\ncannot write g\n",
        NONE,
        NONE,
    ),
    (
        "replay s --out-bundles o --guest-out g",
        &[2],
        &[1],
        4,
        REPLY,
        CONTAINER,
        NONE,
    ),
    // Nothing is saved where the replies weren't put, or there are none.
    (
        "replay s --out-bundles o --guest-out g",
        &[],
        &[0],
        4,
        "",
        NONE,
        NONE,
    ),
    (
        "replay e --guest-out g",
        &[],
        &[],
        2,
        "script line 1 MACHINE\n",
        NONE,
        NONE,
    ),
    (
        "replay s --guest-out g --bundles x",
        &[],
        &[],
        3,
        "cannot read x\n",
        NONE,
        NONE,
    ),
    (
        "replay s --guest-out g --keys s",
        &[],
        &[],
        7,
        "key file\n",
        NONE,
        NONE,
    ),
    // The script's own name may be that of an output.
    ("replay s --guest-out s", &[], &[], 0, REPLY, NONE, NONE),
    ("replay s --guest-out", &[], &[], 1, USAGE, NONE, NONE),
    ("replay s --guest-out -g", &[], &[], 1, USAGE, NONE, NONE),
    ("replay s --guest-out=g", &[], &[], 0, REPLY, NONE, ""),
    (
        "replay s --guest-out --keys s",
        &[],
        &[],
        1,
        USAGE,
        NONE,
        NONE,
    ),
    (
        "replay s --guest-out g --guest-out o",
        &[],
        &[],
        1,
        USAGE,
        NONE,
        NONE,
    ),
    ("replay --guest-out g", &[], &[], 1, USAGE, NONE, NONE),
    // The files of run are those of replay.
    (
        "run s --guest-out g --out-bundles o",
        &[],
        &[],
        0,
        REPLY,
        CONTAINER,
        "",
    ),
    (
        "run s --out-bundles o --guest-out g",
        &[2],
        &[],
        4,
        "0.1 SUCCESS 0\ncannot write g\n",
        CONTAINER,
        NONE,
    ),
];

const CHECKS: &[Row<'static>] = &[
    ("check n", &[], &[], 0, "ok 1 0 0 0\n", NONE, NONE),
    ("check t", &[], &[], 0, "ok 3 3 3 7\n", NONE, NONE),
    (
        "check e",
        &[],
        &[],
        2,
        "script line 1 MACHINE\n",
        NONE,
        NONE,
    ),
    ("check f", &[], &[], 2, "script line 3 RANGE\n", NONE, NONE),
    ("check x", &[], &[], 3, "cannot read x\n", NONE, NONE),
    ("check s", &[0], &[], 3, "cannot read s\n", NONE, NONE),
    // Nothing else is loaded, and nothing is saved.
    ("check s", &[1], &[], 0, "ok 1 1 0 0\n", NONE, NONE),
    ("check s", &[], &[0], 4, "", NONE, NONE),
    ("check e", &[], &[0], 2, "", NONE, NONE),
    ("check", &[], &[], 1, USAGE, NONE, NONE),
    ("check s t", &[], &[], 1, USAGE, NONE, NONE),
    ("check -s", &[], &[], 1, USAGE, NONE, NONE),
    ("check s --keys s", &[], &[], 1, USAGE, NONE, NONE),
    ("check s --secrets s", &[], &[], 1, USAGE, NONE, NONE),
    ("check --guest-out g s", &[], &[], 1, USAGE, NONE, NONE),
    ("checks s", &[], &[], 1, USAGE, NONE, NONE),
    // A soak loads nothing, and saves nothing.
    (
        "soak 2",
        &[0],
        &[],
        0,
        "soak 2 bundles 6 sum 14170967488582549419\n",
        NONE,
        NONE,
    ),
    ("soak 2", &[], &[0], 4, "", NONE, NONE),
    ("soak 0", &[], &[], 1, USAGE, NONE, NONE),
    ("soak 513", &[], &[], 1, USAGE, NONE, NONE),
];

#[test]
fn outputs_are_saved_and_scripts_checked(rt: HostRuntime) -> Result<(), Fail> {
    let alloc = rt.alloc();
    for rows in [OUTPUTS, CHECKS] {
        for (line, failing, puts, status, want, container, guest) in rows {
            let mut words = Vec::new(alloc);
            for word in line.split(' ') {
                words.push(String::from_str(alloc, word)?)?;
            }
            let mut files = files(alloc, failing)?;
            let mut out = MemSink::new(alloc, puts.to_vec(alloc)?);
            let got = tdx_main(&rt, alloc, &words, &mut files, &mut out, &NoGate);
            assert_eq!(rt; got, *status, "status of {line}");
            assert_eq!(rt; out.bytes.as_slice(), want.as_bytes(), "text of {line}");
            assert_eq!(rt; held(&files, "o"), container.as_bytes(), "o of {line}");
            assert_eq!(rt; held(&files, "g"), guest.as_bytes(), "g of {line}");
        }
    }
    Ok(())
}
