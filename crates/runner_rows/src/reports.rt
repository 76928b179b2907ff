//! Reports of guests: the lines of the guest file under a report key, and what is said of the key's file.

use bundle_store::{MemFiles, MemSink, NamedFile};
use leaf_engine::NoGate;
use script_runner::tdx_main;
use std::alloc::Global;
use std::process::Abort;
use std::test::Fail;
use std::thread::Threads;

// A TD without a page, whose MRTD is the digest of no bytes, with a VCPU.
const BUILT: &str =
    "MNG.CREATE 1 1\nMNG.KEY.CONFIG 1\nMNG.ADDCX 1 2\nMNG.ADDCX 1 3\nMNG.INIT 1\nVP.CREATE 1 4\nVP.INIT 1 4 0\n";

// The secure EPT of its first 2 MB.
const TREE: &str = "MEM.SEPT.ADD 1 0 3 5\nMEM.SEPT.ADD 1 0 2 6\nMEM.SEPT.ADD 1 0 1 7\n";

const MRTD: &str =
    "38b060a751ac96384cd9327eb1b1e36a21fdb71114be07434c0cc7bf63f6e1da274edebfe76f65fbd51ad2f14898b95b";

const NONE: &str =
    "000000000000000000000000000000000000000000000000000000000000000000000000000000000000000000000000";

// An RTMR that was extended by register 0, which is 1, and by registers 0 to 5, which are 0.
const BY_ONE: &str =
    "dcae87d56ea61215f323a6263060b6962802b2506f80be2a92cb0c4a1f0680f09c14eeaa6e82c9fa9aecf9524f65c59b";

const BY_NONE: &str =
    "f57bb7ed82c6ae4a29e6c9879338c592c7d42a39135583e8ccbe3940f2344b0eb6eb8503db0ffd6a39ddd00cd07d8317";

// Registers 1 to 7, which are 0.
const REST: &str =
    "0000000000000000000000000000000000000000000000000000000000000000000000000000000000000000000000000000000000000000";

const KEY: &str = "known to the platform and to who relies on it...";

// A file of that name.
fn named(alloc: Global, name: &str, bytes: &[u8]) -> Result<NamedFile, Fail> {
    Ok(NamedFile {
        name: String::from_str(alloc, name)?,
        bytes: bytes.to_vec(alloc)?,
    })
}

// The script s; the report key h, and h47 and h49, with a byte less and more; and what a report key is loaded with at most, and more.
fn files(alloc: Global, script: &str) -> Result<MemFiles, Fail> {
    let long = vec![in alloc; 7u8; 65_537]?;
    let more = format!(in alloc; "{KEY}.")?;
    let mut files = Vec::new(alloc);
    files.push(named(alloc, "s", script.as_bytes())?)?;
    files.push(named(alloc, "h", KEY.as_bytes())?)?;
    files.push(named(alloc, "h47", &KEY.as_bytes()[..47])?)?;
    files.push(named(alloc, "h49", more.as_bytes())?)?;
    files.push(named(alloc, "h65537", &long)?)?;
    files.push(named(alloc, "w4095", &long[..4_095])?)?;
    Ok(MemFiles::new(alloc, files, Vec::new(alloc)))
}

// Does what a line asks for of a script: its status, what it puts, and the files that are there then.
fn does<R: Abort + Threads + Sync>(
    rt: &R,
    alloc: Global,
    line: &str,
    script: &str,
) -> Result<(u8, MemSink, MemFiles), Fail> {
    let mut words = Vec::new(alloc);
    for word in line.split(' ') {
        words.push(String::from_str(alloc, word)?)?;
    }
    let mut files = files(alloc, script)?;
    let mut out = MemSink::new(alloc, Vec::new(alloc));
    let status = tdx_main(rt, alloc, &words, &mut files, &mut out, &NoGate);
    Ok((status, out, files))
}

// A report: RTMRs 1 and 2, register 0, and the MAC, which another program made.
fn digits(alloc: Global, rtmrs: (&str, &str), register: &str, mac: &str) -> Result<String, Fail> {
    let (rtmr1, rtmr2) = rtmrs;
    Ok(format!(in alloc; "5444585245503031{MRTD}{NONE}{rtmr1}{rtmr2}{NONE}{register}{REST}{mac}")?)
}

// The guest file of a script that is replayed is this.
fn notes<R: Abort + Threads + Sync>(
    rt: &R,
    alloc: Global,
    script: &str,
    want: &str,
) -> Result<(), Fail> {
    let (status, _, files) = does(rt, alloc, "replay s --report-key h --guest-out g", script)?;
    assert_eq!(rt; status, 0, "status of {script}");
    for file in &files.files {
        if file.name.as_str() == "g" {
            assert_eq!(rt;
                file.bytes.as_slice(),
                want.as_bytes(),
                "guest file of {script}"
            );
            return Ok(());
        }
    }
    Err("no guest file".into())
}

// The script whose guest has this list.
fn script_with(alloc: Global, list: &str) -> Result<String, Fail> {
    let front = format!(in alloc; "machine 1 32 1\ncode 1 0\n{list}\nend\nlp 0\n{BUILT}")?;
    Ok(format!(in alloc; "{front}MR.FINALIZE 1\nVP.ENTER 1 4 9\nend\n")?)
}

#[test]
fn a_report_is_of_its_act(rt: HostRuntime) -> Result<(), Fail> {
    let alloc = rt.alloc();
    let script = script_with(alloc, "set 0 1\nreport")?;
    let report = digits(
        alloc,
        (NONE, NONE),
        "0100000000000000",
        "2820f0b7a4c0768d80ab5ccfcc673cb8aa27f704041ee6de6f1cc0e9caa151f5e1a425ae70b23c32464684100028add9",
    )?;
    notes(
        &rt,
        alloc,
        &script,
        &format!(in alloc; "0.9 report {report}\n")?,
    )?;
    // Behind an extension it has the new RTMR, and the registers of then.
    let script = script_with(alloc, "set 0 1\nrtmr 2\nset 0 7\nreport\nset 0 8")?;
    let report = digits(
        alloc,
        (NONE, BY_ONE),
        "0700000000000000",
        "dc15834d966c17242d8243b8936e73ac54d68d4a3ff8a28f8495b04b32fdd1bce3d0631935c04a698dc8dc9756655c87",
    )?;
    notes(
        &rt,
        alloc,
        &script,
        &format!(in alloc; "0.9 rtmr 2 {BY_ONE}\n0.9 report {report}\n")?,
    )
}

// The second VCPU's report meets the first one's extension, which holds R: a try, its undo and the exit.
#[test]
fn a_report_waits_for_the_rtmrs(rt: HostRuntime) -> Result<(), Fail> {
    let alloc = rt.alloc();
    let front = format!(in alloc;
        "machine 2 32 2\ncode 1 0\nrtmr 1\nend\ncode 1 1\nreport\nend\nlp 0\n{BUILT}{TREE}"
    )?;
    let script = format!(in alloc;
        "{front}VP.CREATE 1 9\nVP.INIT 1 9 0\nMR.FINALIZE 1\nVP.ENTER 1 4 9\nend\n\
        lp 1\nVP.ENTER 1 9 9\nVP.ENTER 1 9 9\nend\nschedule 0*89 1*6 0 1*6 0*2\n"
    )?;
    let (status, out, _) = does(&rt, alloc, "replay s --report-key h", &script)?;
    assert_eq!(rt; status, 0);
    let replies = str::from_utf8(&out.bytes)?;
    assert!(rt;
        replies.contains("1.1 EXIT BUSY R\n1.2 EXIT STOP\n"),
        "{replies}"
    );
    let report = digits(
        alloc,
        (BY_NONE, NONE),
        "0000000000000000",
        "66d09c6fd7fd7588bb9175c72c1c5edded45585370b1435fe9babd68f38c9ac4eec3a7c6779ae6655329e27d84b68e42",
    )?;
    notes(
        &rt,
        alloc,
        &script,
        &format!(in alloc; "0.14 rtmr 1 {BY_NONE}\n1.2 report {report}\n")?,
    )
}

// A script with a report, and one without.
const REPORTS: &str = "machine 1 8 1\ncode 1 0\nreport\nend\nlp 0\nHOST.READ 1 0\nend\n";

const READS: &str = "machine 1 8 1\nlp 0\nHOST.READ 1 0\nend\n";

const REPLY: &str = "0.1 SUCCESS 0\n";

const REPORT_KEY: &str = "report key file\n";

// Words, a script, the status and the text.
type Row<'a> = (&'a str, &'a str, u8, &'a str);

const ROWS: &[Row<'static>] = &[
    // It is needed where a list has a report, and tested where it is named.
    ("replay s --report-key h", REPORTS, 0, REPLY),
    ("run s --report-key h", REPORTS, 0, REPLY),
    ("replay s", REPORTS, 7, REPORT_KEY),
    ("run s", REPORTS, 7, REPORT_KEY),
    ("check s", REPORTS, 0, "ok 1 1 1 0\n"),
    ("replay s", READS, 0, REPLY),
    ("replay s --report-key h", READS, 0, REPLY),
    ("replay s --report-key h47", READS, 7, REPORT_KEY),
    ("replay s --report-key h49", READS, 7, REPORT_KEY),
    ("run s --report-key h65537", REPORTS, 7, REPORT_KEY),
    ("replay s --report-key x", REPORTS, 3, "cannot read x\n"),
    // It is loaded behind the others, and tested behind them.
    (
        "replay s --report-key x --secrets y",
        READS,
        3,
        "cannot read y\n",
    ),
    (
        "replay s --report-key x --secrets w4095",
        READS,
        3,
        "cannot read x\n",
    ),
    (
        "replay s --report-key h47 --secrets w4095",
        READS,
        7,
        "secrets file\n",
    ),
    ("replay s --secrets w4095", REPORTS, 7, "secrets file\n"),
    ("replay s --report-key h47 --keys h", READS, 7, "key file\n"),
];

#[test]
fn a_report_key_file_is_tested_last(rt: HostRuntime) -> Result<(), Fail> {
    let alloc = rt.alloc();
    for (line, script, status, want) in ROWS {
        let (got, out, _) = does(&rt, alloc, line, script)?;
        assert_eq!(rt; got, *status, "status of {line}");
        assert_eq!(rt; out.bytes.as_slice(), want.as_bytes(), "text of {line}");
    }
    Ok(())
}
