//! Scripts in memory, replayed by the top call.

use crate::memory::one_file;
use bundle_store::{MemFiles, MemSink};
use leaf_engine::NoGate;
use script_runner::tdx_main;
use std::alloc::Global;
use std::process::Abort;
use std::test::Fail;
use std::thread::Threads;

fn words(alloc: Global, list: &[&str]) -> Result<Vec<String>, Fail> {
    let mut words = Vec::new(alloc);
    for word in list {
        words.push(String::from_str(alloc, word)?)?;
    }
    Ok(words)
}

// Replays or runs a script, and compares its status and its text.
fn prints<R: Abort + Threads + Sync>(
    rt: &R,
    alloc: Global,
    command: &str,
    script: &str,
    want: &str,
    status: u8,
) -> Result<(), Fail> {
    let replay = words(alloc, &[command, "s"])?;
    let mut files = MemFiles::new(
        alloc,
        one_file(alloc, "s", script.as_bytes())?,
        Vec::new(alloc),
    );
    let mut out = MemSink::new(alloc, Vec::new(alloc));
    let got = tdx_main(rt, alloc, &replay, &mut files, &mut out, &NoGate);
    assert_eq!(rt; got, status, "status of {script}");
    assert_eq!(rt; out.bytes.as_slice(), want.as_bytes(), "text of {script}");
    Ok(())
}

// The same of each row of a table: what is put, and behind a bar the script without its front.
fn prints_each<R: Abort + Threads + Sync>(
    rt: &R,
    alloc: Global,
    command: &str,
    front: &str,
    rows: &[&str],
    status: u8,
) -> Result<(), Fail> {
    for row in rows {
        let (want, rest) = row.split_once("| ").ok_or("no bar")?;
        let script = format!(in alloc; "{front}{rest}")?;
        prints(rt, alloc, command, script.as_str(), want, status)?;
    }
    Ok(())
}

const REPLIES: &[&str] = &[
    "| machine 1 8 1\n",
    "| machine 2 8 1\n",
    "0.1 SUCCESS\n0.2 SUCCESS 7\n0.3 OPERAND_INVALID 2\n\
        | machine 1 8 1\nlp 0\nHOST.WRITE 5 511 7\nHOST.READ 5 511\nHOST.READ 5 512\nend\n",
    "0.1 OPERAND_INVALID 1\n| machine 1 8 1\nlp 0\nHOST.READ 8 0\nend\n",
    "0.1 SUCCESS\n0.2 SUCCESS 0\n0.3 NOT_HOST\n0.4 PAGE_METADATA_INCORRECT 1\n\
        0.5 HKID_NOT_FREE\n0.6 SUCCESS PT_TDR 1 0\n\
        | machine 1 32 1\nlp 0\nMNG.CREATE 1 1\nHOST.READ 1 0\nHOST.WRITE 1 0 9\nMNG.CREATE 1 1\n\
        MNG.CREATE 2 1\nPHYMEM.PAGE.RDMD 1\nend\n",
    // A page's words are cleared as it becomes a TDR, and the host sees none of them.
    "0.1 SUCCESS\n0.2 SUCCESS\n0.3 SUCCESS 0\n0.4 SUCCESS PT_NDA 0 0\n0.5 OPERAND_INVALID 2\n\
        | machine 1 8 2\nlp 0\nHOST.WRITE 1 3 4\nMNG.CREATE 1 2\nHOST.READ 1 3\n\
        PHYMEM.PAGE.RDMD 2\nMNG.CREATE 2 3\nend\n",
];

const BAD_LINES: &[&str] = &[
    "script line 3 UNTERMINATED\n| machine 1 8 1\nlp 0\nHOST.RE",
    "script line 3 COUNT\n| machine 1 8 1\nlp 0\nHOST.READ 5\nend\n",
    "script line 3 RANGE\n| machine 1 8 1\ncode 1 0\nsecret 0 512\nend\n",
    "script line 3 COUNT\n| machine 1 8 1\nlp 0\nIMPORT.MEM 1\n",
    "script line 3 RANGE\n| machine 1 8 1\nlp 0\nIMPORT.ABORT 1 4096\nend\n",
    "script line 4 ENDLESS\n| machine 1 8 1\nlp 0\nHOST.READ 5 0\n",
    "script line 3 MACHINE\n| # nothing\n\n",
    "script line 1 RANGE\n| machine 9 8 1\n",
    "script line 2 RANGE\n| machine 2 8 1\nschedule 2\n",
    "script line 2 RANGE\n| machine 1 8 1\nschedule 0*1048577\n",
    "script line 2 FULL\n| machine 1 8 1\nschedule 0*1048576 0\n",
];

#[test]
fn scripts_print_their_replies(rt: HostRuntime) -> Result<(), Fail> {
    // One processor's run in a thread has the order of its lines.
    for command in ["replay", "run"] {
        prints_each(&rt, rt.alloc(), command, "", REPLIES, 0)?;
        prints_each(&rt, rt.alloc(), command, "", BAD_LINES, 2)?;
    }
    Ok(())
}

// Behind `machine 2 32 1`.
const TWO_PROCESSORS: &[&str] = &[
    // A page that is held alone.
    "0.1 SUCCESS\n1.1 OPERAND_BUSY P 1\n\
        | lp 0\nMNG.CREATE 1 1\nend\nlp 1\nHOST.READ 1 0\nend\nschedule 0 1*2\n",
    // Shared tries of a page don't deny one another.
    "0.1 SUCCESS 0\n1.1 SUCCESS 0\n\
        | lp 0\nHOST.READ 1 0\nend\nlp 1\nHOST.READ 1 0\nend\nschedule 0 1 0 1\n",
    // Without a schedule the processors run in number order.
    "0.1 SUCCESS\n1.1 PAGE_METADATA_INCORRECT 1\n\
        | lp 1\nMNG.CREATE 1 1\nend\nlp 0\nMNG.CREATE 1 1\nend\n",
    // What is left of a processor when the schedule ends comes in number order.
    "0.1 OPERAND_BUSY K\n1.1 SUCCESS\n\
        | lp 0\nMNG.CREATE 2 1\nend\nlp 1\nMNG.CREATE 1 1\nend\nschedule 1*2\n",
    // Schedule lines stand anywhere outside blocks, and are one schedule.
    "0.1 SUCCESS\n1.1 OPERAND_BUSY P 1\n\
        | schedule 0\nlp 0\nMNG.CREATE 1 1\nend\nschedule 1\nlp 1\nHOST.READ 1 0\nend\nschedule 1\n",
];

// HOST.READ against MNG.CREATE: before its first event, up to before its last, and after it.
const READ_AGAINST_CREATE: &[&str] = &[
    "0.1 SUCCESS\n0.2 OPERAND_BUSY P 1\n1.1 SUCCESS 7\n| schedule 0*3 1\n",
    "0.1 SUCCESS\n0.2 SUCCESS\n1.1 OPERAND_BUSY P 1\n| schedule 0*4 1\n",
    "0.1 SUCCESS\n0.2 SUCCESS\n1.1 OPERAND_BUSY P 1\n| schedule 0*7 1\n",
    "0.1 SUCCESS\n0.2 SUCCESS\n1.1 SUCCESS 0\n| schedule 0*8 1\n",
];

// Processor 2 is denied by processor 1, which is being refused. Had that one undone its try before,
// processor 2 would get the page as it is now.
const DENIED_BY_THE_DENIED: &[&str] = &[
    "0.1 SUCCESS\n1.1 OPERAND_BUSY P 1\n2.1 OPERAND_BUSY P 1\n| schedule 0 1 0*4 2 1\n",
    "0.1 SUCCESS\n1.1 OPERAND_BUSY P 1\n2.1 PAGE_METADATA_INCORRECT 1\n| schedule 0 1 0*4 1 2\n",
];

// Behind `machine`.
const MORE_PROCESSORS: &[&str] = &[
    // Two processors meet at the key table.
    "0.1 SUCCESS\n1.1 OPERAND_BUSY K\n\
        | 2 32 2\nlp 0\nMNG.CREATE 1 1\nend\nlp 1\nMNG.CREATE 2 1\nend\nschedule 0*2 1*2\n",
    // A schedule that names processors out of order.
    "0.1 PAGE_METADATA_INCORRECT 1\n1.1 PAGE_METADATA_INCORRECT 1\n2.1 SUCCESS\n\
        | 3 32 1\nlp 0\nMNG.CREATE 1 1\nend\nlp 1\nMNG.CREATE 1 1\nend\nlp 2\nMNG.CREATE 1 1\nend\n\
        schedule 2*5 1*3\n",
    // Items of a processor that has ended, or has no calls, do nothing.
    "0.1 SUCCESS 0\n1.1 SUCCESS\n\
        | 3 32 1\nlp 0\nHOST.READ 1 0\nend\nlp 1\nMNG.CREATE 1 1\nend\n\
        schedule 2*3 0*9 1*5 0 1 2\n",
    // Eight processors.
    "3.1 SUCCESS 7\n7.1 SUCCESS\n\
        | 8 8 1\nlp 7\nHOST.WRITE 7 7 7\nend\nlp 3\nHOST.READ 7 7\nend\nschedule 7*3\n",
    "| 1 8 1\nschedule 0*1048576\n",
];

#[test]
fn processors_follow_the_schedule(rt: HostRuntime) -> Result<(), Fail> {
    let reads = "machine 2 32 1\nlp 0\nHOST.WRITE 1 0 7\nMNG.CREATE 1 1\nend\n\
        lp 1\nHOST.READ 1 0\nend\n";
    let denied = "machine 3 32 1\nlp 0\nMNG.CREATE 1 1\nend\nlp 1\nHOST.READ 1 0\nend\n\
        lp 2\nMNG.CREATE 1 1\nend\n";
    let tables = [
        ("machine 2 32 1\n", TWO_PROCESSORS),
        (reads, READ_AGAINST_CREATE),
        (denied, DENIED_BY_THE_DENIED),
        ("machine ", MORE_PROCESSORS),
    ];
    for (front, rows) in tables {
        prints_each(&rt, rt.alloc(), "replay", front, rows, 0)?;
    }
    Ok(())
}

// Processors whose locks don't meet, in threads: whatever their order is, these are the replies. The
// schedule is read, and isn't used.
const APART: &[&str] = &[
    "0.1 SUCCESS\n0.2 SUCCESS 7\n1.1 SUCCESS\n1.2 SUCCESS 8\n\
        | machine 2 32 1\nlp 0\nHOST.WRITE 5 0 7\nHOST.READ 5 0\nend\n\
        lp 1\nHOST.WRITE 6 0 8\nHOST.READ 6 0\nend\n",
    "0.1 SUCCESS\n0.2 SUCCESS 7\n1.1 SUCCESS\n1.2 SUCCESS 8\n\
        | machine 2 8 1\nlp 0\nHOST.WRITE 5 0 7\nHOST.READ 5 0\nend\n\
        lp 1\nHOST.WRITE 6 0 8\nHOST.READ 6 0\nend\nschedule 0*2 1*9 0\n",
    "0.1 SUCCESS PT_NDA 0 0\n3.1 SUCCESS 0\n7.1 SUCCESS 0\n\
        | machine 8 8 1\nlp 7\nHOST.READ 7 7\nend\nlp 3\nHOST.READ 6 7\nend\nlp 0\n\
        PHYMEM.PAGE.RDMD 5\nend\n",
];

#[test]
fn processors_run_in_threads(rt: HostRuntime) -> Result<(), Fail> {
    prints_each(&rt, rt.alloc(), "run", "", APART, 0)
}

const USAGE: &[u8] =
    b"usage: tdx replay|run SCRIPT [--bundles F] [--keys F] [--secrets F] [--out-bundles F] [--guest-out F] [--report-key F] | tdx check SCRIPT | tdx soak N | tdx verify FILE KEY\n";

const SCRIPT: &[u8] =
    b"machine 1 8 1\nlp 0\nHOST.WRITE 5 511 7\nHOST.READ 5 511\nHOST.READ 5 512\nend\n";

#[test]
fn faults_end_with_their_status(rt: HostRuntime) -> Result<(), Fail> {
    // The name of the script's file, words, the calls of files that fail, the puts that do, the status, and the
    // text.
    let table: [(&str, &[&str], &[u64], &[u64], u8, &[u8]); 11] = [
        ("s", &["replay", "s"], &[0], &[], 3, b"cannot read s\n"),
        ("t", &["replay", "s"], &[], &[], 3, b"cannot read s\n"),
        ("s", &["replay", "s"], &[], &[0], 4, b""),
        // Failed puts of other texts than the replies leave the status.
        ("t", &["replay", "s"], &[], &[0], 3, b""),
        ("s", &["replay"], &[], &[0], 1, b""),
        ("s", &["replay"], &[], &[], 1, USAGE),
        ("s", &[], &[], &[], 1, USAGE),
        ("s", &["runs", "s"], &[], &[], 1, USAGE),
        ("s", &["run", "s"], &[0], &[], 3, b"cannot read s\n"),
        ("s", &["replay", "-s"], &[], &[], 1, USAGE),
        ("s", &["replay", "s", "t"], &[], &[], 1, USAGE),
    ];
    let alloc = rt.alloc();
    for (name, list, loads, puts, status, want) in table {
        let mut files = MemFiles::new(alloc, one_file(alloc, name, SCRIPT)?, loads.to_vec(alloc)?);
        let mut out = MemSink::new(alloc, puts.to_vec(alloc)?);
        let got = tdx_main(
            &rt,
            alloc,
            &words(alloc, list)?,
            &mut files,
            &mut out,
            &NoGate,
        );
        assert_eq!(rt; got, status, "status");
        assert_eq!(rt; out.bytes.as_slice(), want, "text at {status}");
    }
    Ok(())
}
