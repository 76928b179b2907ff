//! How a script is made of what processors call, and replayed with the files of a row.

use bundle_store::{MemFiles, MemSink, NamedFile};
use leaf_engine::NoGate;
use script_runner::tdx_main;
use std::alloc::Global;
use std::test::Fail;
use std::thread::Threads;

// Adds a list's calls to a processor's block, and their replies to what is wanted.
fn add_list(
    alloc: Global,
    script: &mut String,
    want: &mut String,
    lp: usize,
    number: &mut u32,
    list: &str,
) -> Result<(), Fail> {
    let (reply, calls) = list.split_once(" | ").ok_or("no bar")?;
    for call in calls.split(" | ") {
        script.push_str(&format!(in alloc; "{call}\n")?)?;
        want.push_str(&format!(in alloc; "{lp}.{number} {reply}\n")?)?;
        *number = number.wrapping_add(1);
    }
    Ok(())
}

// Adds a processor's block to the script, and its replies to what is wanted.
fn add_processor(
    alloc: Global,
    script: &mut String,
    want: &mut String,
    lp: usize,
    row: &[&str],
) -> Result<(), Fail> {
    script.push_str(&format!(in alloc; "lp {lp}\n")?)?;
    let mut number: u32 = 1;
    for lists in row {
        for list in lists.split(" ; ") {
            add_list(alloc, script, want, lp, &mut number, list)?;
        }
    }
    script.push_str("end\n")?;
    Ok(())
}

/// Adds the blocks of processors 0, 1 and so on to the script, and their replies to what is wanted.
pub fn add_processors(
    alloc: Global,
    script: &mut String,
    want: &mut String,
    rows: &[&[&str]],
) -> Result<(), Fail> {
    for (lp, row) in rows.iter().enumerate() {
        add_processor(alloc, script, want, lp, row)?;
    }
    Ok(())
}

/// Adds a schedule to the script, where it isn't empty.
pub fn add_schedule(alloc: Global, script: &mut String, schedule: &str) -> Result<(), Fail> {
    if !schedule.is_empty() {
        script.push_str(&format!(in alloc; "schedule {schedule}\n")?)?;
    }
    Ok(())
}

// The bytes of a secrets file that begins with these words.
fn secrets_file(alloc: Global, words: &[u64]) -> Result<Vec<u8>, Fail> {
    let mut bytes = Vec::new(alloc);
    for word in words {
        bytes.extend_from_slice(&word.to_le_bytes())?;
    }
    for _ in words.len()..512 {
        bytes.extend_from_slice(&[0u8; 8])?;
    }
    Ok(bytes)
}

// The bytes of a key file, from 0 on.
fn key_file(alloc: Global, length: u8) -> Result<Vec<u8>, Fail> {
    let mut bytes = Vec::new(alloc);
    for byte in 0u8..length {
        bytes.push(byte)?;
    }
    Ok(bytes)
}

fn file(alloc: Global, name: &str, bytes: Vec<u8>) -> Result<NamedFile, Fail> {
    Ok(NamedFile {
        name: String::from_str(alloc, name)?,
        bytes,
    })
}

/// What stands beside a script s, keys k of bytes 0 to 63 and a report key r of bytes 0 to 47, where it is given:
/// the words with which the secrets file z begins, whose others are 0, and the container c. The file z4095 is z
/// without its last byte.
#[derive(Clone, Copy)]
pub struct Beside<'a> {
    pub secrets: Option<&'a [u64]>,
    pub bundles: Option<&'a [u8]>,
}

/// No file beside a script but its keys and its report key.
pub const ALONE: Beside<'static> = Beside {
    secrets: None,
    bundles: None,
};

/// The calls of the outside that fail, by their numbers from 0: loads and saves, which are counted
/// together, and puts.
#[derive(Clone, Copy)]
pub struct Failing<'a> {
    pub files: &'a [u64],
    pub puts: &'a [u64],
}

const NO_CALL: Failing<'static> = Failing {
    files: &[],
    puts: &[],
};

// The script, and the files beside it.
fn files_of(
    alloc: Global,
    text: &str,
    beside: Beside<'_>,
    failing: &[u64],
) -> Result<MemFiles, Fail> {
    let mut files = Vec::new(alloc);
    files.push(file(alloc, "s", text.as_bytes().to_vec(alloc)?)?)?;
    files.push(file(alloc, "k", key_file(alloc, 64)?)?)?;
    files.push(file(alloc, "r", key_file(alloc, 48)?)?)?;
    if let Some(words) = beside.secrets {
        let bytes = secrets_file(alloc, words)?;
        let mut cut = bytes.clone()?;
        cut.pop();
        files.push(file(alloc, "z", bytes)?)?;
        files.push(file(alloc, "z4095", cut)?)?;
    }
    if let Some(bytes) = beside.bundles {
        files.push(file(alloc, "c", bytes.to_vec(alloc)?)?)?;
    }
    Ok(MemFiles::new(alloc, files, failing.to_vec(alloc)?))
}

// The words of a command line.
fn words_of(alloc: Global, line: &str) -> Result<Vec<String>, Fail> {
    let mut words = Vec::new(alloc);
    for word in line.split(' ') {
        words.push(String::from_str(alloc, word)?)?;
    }
    Ok(words)
}

/// The bytes that a name has.
pub fn held<'a>(files: &'a MemFiles, name: &str) -> Option<&'a [u8]> {
    for file in &files.files {
        if file.name.as_str() == name {
            return Some(file.bytes.as_slice());
        }
    }
    None
}

/// Whether a text is the one that is wanted.
pub fn compare(
    alloc: Global,
    what: &str,
    text: &[u8],
    wanted: &str,
    script: &str,
) -> Result<(), Fail> {
    if text == wanted.as_bytes() {
        return Ok(());
    }
    let told = str::from_utf8(text).unwrap_or("no text");
    Err(Fail::new(format!(in alloc; "{what}: {told} in place of {wanted} of {script}")?))
}

/// What a script ends with: its status, its output, and the files that are there then.
#[derive(Drop)]
pub struct Ending {
    pub status: u8,
    pub out: MemSink,
    pub files: MemFiles,
}

/// What a command line ends with, over a script and the files beside it, where those calls fail.
pub fn ending_of<R: Threads + Sync>(
    threads: &R,
    alloc: Global,
    line: &str,
    beside: Beside<'_>,
    failing: Failing<'_>,
    script: &str,
) -> Result<Ending, Fail> {
    let words = words_of(alloc, line)?;
    let mut files = files_of(alloc, script, beside, failing.files)?;
    let mut out = MemSink::new(alloc, failing.puts.to_vec(alloc)?);
    let status = tdx_main(threads, alloc, &words, &mut files, &mut out, &NoGate);
    Ok(Ending { status, out, files })
}

/// Whether a script's text and its status are those that are wanted.
pub fn compare_ending(
    alloc: Global,
    ending: &Ending,
    want: &str,
    status: u8,
    script: &str,
) -> Result<(), Fail> {
    compare(alloc, "text", &ending.out.bytes, want, script)?;
    if ending.status != status {
        let got = ending.status;
        return Err(Fail::new(format!(in alloc; "status {got} of {script}")?));
    }
    Ok(())
}

/// Replays a script by a command line, with the files beside it, and compares its text and its status. The
/// answer has the files that are there then.
pub fn replay_script<R: Threads + Sync>(
    threads: &R,
    alloc: Global,
    line: &str,
    beside: Beside<'_>,
    script: &str,
    want: &str,
) -> Result<MemFiles, Fail> {
    let ending = ending_of(threads, alloc, line, beside, NO_CALL, script)?;
    compare_ending(alloc, &ending, want, 0, script)?;
    Ok(ending.files)
}
