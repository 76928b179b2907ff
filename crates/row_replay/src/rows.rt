//! How rows of calls and guests are replayed.

use crate::scripts::{ALONE, Beside, add_processors, add_schedule, compare, held, replay_script};
use bundle_store::MemFiles;
use std::alloc::Global;
use std::test::Fail;
use std::thread::Threads;

/// A row: its schedule (an empty one: none), the lists of its VCPUs, what each processor calls, and
/// the lines of the guest file.
pub type Row<'a> = (&'a str, &'a [&'a str], &'a [&'a [&'a str]], &'a str);

/// The words with which a secrets file begins, of which the others are 0, and a row.
pub type SecretRow<'a> = (&'a [u64], Row<'a>);

// Adds a VCPU's list to the script.
fn add_code(script: &mut String, list: &str) -> Result<(), Fail> {
    script.push_str("code ")?;
    for line in list.split(" | ") {
        script.push_str(line)?;
        script.push_str("\n")?;
    }
    script.push_str("end\n")?;
    Ok(())
}

// The bytes of a guest file with these lines.
fn guest_file(alloc: Global, lines: &str) -> Result<String, Fail> {
    let mut text = String::new(alloc);
    if !lines.is_empty() {
        for line in lines.split(" | ") {
            text.push_str(line)?;
            text.push_str("\n")?;
        }
    }
    Ok(text)
}

/// What a row says as text: its script, its replies, and its guest file.
#[derive(Drop)]
pub struct Texts {
    pub script: String,
    pub replies: String,
    pub guest: String,
}

/// The texts of a row on a machine.
pub fn texts_of(alloc: Global, machine: &str, row: &Row<'_>) -> Result<Texts, Fail> {
    let (schedule, lists, processors, guest) = row;
    let mut script = format!(in alloc; "machine {machine}\n")?;
    let mut replies = String::new(alloc);
    for list in lists.iter() {
        add_code(&mut script, list)?;
    }
    add_processors(alloc, &mut script, &mut replies, processors)?;
    add_schedule(alloc, &mut script, schedule)?;
    let guest = guest_file(alloc, guest)?;
    Ok(Texts {
        script,
        replies,
        guest,
    })
}

/// Replays texts by a command line, with the files beside the script, and compares the replies and the guest
/// file. The answer has the files that are there then.
pub fn replay_texts<R: Threads + Sync>(
    threads: &R,
    alloc: Global,
    line: &str,
    beside: Beside<'_>,
    texts: &Texts,
) -> Result<MemFiles, Fail> {
    let files = replay_script(threads, alloc, line, beside, &texts.script, &texts.replies)?;
    let saved = held(&files, "g").unwrap_or(b"");
    compare(alloc, "guest file", saved, &texts.guest, &texts.script)?;
    Ok(files)
}

// The command line of a row that names none.
fn line_of(alloc: Global, beside: Beside<'_>) -> Result<String, Fail> {
    let mut line = String::from_str(alloc, "replay s --keys k --out-bundles b --guest-out g")?;
    if beside.secrets.is_some() {
        line.push_str(" --secrets z")?;
    }
    if beside.bundles.is_some() {
        line.push_str(" --bundles c")?;
    }
    Ok(line)
}

/// Replays a row that names no command line and no machine.
pub fn replay<R: Threads + Sync>(
    threads: &R,
    alloc: Global,
    beside: Beside<'_>,
    row: &Row<'static>,
) -> Result<MemFiles, Fail> {
    let lps = row.2.len();
    let machine = format!(in alloc; "{lps} 32 2")?;
    let texts = texts_of(alloc, &machine, row)?;
    let line = line_of(alloc, beside)?;
    replay_texts(threads, alloc, &line, beside, &texts)
}

/// Replays rows that name no command line and no machine. A row fails where its replies, its guest file or
/// its status differ.
pub fn replay_rows<R: Threads + Sync>(
    threads: &R,
    alloc: Global,
    rows: &[Row<'static>],
) -> Result<(), Fail> {
    for row in rows {
        replay(threads, alloc, ALONE, row)?;
    }
    Ok(())
}

/// Replays rows with their secrets files in the same way.
pub fn replay_secret_rows<R: Threads + Sync>(
    threads: &R,
    alloc: Global,
    rows: &[SecretRow<'static>],
) -> Result<(), Fail> {
    for (secrets, row) in rows {
        let beside = Beside {
            secrets: Some(*secrets),
            bundles: None,
        };
        replay(threads, alloc, beside, row)?;
    }
    Ok(())
}

/// Replays a row in the same way, and answers the bytes of the container that it saved.
pub fn container_of_row<R: Threads + Sync>(
    threads: &R,
    alloc: Global,
    row: &Row<'static>,
) -> Result<Vec<u8>, Fail> {
    saved(alloc, &replay(threads, alloc, ALONE, row)?)
}

/// The bytes of the container that was saved among these files.
pub fn saved(alloc: Global, files: &MemFiles) -> Result<Vec<u8>, Fail> {
    let container = held(files, "b").ok_or("no container")?;
    Ok(container.to_vec(alloc)?)
}
