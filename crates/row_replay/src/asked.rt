//! How rows are replayed as they are asked for: by their own command lines, and on their own machine.

use crate::rows::{Row, replay_texts, saved, texts_of};
use crate::scripts::Beside;
use bundle_store::MemFiles;
use std::alloc::Global;
use std::test::Fail;
use std::thread::Threads;

/// A row as it is asked for: its command lines, with a semicolon between two, which name the script s, the keys
/// k, the report key r, the secrets z and the container c, and for what is saved the container b and the guest
/// file g; its machine; and the row, which each of these lines runs.
pub type Asked<'a> = (&'a str, &'a str, Row<'a>);

/// The words with which a secrets file begins, of which the others are 0, and rows.
pub type World<'a> = (&'a [u64], &'a [Asked<'a>]);

/// Replays a row by each of its command lines. The answer has the files that are there at the end of the last.
pub fn replay_lines<R: Threads + Sync>(
    threads: &R,
    alloc: Global,
    beside: Beside<'_>,
    asked: &Asked<'_>,
) -> Result<MemFiles, Fail> {
    let (lines, machine, row) = asked;
    let texts = texts_of(alloc, machine, row)?;
    let mut last = None;
    for line in lines.split(" ; ") {
        last = Some(replay_texts(threads, alloc, line, beside, &texts)?);
    }
    Ok(last.ok_or("no command line")?)
}

/// Replays rows as they are asked for, with the files beside the script. A row fails where its replies, its
/// guest file or its status differ.
pub fn replay_asked<R: Threads + Sync>(
    threads: &R,
    alloc: Global,
    beside: Beside<'_>,
    rows: &[Asked<'_>],
) -> Result<(), Fail> {
    for asked in rows {
        let _files = replay_lines(threads, alloc, beside, asked)?;
    }
    Ok(())
}

/// Replays rows of one processor that differ in its calls alone, each by the same command lines, on one machine,
/// with the same lists, and with the files beside the script.
pub fn replay_changes<R: Threads + Sync>(
    threads: &R,
    alloc: Global,
    beside: Beside<'_>,
    lines: &str,
    machine: &str,
    lists: &[&str],
    rows: &[&[&str]],
) -> Result<(), Fail> {
    for row in rows {
        let processors = [*row];
        let asked = (lines, machine, ("", lists, processors.as_slice(), ""));
        let _files = replay_lines(threads, alloc, beside, &asked)?;
    }
    Ok(())
}

/// Replays rows as they are asked for, with their secrets files.
pub fn replay_worlds<R: Threads + Sync>(
    threads: &R,
    alloc: Global,
    worlds: &[World<'_>],
) -> Result<(), Fail> {
    for (secrets, rows) in worlds {
        let beside = Beside {
            secrets: Some(*secrets),
            bundles: None,
        };
        replay_asked(threads, alloc, beside, *rows)?;
    }
    Ok(())
}

/// Replays a row as it is asked for, and answers the bytes of the container that it saved.
pub fn container_of_asked<R: Threads + Sync>(
    threads: &R,
    alloc: Global,
    beside: Beside<'_>,
    asked: &Asked<'_>,
) -> Result<Vec<u8>, Fail> {
    saved(alloc, &replay_lines(threads, alloc, beside, asked)?)
}
