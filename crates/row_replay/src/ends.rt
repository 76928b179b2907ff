//! How a row is asked for in other ways, which end otherwise: by other command lines, or where its files or its
//! output fail.

use crate::asked::{Asked, replay_lines};
use crate::rows::{Texts, texts_of};
use crate::scripts::{Beside, Failing, compare, compare_ending, ending_of, held};
use bundle_store::MemFiles;
use std::alloc::Global;
use std::test::Fail;
use std::thread::Threads;

/// What is put.
#[derive(Clone, Copy)]
pub enum Told<'a> {
    /// This text alone.
    Alone(&'a str),
    /// The replies, and this text behind them.
    Behind(&'a str),
}

/// A command line; the loads and saves that fail and the puts that do, by their numbers from 0; and what comes
/// of it: the status, what is put, and the names of what is saved, in that order.
pub type End<'a> = (&'a str, &'a [u64], &'a [u64], u8, Told<'a>, &'a str);

// What is put, as text.
fn text_of(alloc: Global, replies: &str, told: Told<'_>) -> Result<String, Fail> {
    match told {
        Told::Alone(text) => Ok(String::from_str(alloc, text)?),
        Told::Behind(text) => Ok(format!(in alloc; "{replies}{text}")?),
    }
}

// The names of what is saved among these files.
fn names_of(alloc: Global, files: &MemFiles) -> Result<String, Fail> {
    let mut names = String::new(alloc);
    for file in &files.files {
        let name = file.name.as_str();
        if name != "b" && name != "g" {
            continue;
        }
        if !names.is_empty() {
            names.push_str(" ")?;
        }
        names.push_str(name)?;
    }
    Ok(names)
}

// Whether each of these files has the bytes that it has where nothing fails.
fn compare_bytes(alloc: Global, files: &MemFiles, whole: &MemFiles) -> Result<(), Fail> {
    for file in &files.files {
        let name = file.name.as_str();
        let bytes = held(whole, name).ok_or("a file that nothing saves")?;
        if file.bytes.as_slice() == bytes {
            continue;
        }
        return Err(Fail::new(format!(in alloc; "other bytes of {name}")?));
    }
    Ok(())
}

// Compares an end with what is wanted, and what it saves with the files that are there where nothing fails.
fn replay_end<R: Threads + Sync>(
    threads: &R,
    alloc: Global,
    beside: Beside<'_>,
    texts: &Texts,
    whole: &MemFiles,
    end: &End<'_>,
) -> Result<(), Fail> {
    let (line, files, puts, status, told, names) = end;
    let failing = Failing {
        files: *files,
        puts: *puts,
    };
    let ending = ending_of(threads, alloc, line, beside, failing, &texts.script)?;
    let want = text_of(alloc, &texts.replies, *told)?;
    compare_ending(alloc, &ending, &want, *status, &texts.script)?;
    let got = names_of(alloc, &ending.files)?;
    compare(alloc, "files", got.as_bytes(), *names, &texts.script)?;
    compare_bytes(alloc, &ending.files, whole)
}

/// Replays a row as it is asked for, and then in each of these ways.
pub fn replay_ends<R: Threads + Sync>(
    threads: &R,
    alloc: Global,
    beside: Beside<'_>,
    asked: &Asked<'_>,
    ends: &[End<'_>],
) -> Result<(), Fail> {
    let whole = replay_lines(threads, alloc, beside, asked)?;
    let (_, machine, row) = asked;
    let texts = texts_of(alloc, machine, row)?;
    for end in ends {
        replay_end(threads, alloc, beside, &texts, &whole, end)?;
    }
    Ok(())
}
