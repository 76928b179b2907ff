//! How rows of calls alone are replayed: by command lines and on a machine that are given, and races of
//! processors.

use crate::scripts::{ALONE, add_processors, add_schedule, replay_script};
use std::alloc::Global;
use std::test::Fail;
use std::thread::Threads;

/// Replays the rows of processors 0, 1 and so on by command lines, with a semicolon between two, on a machine
/// and under a schedule as a script has them (an empty one: none), and compares the replies.
pub fn replays<R: Threads + Sync>(
    threads: &R,
    alloc: Global,
    lines: &str,
    machine: &str,
    schedule: &str,
    rows: &[&[&str]],
) -> Result<(), Fail> {
    let mut script = format!(in alloc; "machine {machine}\n")?;
    let mut want = String::new(alloc);
    add_processors(alloc, &mut script, &mut want, rows)?;
    add_schedule(alloc, &mut script, schedule)?;
    for line in lines.split(" ; ") {
        let _files = replay_script(threads, alloc, line, ALONE, &script, &want)?;
    }
    Ok(())
}

/// Replays rows of one processor each, by the same command lines and on one machine.
pub fn replay_each<R: Threads + Sync>(
    threads: &R,
    alloc: Global,
    lines: &str,
    machine: &str,
    rows: &[&[&str]],
) -> Result<(), Fail> {
    for row in rows {
        replays(threads, alloc, lines, machine, "", &[row])?;
    }
    Ok(())
}

// A race: a schedule, and what processor 1 calls under it; behind two bars what processor 2 calls.
fn replay<'a, R: Threads + Sync>(
    threads: &R,
    alloc: Global,
    hkids: u8,
    zero: &[&'a str],
    race: &'a str,
) -> Result<(), Fail> {
    let (schedule, others) = race.split_once(" | ").ok_or("no bar")?;
    match others.split_once(" || ") {
        Some((one, two)) => {
            let machine = format!(in alloc; "3 32 {hkids}")?;
            let rows: [&[&str]; 3] = [&*zero, &[one], &[two]];
            replays(threads, alloc, "replay s", &machine, schedule, &rows)
        }
        None => {
            let machine = format!(in alloc; "2 32 {hkids}")?;
            let rows: [&[&str]; 2] = [&*zero, &[others]];
            replays(threads, alloc, "replay s", &machine, schedule, &rows)
        }
    }
}

/// Replays races of two or three processors, on 32 pages with so many HKIDs. Each row has what processor 0
/// calls, and then races, which begin with a number. There a semicolon stands between two lists of a
/// processor.
pub fn replay_races<R: Threads + Sync>(
    threads: &R,
    alloc: Global,
    hkids: u8,
    rows: &[&[&str]],
) -> Result<(), Fail> {
    for row in rows {
        let mut zero = Vec::new(alloc);
        for text in *row {
            match text.as_bytes().first() {
                Some(b'0'..=b'9') => replay(threads, alloc, hkids, zero.as_slice(), *text)?,
                _ => zero.push(*text)?,
            }
        }
    }
    Ok(())
}
