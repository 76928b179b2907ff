//! How rows are replayed to which bundles come in, some of them made of others by turning their bytes.

use crate::asked::replay_changes;
use crate::rows::{Row, replay, saved};
use crate::scripts::Beside;
use bundle_store::{MemFiles, read_container};
use std::alloc::Global;
use std::test::Fail;
use std::thread::Threads;
use td_words::SlotBundle;

/// What is done to a bundle's bytes.
#[derive(Clone, Copy)]
pub enum Edit {
    /// The bundle isn't there.
    Gone,
    /// It has so many bytes: it is cut, or has zeros behind it.
    Length(usize),
    /// That byte has that value.
    Put(usize, u8),
    /// The lowest bit of that byte is turned.
    Turn(usize),
}

/// A bundle that comes in: the slot of the one that it is made of, its own slot, and what is done to it.
pub type Forged<'a> = (u16, u16, &'a [Edit]);

/// What is made of the bundles that come in, and a row.
pub type ArrivalRow<'a> = (&'a [Forged<'a>], Row<'a>);

/// What is made of the bundles that come in, and what one processor calls.
pub type ForgedRow<'a> = (&'a [Forged<'a>], &'a [&'a str]);

// The bytes in that length.
fn of_length(alloc: Global, bytes: &[u8], length: usize) -> Result<Vec<u8>, Fail> {
    let mut made = Vec::new(alloc);
    for place in 0..length {
        made.push(if place < bytes.len() { bytes[place] } else { 0 })?;
    }
    Ok(made)
}

// The bytes with that one turned by these bits.
fn turned(alloc: Global, bytes: &[u8], at: usize, bits: u8) -> Result<Vec<u8>, Fail> {
    let mut made = bytes.to_vec(alloc)?;
    if at < made.len() {
        made[at] ^= bits;
    }
    Ok(made)
}

// The bytes with that value for one.
fn put(alloc: Global, bytes: &[u8], at: usize, value: u8) -> Result<Vec<u8>, Fail> {
    let mut made = bytes.to_vec(alloc)?;
    if at < made.len() {
        made[at] = value;
    }
    Ok(made)
}

// The bytes once all is done to them, or none.
fn edited(alloc: Global, bytes: &[u8], edits: &[Edit]) -> Result<Option<Vec<u8>>, Fail> {
    let mut made = bytes.to_vec(alloc)?;
    for edit in edits {
        made = match *edit {
            Edit::Gone => return Ok(None),
            Edit::Length(length) => of_length(alloc, &made, length)?,
            Edit::Put(at, value) => put(alloc, &made, at, value)?,
            Edit::Turn(at) => turned(alloc, &made, at, 1)?,
        };
    }
    Ok(Some(made))
}

// The bundle at that slot.
fn at_slot(bundles: &[SlotBundle], slot: u16) -> Option<&[u8]> {
    for bundle in bundles {
        if bundle.slot == slot {
            return Some(bundle.bytes.as_slice());
        }
    }
    None
}

// What comes in at that slot.
fn coming(
    alloc: Global,
    bundles: &[SlotBundle],
    forged: &[Forged<'_>],
    slot: u16,
) -> Result<Option<Vec<u8>>, Fail> {
    for (from, to, edits) in forged {
        if *to == slot {
            let bytes = at_slot(bundles, *from).ok_or("no bundle is there")?;
            return edited(alloc, bytes, edits);
        }
    }
    match at_slot(bundles, slot) {
        Some(bytes) => Ok(Some(bytes.to_vec(alloc)?)),
        None => Ok(None),
    }
}

// The length of a bundle that a container may have.
fn length_of(bytes: &[u8]) -> Option<u32> {
    let length = bytes.len();
    if length <= 131_072 {
        Some(length as u32)
    } else {
        None
    }
}

// Adds a bundle to a container.
fn add_bundle(container: &mut Vec<u8>, slot: u16, bytes: &[u8]) -> Result<(), Fail> {
    let length = length_of(bytes).ok_or("a long bundle")?;
    container.extend_from_slice(&u32::from(slot).to_le_bytes())?;
    container.extend_from_slice(&length.to_le_bytes())?;
    container.extend_from_slice(bytes)?;
    Ok(())
}

// The container that comes in: the bundles of another one, and those that are made of them.
fn arriving(alloc: Global, container: &[u8], forged: &[Forged<'_>]) -> Result<Vec<u8>, Fail> {
    if forged.is_empty() {
        return Ok(container.to_vec(alloc)?);
    }
    let bundles = read_container(alloc, container)?;
    let mut made = "TDXBNDL1".as_bytes().to_vec(alloc)?;
    for slot in 0u16..4096 {
        if let Some(bytes) = coming(alloc, &bundles, forged, slot)? {
            add_bundle(&mut made, slot, &bytes)?;
        }
    }
    Ok(made)
}

// Replays a row to which the bundles of a container come, turned so.
fn replay_arrival<R: Threads + Sync>(
    threads: &R,
    alloc: Global,
    container: &[u8],
    forged: &[Forged<'static>],
    row: &Row<'static>,
) -> Result<MemFiles, Fail> {
    let made = arriving(alloc, container, forged)?;
    let beside = Beside {
        secrets: None,
        bundles: Some(made.as_slice()),
    };
    replay(threads, alloc, beside, row)
}

/// Replays rows to which the bundles of a container come, turned as each says.
pub fn replay_arrivals<R: Threads + Sync>(
    threads: &R,
    alloc: Global,
    container: &[u8],
    rows: &[ArrivalRow<'static>],
) -> Result<(), Fail> {
    for (forged, row) in rows {
        let _files = replay_arrival(threads, alloc, container, *forged, row)?;
    }
    Ok(())
}

/// Replays rows of one processor that differ in its calls and in what is made of the bundles that come in, each by
/// the same command lines, on one machine and with the same lists.
pub fn replay_forged<R: Threads + Sync>(
    threads: &R,
    alloc: Global,
    container: &[u8],
    lines: &str,
    machine: &str,
    lists: &[&str],
    rows: &[ForgedRow<'_>],
) -> Result<(), Fail> {
    for (forged, row) in rows {
        let made = arriving(alloc, container, *forged)?;
        let beside = Beside {
            secrets: None,
            bundles: Some(made.as_slice()),
        };
        replay_changes(threads, alloc, beside, lines, machine, lists, &[*row])?;
    }
    Ok(())
}

/// Replays a row to which the bundles of a container come as they are, and answers the bytes of the
/// container that it saved.
pub fn container_of_arrival<R: Threads + Sync>(
    threads: &R,
    alloc: Global,
    container: &[u8],
    row: &Row<'static>,
) -> Result<Vec<u8>, Fail> {
    let files = replay_arrival(threads, alloc, container, &[], row)?;
    saved(alloc, &files)
}
