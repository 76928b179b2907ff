//! Contents that are held in memory.

ghost use Rattle.std.specs.Prelude.{◌≡◌, ◌≢◌, Err, option_map, OnOk, OnErr, MatchOption};
ghost use Rattle.bundle_store.specs.Outside.{LoadsTold, IsSaved};
ghost use Rattle.bundle_store.specs.Held.{contents_in, FirstAt};

use crate::outside::{LoadFault, SaveFault};
use std::alloc::Global;
use std::marker::Model;

/// A name and its contents.
#[derive(Drop)]
pub struct NamedFile {
    pub name: String,
    pub bytes: Vec<u8>,
}

impl Model for NamedFile {
    ghost use Rattle.std.specs.Prelude.{string_bytes};
    ghost use Rattle.bundle_store.specs.Seen.{FileSeen};

    ghost Value = { FileSeen };

    ghost view = { λ f. record { name = string_bytes f.name; bytes = f.bytes.items } };
}

// Where the first file of that name stands.
fn place_of(files: &[NamedFile], name: &str) -> Option<usize>
    ensures { MatchOption result (contents_in files.now name.now ≡ None) (FirstAt files.now name.now) }
{
    for i in 0..files.len() {
        let file = &files[i];
        if file.name.as_str() == name {
            return Some(i);
        }
    }
    None
}

/// A copy of what these files have under a name, if it is at most `most` bytes.
pub fn load_copy(
    alloc: Global,
    files: &[NamedFile],
    name: &str,
    most: u64,
) -> Result<Vec<u8>, LoadFault>
    ensures told { LoadsTold (contents_in files.now name.now) most result }
    ensures honest { result ≢ Err LoadFault.Failed }
{
    let Some(place) = place_of(files, name) else {
        return Err(LoadFault::Absent);
    };
    let file = &files[place];
    if file.bytes.len() as u64 > most {
        return Err(LoadFault::TooLong);
    }
    match file.bytes.to_vec(alloc) {
        Ok(copy) => Ok(copy),
        Err(_) => Err(LoadFault::OutOfMemory),
    }
}

fn add(
    alloc: Global,
    files: &mut Vec<NamedFile>,
    name: &str,
    bytes: Vec<u8>,
) -> Result<(), SaveFault>
    requires { contents_in files.old.items name.now ≡ None }
    ensures told { OnOk result (IsSaved (contents_in files.old.items) name.now bytes.items (contents_in files.new.items)) }
    ensures kept { OnErr result (files.new.items ≡ files.old.items) }
    ensures honest { result ≢ Err SaveFault.Failed }
{
    let Ok(name) = String::from_str(alloc, name) else {
        return Err(SaveFault::OutOfMemory);
    };
    match files.push(NamedFile { name, bytes }) {
        Ok(()) => Ok(()),
        Err(_) => Err(SaveFault::OutOfMemory),
    }
}

/// Gives a name a copy of these bytes; its first file is replaced where there is one.
pub fn save_copy(
    alloc: Global,
    files: &mut Vec<NamedFile>,
    name: &str,
    bytes: &[u8],
) -> Result<(), SaveFault>
    ensures told { OnOk result (IsSaved (contents_in files.old.items) name.now bytes.now (contents_in files.new.items)) }
    ensures kept { OnErr result (files.new.items ≡ files.old.items) }
    ensures honest { result ≢ Err SaveFault.Failed }
{
    let Ok(copy) = bytes.to_vec(alloc) else {
        return Err(SaveFault::OutOfMemory);
    };
    match place_of(files, name) {
        Some(place) => {
            let file = &mut files[place];
            file.bytes = copy;
            Ok(())
        }
        None => add(alloc, files, name, copy),
    }
}
