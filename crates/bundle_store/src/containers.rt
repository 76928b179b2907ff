//! Containers.

ghost use Rattle.std.specs.Prelude.{◌≡◌, ◌≤◌, length, IfOk};
ghost use Rattle.std.specs.Str.{bytes_eq};
ghost use Rattle.bundle_store.specs.Containers.{container_in, entries_in, container_bytes, AreInOrder, IsAnswered};

use crate::entries::{first_entry, put_entry};
use crate::faults::ContainerFault;
use std::alloc::{AllocError, Global};
use td_words::{OutOfMemory, SlotBundle};

/// What a container begins with.
const NAME: &str = "TDXBNDL1";

fn is(bytes: &[u8], name: &str) -> bool
    ensures { result ≡ bytes_eq bytes.now name.now }
{
    bytes == name.as_bytes()
}

/// The bundles of a container, or where its first fault is.
pub fn read_container(alloc: Global, bytes: &[u8]) -> Result<Vec<SlotBundle>, ContainerFault>
    ensures { IsAnswered (container_in bytes.now) result }
{
    if bytes.len() < 8 || !is(&bytes[..8], NAME) {
        return Err(ContainerFault::At(0));
    }
    read_entries(alloc, bytes)
}

/// The entries behind the first eight bytes.
fn read_entries(alloc: Global, bytes: &[u8]) -> Result<Vec<SlotBundle>, ContainerFault>
    requires { 8 ≤ length bytes.now }
    ensures { IsAnswered (entries_in bytes.now) result }
{
    let mut bundles = Vec::new(alloc);
    let mut rest = &bytes[8..];
    let mut least = 0;
    'each: for _turn in 0..bytes.len() {
        if rest.is_empty() {
            return Ok(bundles);
        }
        let Some((slot, body, more)) = first_entry(least, rest) else {
            return Err(ContainerFault::At((bytes.len() - rest.len()) as u64));
        };
        bundles.push(SlotBundle {
            slot,
            bytes: copy_of(alloc, body)?,
        })?;
        least = slot + 1;
        rest = more;
    }
    unreachable!()
}

fn copy_of(alloc: Global, bytes: &[u8]) -> Result<Vec<u8>, AllocError>
    ensures { IfOk result (λ v. v.items ≡ bytes.now) }
{
    let mut copy = Vec::new(alloc);
    copy.extend_from_slice(bytes)?;
    Ok(copy)
}

/// The bytes of a container of these bundles.
pub fn write_container(alloc: Global, bundles: &[SlotBundle]) -> Result<Vec<u8>, OutOfMemory>
    requires { AreInOrder 0 bundles.now }
    ensures { IfOk result (λ v. v.items ≡ container_bytes bundles.now) }
{
    match written(alloc, bundles) {
        Ok(bytes) => Ok(bytes),
        Err(_) => Err(OutOfMemory),
    }
}

fn written(alloc: Global, bundles: &[SlotBundle]) -> Result<Vec<u8>, AllocError>
    requires { AreInOrder 0 bundles.now }
    ensures { IfOk result (λ v. v.items ≡ container_bytes bundles.now) }
{
    let mut out = Vec::new(alloc);
    out.extend_from_slice(NAME.as_bytes())?;
    for bundle in bundles {
        put_entry(&mut out, bundle)?;
    }
    Ok(out)
}
