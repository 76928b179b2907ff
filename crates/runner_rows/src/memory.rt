//! Files and outputs in memory.

use bundle_store::{
    Files, HonestFiles, HonestSink, LoadFault, MemFiles, MemSink, NamedFile, SaveFault, Sink,
};
use std::alloc::Global;
use std::test::Fail;

/// One file of that name.
pub fn one_file(alloc: Global, name: &str, bytes: &[u8]) -> Result<Vec<NamedFile>, Fail> {
    let mut files = Vec::new(alloc);
    files.push(NamedFile {
        name: String::from_str(alloc, name)?,
        bytes: bytes.to_vec(alloc)?,
    })?;
    Ok(files)
}

#[test]
fn memory_fails_where_it_is_listed(rt: HostRuntime) -> Result<(), Fail> {
    let alloc = rt.alloc();
    let mut files = MemFiles::new(alloc, one_file(alloc, "a", b"12")?, [1, 4].to_vec(alloc)?);
    assert!(rt; matches!(files.load(alloc, "a", 1), Err(LoadFault::TooLong)));
    assert!(rt; matches!(files.save(alloc, "b", b"3"), Err(SaveFault::Failed)));
    assert!(rt; matches!(files.load(alloc, "b", 1), Err(LoadFault::Absent)));
    assert!(rt; files.save(alloc, "b", b"4").is_ok());
    assert!(rt; matches!(files.load(alloc, "b", 1), Err(LoadFault::Failed)));
    assert!(rt; files.save(alloc, "a", b"5").is_ok());
    for (name, want) in [("a", b"5"), ("b", b"4")] {
        match files.load(alloc, name, 1) {
            Ok(bytes) => assert_eq!(rt; bytes.as_slice(), want.as_slice(), "of {name}"),
            Err(_) => assert!(rt; false, "no {name}"),
        }
    }
    let mut out = MemSink::new(alloc, [1].to_vec(alloc)?);
    for (bytes, is_put) in [(b"6", true), (b"7", false), (b"8", true)] {
        assert_eq!(rt; out.put(bytes).is_ok(), is_put);
    }
    assert_eq!(rt; out.bytes.as_slice(), b"68".as_slice());
    Ok(())
}

#[test]
fn honest_memory_takes_all(rt: HostRuntime) -> Result<(), Fail> {
    let alloc = rt.alloc();
    let mut files = HonestFiles::new(alloc, one_file(alloc, "a", b"1")?);
    assert!(rt; files.save(alloc, "b", b"2").is_ok());
    match files.load(alloc, "b", 1) {
        Ok(bytes) => assert_eq!(rt; bytes.as_slice(), b"2".as_slice()),
        Err(_) => assert!(rt; false, "no b"),
    }
    let mut out = HonestSink::new(alloc);
    assert!(rt; out.put(b"3").is_ok());
    assert_eq!(rt; out.bytes.as_slice(), b"3".as_slice());
    Ok(())
}
