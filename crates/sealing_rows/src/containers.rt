use bundle_store::{ContainerFault, read_container, write_container};
use std::alloc::Global;
use std::test::Fail;

/// A container's bytes: its name, and entries of these slots, lengths as named, and bytes.
fn container(alloc: Global, entries: &[(u32, u32, usize)]) -> Result<Vec<u8>, Fail> {
    let mut bytes = b"TDXBNDL1".to_vec(alloc)?;
    for &(slot, named, length) in entries {
        bytes.extend_from_slice(&slot.to_le_bytes())?;
        bytes.extend_from_slice(&named.to_le_bytes())?;
        bytes.extend_from_slice(&vec![in alloc; 7u8; length]?)?;
    }
    Ok(bytes)
}

fn fault(alloc: Global, bytes: &[u8]) -> Option<ContainerFault> {
    read_container(alloc, bytes).err()
}

#[test]
fn writes_and_reads_an_empty_container(rt: HostRuntime) -> Result<(), Fail> {
    let alloc = rt.alloc();
    let bytes = write_container(alloc, &[])?;
    assert_eq!(rt; bytes.as_slice(), b"TDXBNDL1".as_slice());
    assert_eq!(rt; read_container(alloc, &bytes)?.len(), 0);
    Ok(())
}

#[test]
fn reads_bundles_at_the_limits(rt: HostRuntime) -> Result<(), Fail> {
    let alloc = rt.alloc();
    let entries = [(0, 0, 0), (3, 5, 5), (4095, 131_072, 131_072)];
    let bytes = container(alloc, &entries)?;
    let bundles = read_container(alloc, &bytes)?;
    assert_eq!(rt; bundles.len(), 3);
    for (bundle, entry) in bundles.iter().zip(entries.iter()) {
        assert_eq!(rt; u32::from(bundle.slot), entry.0);
        assert_eq!(rt; bundle.bytes.len(), entry.2);
    }
    Ok(())
}

#[test]
fn tells_where_a_container_is_cut(rt: HostRuntime) -> Result<(), Fail> {
    let alloc = rt.alloc();
    let bytes = container(alloc, &[(1, 3, 3), (2, 0, 0)])?;
    for length in 0..bytes.len() {
        let wanted = match length {
            8 | 19 => None,
            0..8 => Some(ContainerFault::At(0)),
            9..19 => Some(ContainerFault::At(8)),
            _ => Some(ContainerFault::At(19)),
        };
        assert_eq!(rt; fault(alloc, &bytes[..length]), wanted, "{length} bytes");
    }
    assert_eq!(rt; fault(alloc, &bytes), None);
    Ok(())
}

#[test]
fn tells_the_first_bad_entry(rt: HostRuntime) -> Result<(), Fail> {
    let alloc = rt.alloc();
    for (entries, place) in [
        (&[(5, 64, 64), (5, 0, 0)], 80),
        (&[(5, 0, 0), (4, 0, 0)], 16),
        (&[(5, 0, 0), (4096, 0, 0)], 16),
        (&[(5, 2, 2), (6, 131_073, 131_073)], 18),
        (&[(4096, 0, 0), (4096, 0, 0)], 8),
        (&[(0, u32::MAX, 9), (1, 0, 0)], 8),
    ] {
        let bytes = container(alloc, entries)?;
        assert_eq!(rt;
            fault(alloc, &bytes),
            Some(ContainerFault::At(place)),
            "at {place}"
        );
    }
    assert_eq!(rt; fault(alloc, b"TDXBNDL2"), Some(ContainerFault::At(0)));
    assert_eq!(rt; fault(alloc, &[]), Some(ContainerFault::At(0)));
    Ok(())
}
