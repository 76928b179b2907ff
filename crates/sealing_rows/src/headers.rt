ghost use Rattle.std.specs.Prelude.{◌≡◌, true};
ghost use Rattle.bundle_format.specs.Headers.{is_lawful};

use bundle_format::{BundleKind, read_bundle, write_header};
use hex::FromHex;
use std::test::Fail;
use td_words::{Header, HeaderField};

/// The first 48 bytes of a memory bundle: stream 1, counter 0, epoch 1, session 1, GPA 0.
const FIRST: &str =
    "400001000100030000000000010000000000000000000000010000000000000000000000000000000000000000000000";

fn first() -> Header
    ensures { is_lawful result ≡ true }
{
    Header {
        size: 64,
        version: 1,
        stream: 1,
        kind: BundleKind::Memory as u8,
        reserved: 0,
        counter: 0,
        epoch: 1,
        iv: 0,
        session: 1,
        index: 0,
        info: 0,
        gpa: 0,
        total: 0,
        tag: [0xa5; 16],
    }
}

#[test]
fn writes_the_first_bundles_header(rt: HostRuntime) -> Result<(), Fail> {
    let mut bytes = [0u8; 64];
    write_header(&first(), &mut bytes);
    let wanted = <[u8; 48]>::from_hex(FIRST)?;
    assert_eq!(rt; bytes[..48], wanted[..]);
    assert_eq!(rt; bytes[48..], [0xa5; 16][..]);
    Ok(())
}

/// The first bundle's bytes, with a byte changed.
pub fn changed(place: usize, value: u8) -> [u8; 4160] {
    let mut bytes = [0u8; 4160];
    write_header(&first(), &mut bytes[..64]);
    if place < 4160 {
        bytes[place] = value;
    }
    bytes
}

#[test]
fn names_the_first_fault(rt: HostRuntime) {
    assert_eq!(rt; read_bundle(&changed(4160, 0)), Ok(first()));
    for (place, value, fault) in [
        (0, 65, HeaderField::Size),
        (2, 3, HeaderField::Version),
        (6, 7, HeaderField::Kind),
        (7, 1, HeaderField::Reserved),
        (40, 1, HeaderField::Reserved),
        (26, 1, HeaderField::Reserved),
        (4, 4, HeaderField::Value),
        (16, 3, HeaderField::Value),
        (33, 1, HeaderField::Value),
        (6, 1, HeaderField::Value),
    ] {
        assert_eq!(rt;
            read_bundle(&changed(place, value)),
            Err(fault),
            "byte {place}"
        );
    }
    let whole = changed(4160, 0);
    for (length, fault) in [
        (0, HeaderField::Short),
        (63, HeaderField::Short),
        (64, HeaderField::Length),
        (4159, HeaderField::Length),
    ] {
        assert_eq!(rt; read_bundle(&whole[..length]), Err(fault), "{length} bytes");
    }
}
