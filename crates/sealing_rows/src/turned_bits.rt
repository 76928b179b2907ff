use crate::headers::changed;
use aes_block::Aes256;
use bundle_format::read_bundle;
use gcm_seal::{open_in_place, seal_in_place};
use std::process::Abort;
use td_words::HeaderField;

/// What reading tells of the first bundle with one bit of its header turned: from a bit up to another,
/// the fault. Where there is none, the header is another one, or its tag is.
const TURNED: [(usize, usize, Option<HeaderField>); 18] = [
    (0, 16, Some(HeaderField::Size)),
    (16, 32, Some(HeaderField::Version)),
    // The stream is 1, and may be 0 or 3.
    (32, 34, None),
    (34, 48, Some(HeaderField::Value)),
    // The kind is 3; 2 and 1 have stream 0 alone, and 7 is none.
    (48, 50, Some(HeaderField::Value)),
    (50, 56, Some(HeaderField::Kind)),
    (56, 64, Some(HeaderField::Reserved)),
    // The counter, which the iv repeats; the epoch; the iv.
    (64, 96, Some(HeaderField::Value)),
    (96, 128, None),
    (128, 192, Some(HeaderField::Value)),
    // The session is 1, and may not be 0.
    (192, 193, Some(HeaderField::Value)),
    (193, 208, None),
    // The index and the info, which no page uses.
    (208, 256, Some(HeaderField::Reserved)),
    // The GPA is a page's, below 2^47.
    (256, 268, Some(HeaderField::Value)),
    (268, 303, None),
    (303, 320, Some(HeaderField::Value)),
    (320, 384, Some(HeaderField::Reserved)),
    // The tag.
    (384, 512, None),
];

/// The IV that a header names: its stream, 0, its session and its iv.
fn iv_of(bytes: &[u8; 4160]) -> [u8; 12] {
    let mut iv = [0u8; 12];
    iv[0] = bytes[4];
    iv[2..4].copy_from_slice(&bytes[24..26]);
    iv[4..].copy_from_slice(&bytes[16..24]);
    iv
}

/// Whether the page behind these 64 bytes opens; it is as it came where it doesn't.
fn opens(rt: &impl Abort, key: &Aes256, bytes: &[u8; 4160]) -> bool {
    let mut tag = [0u8; 16];
    tag.copy_from_slice(&bytes[48..64]);
    let mut page = [0u8; 4096];
    page.copy_from_slice(&bytes[64..]);
    let is_open = open_in_place(key, &iv_of(bytes), &bytes[..48], &mut page, &tag);
    assert!(rt; is_open || page[..] == bytes[64..]);
    is_open
}

/// This bundle, with a page that is sealed.
fn sealed(key: &Aes256, clear: &[u8; 4160]) -> [u8; 4160] {
    let mut page = [5u8; 4096];
    let tag = seal_in_place(key, &iv_of(clear), &clear[..48], &mut page);
    let mut bytes = *clear;
    let (header, payload) = bytes.split_at_mut(64);
    header[48..].copy_from_slice(&tag);
    payload.copy_from_slice(&page);
    bytes
}

#[test]
fn no_bit_of_a_header_can_be_turned(rt: HostRuntime) {
    let key = Aes256::new(&[9; 32]);
    let bytes = sealed(&key, &changed(4160, 0));
    assert_eq!(rt; read_bundle(&bytes).err(), None);
    assert!(rt; opens(&rt, &key, &bytes));
    let mut tried = 0;
    for (from, to, fault) in TURNED {
        for bit in from..to {
            assert!(rt; bit == tried && bit < 512);
            let mut other = bytes;
            other[bit / 8] ^= 1 << (bit % 8);
            assert_eq!(rt; read_bundle(&other).err(), fault, "bit {bit}");
            assert!(rt; !opens(&rt, &key, &other), "bit {bit}");
            tried = bit + 1;
        }
    }
    assert_eq!(rt; tried, 512);
}
