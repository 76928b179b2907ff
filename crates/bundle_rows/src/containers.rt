ghost use Rattle.std.specs.Prelude.{◌≡◌, ◌≤◌, length, IfOk};
ghost use Rattle.bundle_texts.specs.Ordered.{FitContainer};

use aes_block::Aes256;
use bundle_format::BundleKind;
use bundle_store::read_container;
use bundle_texts::container_of;
use bundles::Bundle;
use gcm_seal::Keys;
use hex::FromHex;
use std::alloc::{AllocError, Global};
use std::test::Fail;
use td_words::Header;

/// A bundle as it is sealed under keys of bytes 0 to 31 and 32 to 63: its slot, its length, bytes 0 to
/// 47, the tag, and the last 48 bytes of its payload.
#[derive(Clone, Copy)]
struct Sealed {
    slot: u16,
    length: usize,
    head: &'static str,
    tag: &'static str,
    end: &'static str,
}

/// An abort token, a page, a start token, and the immutable state, in the order of their slots. Python's
/// package `cryptography`, on OpenSSL, gave their bytes.
const SEALED: [Sealed; 4] = [
    Sealed {
        slot: 0,
        length: 64,
        head: "400001000000060000000000000000000000000000000000ffff00000000000000000000000000000000000000000000",
        tag: "67207e7fa9c4894055c44d50570da7cb",
        end: "",
    },
    Sealed {
        slot: 7,
        length: 4160,
        head: "400001000300030005000000020000000500000000000000020100000000000000f01f00000000000000000000000000",
        tag: "6e53c29116dc5d95887ebed8d7214a1a",
        end: "64e3229010736489fe469110b1890a129c17b1e65e7449cb8abdd0b9011d27a5dce8ea54a25d238a0f30003503f87e59",
    },
    Sealed {
        slot: 300,
        length: 64,
        head: "400001000000050002000000030000000200000000000000020100000000000000000000000000000600000000000000",
        tag: "4c95f98eedf9094d0f4e1da7f2bf0569",
        end: "",
    },
    Sealed {
        slot: 4095,
        length: 112,
        head: "400001000000000000000000010000000000000000000000010000000200000000000000000000000000000000000000",
        tag: "16ccb7313d10e5e10a123513afe38062",
        end: "625dd37fba07b6e7eda00843b60c62135ae8e099524fe10e9b9e67689c4c66c5f5b7cb2e90125ca4a73394d205b5f9dd",
    },
];

/// A header of that kind, stream, counter, epoch and session, with a tag that isn't its own.
fn header(kind: BundleKind, stream: u16, counter: u32, epoch: u32, session: u16) -> Header {
    Header {
        size: 64,
        version: 1,
        stream,
        kind: kind as u8,
        reserved: 0,
        counter,
        epoch,
        iv: counter as u64,
        session,
        index: 0,
        info: 0,
        gpa: 0,
        total: 0,
        tag: [0xa5; 16],
    }
}

/// The first 512 multiples of a number, modulo 2^64.
fn multiples() -> [u64; 512] {
    let mut words = [0u64; 512];
    let mut word = 0u64;
    for place in words.iter_mut() {
        word = word.wrapping_add(0x0123_4567_89ab_cdef);
        *place = word;
    }
    words
}

/// That bundle, with a payload of the first `count` of these words.
fn bundle<'a>(slot: u16, header: Header, words: &'a [u64; 512], count: usize) -> Bundle<'a>
    requires { count ≤ 512 }
    ensures { (result.slot ≡ slot) × (length result.payload ≤ 512) }
{
    Bundle {
        slot,
        header,
        payload: &words[..count],
    }
}

/// The four bundles, out of the order of their slots.
fn four<'a>(alloc: Global, words: &'a [u64; 512]) -> Result<Vec<Bundle<'a>>, AllocError>
    ensures { IfOk result (λ v. FitContainer v.items) }
{
    let state = Header {
        info: 2,
        ..header(BundleKind::ImmutableState, 0, 0, 1, 1)
    };
    let page = Header {
        gpa: 0x1f_f000,
        ..header(BundleKind::Memory, 3, 5, 2, 0x0102)
    };
    let start = Header {
        total: 6,
        ..header(BundleKind::StartToken, 0, 2, 3, 0x0102)
    };
    let abort = header(BundleKind::AbortToken, 0, 0, 0, 0xffff);
    let mut bundles = Vec::new(alloc);
    bundles.push(bundle(4095, state, words, 6))?;
    bundles.push(bundle(7, page, words, 512))?;
    bundles.push(bundle(300, start, words, 0))?;
    bundles.push(bundle(0, abort, words, 0))?;
    Ok(bundles)
}

/// The bytes from a place up to another, or none where they aren't there.
fn part(bytes: &[u8], from: usize, to: usize) -> &[u8] {
    if from <= to && to <= bytes.len() {
        &bytes[from..to]
    } else {
        &bytes[..0]
    }
}

#[test]
fn seals_bundles_in_the_order_of_their_slots(rt: HostRuntime) -> Result<(), Fail> {
    let alloc = rt.alloc();
    let mut forward = [0u8; 32];
    let mut backward = [0u8; 32];
    for i in 0..32 {
        forward[i] = i as u8;
        backward[i] = 32 + i as u8;
    }
    let keys = Keys {
        forward: Aes256::new(&forward),
        backward: Aes256::new(&backward),
    };
    let words = multiples();
    let text = container_of(alloc, &keys, four(alloc, &words)?)?;
    let bundles = read_container(alloc, &text)?;
    assert_eq!(rt; bundles.len(), SEALED.len());
    for (bundle, wanted) in bundles.iter().zip(SEALED.iter()) {
        let bytes = bundle.bytes.as_slice();
        assert_eq!(rt; bundle.slot, wanted.slot);
        assert_eq!(rt; bytes.len(), wanted.length);
        let head = <[u8; 48]>::from_hex(wanted.head)?;
        let tag = <[u8; 16]>::from_hex(wanted.tag)?;
        let payload = hex::decode(alloc, wanted.end)?;
        let from = bytes.len().saturating_sub(payload.len());
        assert_eq!(rt; part(bytes, 0, 48), head.as_slice());
        assert_eq!(rt; part(bytes, 48, 64), tag.as_slice());
        assert_eq!(rt; part(bytes, from, bytes.len()), payload.as_slice());
    }
    Ok(())
}
