//! HMAC with SHA-384, under a key of 48 bytes.

ghost use Rattle.std.specs.Prelude.{◌≡◌, ◌++◌};
ghost use Rattle.sha2.specs.Sha512.{sha384};
ghost use Rattle.report_core.specs.Hmac.{block_key, hmac_sha384, masked};

use sha2::{Digest, Sha384};

/// The key with zeros behind it, a block of the hash.
fn padded(key: &[u8; 48]) -> [u8; 128]
    ensures { result ≡ block_key key.now }
{
    let mut block = [0; 128];
    block[..48].copy_from_slice(key);
    block
}

/// A block with a pad's byte mixed into each of its own.
fn mask(block: &[u8; 128], pad: u8) -> [u8; 128]
    ensures { result ≡ masked pad block.now }
{
    let mut out = [0; 128];
    'bytes: for i in 0..128 {
        out[i] = block[i] ^ pad;
    }
    out
}

/// The SHA-384 of two pieces that stand one behind the other.
fn hash_of_two(first: &[u8; 128], second: &[u8]) -> [u8; 48]
    ensures { result ≡ sha384 (first.now ++ second.now) }
{
    let mut hasher = Sha384::new();
    hasher.update(first);
    hasher.update(second);
    hasher.finalize()
}

/// The MAC of a text under a key (FIPS 198-1).
pub fn hmac(key: &[u8; 48], text: &[u8]) -> [u8; 48]
    ensures { result ≡ hmac_sha384 key.now text.now }
{
    let block = padded(key);
    let inner = hash_of_two(&mask(&block, 0x36), text);
    hash_of_two(&mask(&block, 0x5c), &inner)
}
