//! Sealing and opening in place.

ghost use Rattle.std.specs.Prelude.{◌≡◌, ℕ, ◌^◌, ◌≤◌, ◌↔◌, List, false, length, IsTrue};
ghost use Rattle.aes_block.specs.Planes.{HasKey};
ghost use Rattle.gcm_seal.specs.Gcm.{mixed, tag_bytes};

use crate::fields::{hash_tables, product};
use crate::hashes::{absorb_all, lengths};
use crate::streams::{counter_block, mix};
use aes_block::Aes256;
use std::simd::prelude::*;

/// The tag of a sealed text.
fn tag_of(key: &Aes256, iv: &[u8; 12], aad: &[u8], text: &[u8]) -> [u8; 16]
    requires aad { length aad.now ≤ 2 ^ 20 }
    requires text { length text.now ≤ 2 ^ 20 }
    ensures { (k : List ℕ) → HasKey key.now k → result ≡ tag_bytes k iv.now aad.now text.now }
{
    let zero = u8x16::splat(0);
    let first = counter_block(iv, 1);
    let [hash_key, mask, ..] = key.encrypt_eight([zero, first, zero, zero, zero, zero, zero, zero]);
    let h = u128::from_be_bytes(hash_key.to_array());
    let tables = hash_tables(h);
    let y = absorb_all(&tables, 0, aad);
    let y = absorb_all(&tables, y, text);
    let s = product(&tables, y ^ lengths(aad, text));
    (s ^ u128::from_be_bytes(mask.to_array())).to_be_bytes()
}

/// Seals `text` in place under the key and the IV, and answers the tag of the additional bytes `aad`
/// and the sealed text. No two texts may ever be sealed under one key and one IV.
pub fn seal_in_place(key: &Aes256, iv: &[u8; 12], aad: &[u8], text: &mut [u8]) -> [u8; 16]
    requires aad { length aad.now ≤ 2 ^ 20 }
    requires text { length text.old ≤ 2 ^ 20 }
    ensures sealed { (k : List ℕ) → HasKey key.now k → text.new ≡ mixed k iv.now text.old }
    ensures tag { (k : List ℕ) → HasKey key.now k → result ≡ tag_bytes k iv.now aad.now text.new }
{
    mix(key, iv, text);
    tag_of(key, iv, aad, text)
}

/// Whether the tag is that of the additional bytes and the sealed text. Only then the text is opened,
/// in place.
pub fn open_in_place(
    key: &Aes256,
    iv: &[u8; 12],
    aad: &[u8],
    text: &mut [u8],
    tag: &[u8; 16],
) -> bool
    requires aad { length aad.now ≤ 2 ^ 20 }
    requires text { length text.old ≤ 2 ^ 20 }
    ensures told { (k : List ℕ) → HasKey key.now k → IsTrue result ↔ (tag.now ≡ tag_bytes k iv.now aad.now text.old) }
    ensures opened { (k : List ℕ) → HasKey key.now k → IsTrue result → text.new ≡ mixed k iv.now text.old }
    ensures refused { result ≡ false → text.new ≡ text.old }
{
    let is_right = tag_of(key, iv, aad, text) == *tag;
    if is_right {
        mix(key, iv, text);
    }
    is_right
}
