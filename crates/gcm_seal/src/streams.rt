//! The key stream, mixed into a text.

ghost use Rattle.std.specs.Prelude.{◌≡◌, ℕ, ◌+◌, ◌-◌, ◌*◌, ◌^◌, ◌<◌, ◌≤◌, List, [], length, bit_xor, slice_index, slice_index_or};
ghost use Rattle.aes_block.specs.Aes.{cipher};
ghost use Rattle.aes_block.specs.Planes.{lanes16, HasKey};
ghost use Rattle.gcm_seal.specs.Gcm.{counter_block, mixed};
ghost use Rattle.gcm_seal.specs.Tables.{IsMixedTo};

use aes_block::Aes256;
use std::simd::prelude::*;

/// The counter block of a count.
#[inline(always)]
pub(crate) fn counter_block(iv: &[u8; 12], count: u32) -> u8x16
    ensures { lanes16 result ≡ counter_block iv.now count }
{
    let [c0, c1, c2, c3] = count.to_be_bytes();
    u8x16::from_array([
        iv[0], iv[1], iv[2], iv[3], iv[4], iv[5], iv[6], iv[7], iv[8], iv[9], iv[10], iv[11], c0,
        c1, c2, c3,
    ])
}

/// The key stream of eight blocks.
#[inline(always)]
fn stream(key: &Aes256, iv: &[u8; 12], count: u32) -> [u8x16; 8]
    requires { count + 8 < 2 ^ 32 }
    ensures { (k : List ℕ) → HasKey key.now k
        → (i : ℕ) → i < 8 → lanes16 (slice_index_or result i []) ≡ cipher k (counter_block iv.now (count + i)) }
{
    let b0 = counter_block(iv, count);
    let b1 = counter_block(iv, count + 1);
    let b2 = counter_block(iv, count + 2);
    let b3 = counter_block(iv, count + 3);
    let b4 = counter_block(iv, count + 4);
    let b5 = counter_block(iv, count + 5);
    let b6 = counter_block(iv, count + 6);
    let b7 = counter_block(iv, count + 7);
    key.encrypt_eight([b0, b1, b2, b3, b4, b5, b6, b7])
}

/// Mixes `pad` into the bytes from `at` on, as far as they go.
#[inline(always)]
fn mix_block(text: &mut [u8], at: usize, pad: u8x16)
    requires { at ≤ 2 ^ 21 }
    ensures before { (k : ℕ) → k < at → slice_index text.new k ≡ slice_index text.old k }
    ensures mixed { (k : ℕ) → at ≤ k → k < at + 16 → k < length text.old
        → slice_index text.new k ≡ bit_xor (slice_index text.old k) (slice_index pad (k - at)) }
    ensures after { (k : ℕ) → at + 16 ≤ k → slice_index text.new k ≡ slice_index text.old k }
{
    if at + 16 <= text.len() {
        let sum = u8x16::from_slice(&text[at..]) ^ pad;
        sum.copy_to_slice(&mut text[at..]);
    } else if at < text.len() {
        let lanes = pad.to_array();
        for k in at..text.len() {
            text[k] ^= lanes[k - at];
        }
    }
}

/// Mixes eight blocks of the key stream in.
#[inline(always)]
fn mix_eight(text: &mut [u8], turn: usize, pad: [u8x16; 8])
    requires { turn < 2 ^ 14 }
    ensures { (k iv from : List ℕ) → ((i : ℕ) → i < 8 → lanes16 (slice_index_or pad i []) ≡ cipher k (counter_block iv (8 * turn + i + 2)))
        → IsMixedTo k iv from text.old (8 * turn) → IsMixedTo k iv from text.new (8 * (turn + 1)) }
{
    let [p0, p1, p2, p3, p4, p5, p6, p7] = pad;
    let at = 128 * turn;
    mix_block(text, at, p0);
    mix_block(text, at + 16, p1);
    mix_block(text, at + 32, p2);
    mix_block(text, at + 48, p3);
    mix_block(text, at + 64, p4);
    mix_block(text, at + 80, p5);
    mix_block(text, at + 96, p6);
    mix_block(text, at + 112, p7);
}

/// Mixes the key stream into a text, from the second counter block on.
pub(crate) fn mix(key: &Aes256, iv: &[u8; 12], text: &mut [u8])
    requires { length text.old ≤ 2 ^ 20 }
    ensures { (k : List ℕ) → HasKey key.now k → text.new ≡ mixed k iv.now text.old }
{
    for turn in 0..(text.len() + 127) / 128 {
        let pad = stream(key, iv, (8 * turn + 2) as u32);
        mix_eight(text, turn, pad);
    }
}
