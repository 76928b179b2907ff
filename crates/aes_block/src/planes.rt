//! Eight blocks as planes, and back.

ghost use Rattle.std.specs.Prelude.{◌≡◌, ℕ, ◌<◌, ◌≤◌, [], slice_index_or};
ghost use Rattle.aes_block.specs.Planes.{lane_bit, lanes16, bits8, bits_at, block_at};

use crate::lanes::{as_bytes, swap_1, swap_2, swap_4};
use std::simd::prelude::*;

/// Eight planes: bit i of lane p of plane b is bit b of byte p of block i.
#[derive(Clone, Copy)]
pub(crate) struct Planes {
    pub p0: u8x16,
    pub p1: u8x16,
    pub p2: u8x16,
    pub p3: u8x16,
    pub p4: u8x16,
    pub p5: u8x16,
    pub p6: u8x16,
    pub p7: u8x16,
}

/// Turns eight blocks into planes, and planes into blocks.
#[inline(always)]
fn transpose(q: Planes) -> Planes
    ensures { (p : ℕ) → p < 16 → (bits8 result.p0 p ≡ bits_at q p 0) × (bits8 result.p1 p ≡ bits_at q p 1)
        × (bits8 result.p2 p ≡ bits_at q p 2) × (bits8 result.p3 p ≡ bits_at q p 3)
        × (bits8 result.p4 p ≡ bits_at q p 4) × (bits8 result.p5 p ≡ bits_at q p 5)
        × (bits8 result.p6 p ≡ bits_at q p 6) × (bits8 result.p7 p ≡ bits_at q p 7) }
{
    let [a0, a1] = swap_1(q.p0, q.p1);
    let [a2, a3] = swap_1(q.p2, q.p3);
    let [a4, a5] = swap_1(q.p4, q.p5);
    let [a6, a7] = swap_1(q.p6, q.p7);
    let [b0, b2] = swap_2(a0, a2);
    let [b1, b3] = swap_2(a1, a3);
    let [b4, b6] = swap_2(a4, a6);
    let [b5, b7] = swap_2(a5, a7);
    let [p0, p4] = swap_4(b0, b4);
    let [p1, p5] = swap_4(b1, b5);
    let [p2, p6] = swap_4(b2, b6);
    let [p3, p7] = swap_4(b3, b7);
    Planes {
        p0,
        p1,
        p2,
        p3,
        p4,
        p5,
        p6,
        p7,
    }
}

/// The planes of eight blocks.
#[inline(always)]
pub(crate) fn to_planes(blocks: [u8x16; 8]) -> Planes
    ensures { (i : ℕ) → i < 8 → block_at result i ≡ lanes16 (slice_index_or blocks i []) }
{
    let [b0, b1, b2, b3, b4, b5, b6, b7] = blocks;
    let p0 = as_bytes(b0);
    let p1 = as_bytes(b1);
    let p2 = as_bytes(b2);
    let p3 = as_bytes(b3);
    let p4 = as_bytes(b4);
    let p5 = as_bytes(b5);
    let p6 = as_bytes(b6);
    let p7 = as_bytes(b7);
    transpose(Planes {
        p0,
        p1,
        p2,
        p3,
        p4,
        p5,
        p6,
        p7,
    })
}

/// The eight blocks of planes.
#[inline(always)]
pub(crate) fn to_blocks(q: Planes) -> [u8x16; 8]
    ensures { (i : ℕ) → i < 8 → lanes16 (slice_index_or result i []) ≡ block_at q i }
{
    let t = transpose(q);
    let b0 = as_bytes(t.p0);
    let b1 = as_bytes(t.p1);
    let b2 = as_bytes(t.p2);
    let b3 = as_bytes(t.p3);
    let b4 = as_bytes(t.p4);
    let b5 = as_bytes(t.p5);
    let b6 = as_bytes(t.p6);
    let b7 = as_bytes(t.p7);
    [b0, b1, b2, b3, b4, b5, b6, b7]
}

/// All ones in each lane whose byte has the bit.
fn key_plane(bytes: &[u8; 16], bit: u32) -> u8x16
    requires { bit < 8 }
    ensures { (p i : ℕ) → p < 16 → i < 8 → lane_bit result p i ≡ lane_bit bytes.now p bit }
{
    let mut lanes = [0u8; 16];
    for i in 0..16 {
        lanes[i] = 255 * ((bytes[i] >> bit) & 1);
    }
    u8x16::from_array(lanes)
}

/// The planes of eight blocks that are all `bytes`.
pub(crate) fn key_planes(bytes: &[u8; 16]) -> Planes
    ensures { (i : ℕ) → i < 8 → block_at result i ≡ lanes16 bytes.now }
{
    let _ = as_bytes(u8x16::from_array(*bytes));
    let p0 = key_plane(bytes, 0);
    let p1 = key_plane(bytes, 1);
    let p2 = key_plane(bytes, 2);
    let p3 = key_plane(bytes, 3);
    let p4 = key_plane(bytes, 4);
    let p5 = key_plane(bytes, 5);
    let p6 = key_plane(bytes, 6);
    let p7 = key_plane(bytes, 7);
    Planes {
        p0,
        p1,
        p2,
        p3,
        p4,
        p5,
        p6,
        p7,
    }
}
