//! Operations on each lane of a vector, as they move its bits.
ghost use Rattle.std.specs.Prelude.{◌≡◌, ℕ, ◌+◌, ◌-◌, ◌*◌, ◌/◌, ◌%◌, ◌<◌, ◌≤◌, ◌^◌, [], min, slice_index, slice_index_or};
ghost use Rattle.aes_block.specs.Planes.{lane_bit, lanes16, bits8, lows, highs, turned, shifted};

use std::simd::prelude::*;

#[inline(always)]
pub(crate) fn xor(a: u8x16, b: u8x16) -> u8x16
    ensures { (p i : ℕ) → p < 16 → lane_bit result p i ≡ (lane_bit a p i + lane_bit b p i) % 2 }
{
    a ^ b
}

#[inline(always)]
pub(crate) fn and(a: u8x16, b: u8x16) -> u8x16
    ensures { (p i : ℕ) → p < 16 → lane_bit result p i ≡ min (lane_bit a p i) (lane_bit b p i) }
{
    a & b
}

#[inline(always)]
pub(crate) fn not(a: u8x16) -> u8x16
    ensures { (p i : ℕ) → p < 16 → i < 8 → lane_bit result p i ≡ 1 - lane_bit a p i }
{
    !a
}

/// The vector as it is, with the fact that its lanes are bytes.
#[inline(always)]
pub(crate) fn as_bytes(v: u8x16) -> u8x16
    ensures same { (p : ℕ) → p < 16 → slice_index result p ≡ slice_index v p }
    ensures fit { (p : ℕ) → p < 16 → slice_index v p < 256 }
{
    v & u8x16::splat(255)
}

/// The vector's sixteen lanes.
#[inline(always)]
pub(crate) fn lanes_of(v: u8x16) -> [u8; 16]
    ensures { result ≡ lanes16 v }
{
    v.to_array()
}

/// Each byte from the place that ShiftRows takes it from.
#[inline(always)]
pub(crate) fn shift_lanes(v: u8x16) -> u8x16
    ensures { (p i : ℕ) → p < 16 → lane_bit result p i ≡ lane_bit v (shifted p) i }
{
    v.swizzle([0, 5, 10, 15, 4, 9, 14, 3, 8, 13, 2, 7, 12, 1, 6, 11])
}

#[inline(always)]
pub(crate) fn turn_lanes_1(v: u8x16) -> u8x16
    ensures { (p i : ℕ) → p < 16 → lane_bit result p i ≡ lane_bit v (turned 1 p) i }
{
    v.swizzle([1, 2, 3, 0, 5, 6, 7, 4, 9, 10, 11, 8, 13, 14, 15, 12])
}

#[inline(always)]
pub(crate) fn turn_lanes_2(v: u8x16) -> u8x16
    ensures { (p i : ℕ) → p < 16 → lane_bit result p i ≡ lane_bit v (turned 2 p) i }
{
    v.swizzle([2, 3, 0, 1, 6, 7, 4, 5, 10, 11, 8, 9, 14, 15, 12, 13])
}

// ---- swaps of bits

#[inline(always)]
fn down_1(v: u8x16) -> u8x16
    ensures { (p i : ℕ) → p < 16 → lane_bit result p i ≡ lane_bit v p (i + 1) }
{
    v >> 1
}

#[inline(always)]
fn up_1(v: u8x16) -> u8x16
    ensures low { (p i : ℕ) → p < 16 → i < 1 → lane_bit result p i ≡ 0 }
    ensures high { (p i : ℕ) → p < 16 → i + 1 < 8 → lane_bit result p (i + 1) ≡ lane_bit v p i }
{
    v << 1
}

#[inline(always)]
fn masked_1(v: u8x16) -> u8x16
    ensures { (p i : ℕ) → p < 16 → lane_bit result p i ≡ min (lane_bit v p i) (0x55 / 2 ^ i % 2) }
{
    v & u8x16::splat(0x55)
}

#[inline(always)]
pub(crate) fn swap_1(a: u8x16, b: u8x16) -> [u8x16; 2]
    ensures { (p : ℕ) → p < 16 → (bits8 (slice_index_or result 0 []) p ≡ lows 1 (bits8 a p) (bits8 b p))
        × (bits8 (slice_index_or result 1 []) p ≡ highs 1 (bits8 a p) (bits8 b p)) }
{
    let u = down_1(a);
    let d = xor(u, b);
    let t = masked_1(d);
    let s = up_1(t);
    let x = xor(a, s);
    let y = xor(b, t);
    [x, y]
}

#[inline(always)]
fn down_2(v: u8x16) -> u8x16
    ensures { (p i : ℕ) → p < 16 → lane_bit result p i ≡ lane_bit v p (i + 2) }
{
    v >> 2
}

#[inline(always)]
fn up_2(v: u8x16) -> u8x16
    ensures low { (p i : ℕ) → p < 16 → i < 2 → lane_bit result p i ≡ 0 }
    ensures high { (p i : ℕ) → p < 16 → i + 2 < 8 → lane_bit result p (i + 2) ≡ lane_bit v p i }
{
    v << 2
}

#[inline(always)]
fn masked_2(v: u8x16) -> u8x16
    ensures { (p i : ℕ) → p < 16 → lane_bit result p i ≡ min (lane_bit v p i) (0x33 / 2 ^ i % 2) }
{
    v & u8x16::splat(0x33)
}

#[inline(always)]
pub(crate) fn swap_2(a: u8x16, b: u8x16) -> [u8x16; 2]
    ensures { (p : ℕ) → p < 16 → (bits8 (slice_index_or result 0 []) p ≡ lows 2 (bits8 a p) (bits8 b p))
        × (bits8 (slice_index_or result 1 []) p ≡ highs 2 (bits8 a p) (bits8 b p)) }
{
    let u = down_2(a);
    let d = xor(u, b);
    let t = masked_2(d);
    let s = up_2(t);
    let x = xor(a, s);
    let y = xor(b, t);
    [x, y]
}

#[inline(always)]
fn down_4(v: u8x16) -> u8x16
    ensures { (p i : ℕ) → p < 16 → lane_bit result p i ≡ lane_bit v p (i + 4) }
{
    v >> 4
}

#[inline(always)]
fn up_4(v: u8x16) -> u8x16
    ensures low { (p i : ℕ) → p < 16 → i < 4 → lane_bit result p i ≡ 0 }
    ensures high { (p i : ℕ) → p < 16 → i + 4 < 8 → lane_bit result p (i + 4) ≡ lane_bit v p i }
{
    v << 4
}

#[inline(always)]
fn masked_4(v: u8x16) -> u8x16
    ensures { (p i : ℕ) → p < 16 → lane_bit result p i ≡ min (lane_bit v p i) (0x0f / 2 ^ i % 2) }
{
    v & u8x16::splat(0x0f)
}

#[inline(always)]
pub(crate) fn swap_4(a: u8x16, b: u8x16) -> [u8x16; 2]
    ensures { (p : ℕ) → p < 16 → (bits8 (slice_index_or result 0 []) p ≡ lows 4 (bits8 a p) (bits8 b p))
        × (bits8 (slice_index_or result 1 []) p ≡ highs 4 (bits8 a p) (bits8 b p)) }
{
    let u = down_4(a);
    let d = xor(u, b);
    let t = masked_4(d);
    let s = up_4(t);
    let x = xor(a, s);
    let y = xor(b, t);
    [x, y]
}
