//! A round of the cipher, on planes.

ghost use Rattle.std.specs.Prelude.{◌≡◌, ℕ, ◌<◌, bit_xor};
ghost use Rattle.aes_block.specs.Planes.{byte_at, block_at, turned};
ghost use Rattle.aes_block.specs.Aes.{xtime, sub_bytes, shift_rows, mix_columns, add_round_key};

use crate::lanes::{shift_lanes, turn_lanes_1, turn_lanes_2, xor};
use crate::planes::Planes;
use crate::sbox::sub_planes;

/// Each byte plus the other's byte at its place.
#[inline(always)]
pub(crate) fn add(q: Planes, k: &Planes) -> Planes
    ensures { (p i : ℕ) → p < 16 → byte_at result p i ≡ bit_xor (byte_at q p i) (byte_at k.now p i) }
{
    let p0 = xor(q.p0, k.p0);
    let p1 = xor(q.p1, k.p1);
    let p2 = xor(q.p2, k.p2);
    let p3 = xor(q.p3, k.p3);
    let p4 = xor(q.p4, k.p4);
    let p5 = xor(q.p5, k.p5);
    let p6 = xor(q.p6, k.p6);
    let p7 = xor(q.p7, k.p7);
    Planes {
        p0,
        p1,
        p2,
        p3,
        p4,
        p5,
        p6,
        p7,
    }
}

#[inline(always)]
fn shift_rows(q: Planes) -> Planes
    ensures { (i : ℕ) → block_at result i ≡ shift_rows (block_at q i) }
{
    let p0 = shift_lanes(q.p0);
    let p1 = shift_lanes(q.p1);
    let p2 = shift_lanes(q.p2);
    let p3 = shift_lanes(q.p3);
    let p4 = shift_lanes(q.p4);
    let p5 = shift_lanes(q.p5);
    let p6 = shift_lanes(q.p6);
    let p7 = shift_lanes(q.p7);
    Planes {
        p0,
        p1,
        p2,
        p3,
        p4,
        p5,
        p6,
        p7,
    }
}

/// Each byte from one place below it, round in its column.
#[inline(always)]
fn turn_columns_1(q: Planes) -> Planes
    ensures { (p i : ℕ) → p < 16 → byte_at result p i ≡ byte_at q (turned 1 p) i }
{
    let p0 = turn_lanes_1(q.p0);
    let p1 = turn_lanes_1(q.p1);
    let p2 = turn_lanes_1(q.p2);
    let p3 = turn_lanes_1(q.p3);
    let p4 = turn_lanes_1(q.p4);
    let p5 = turn_lanes_1(q.p5);
    let p6 = turn_lanes_1(q.p6);
    let p7 = turn_lanes_1(q.p7);
    Planes {
        p0,
        p1,
        p2,
        p3,
        p4,
        p5,
        p6,
        p7,
    }
}

/// Each byte from two places below it, round in its column.
#[inline(always)]
fn turn_columns_2(q: Planes) -> Planes
    ensures { (p i : ℕ) → p < 16 → byte_at result p i ≡ byte_at q (turned 2 p) i }
{
    let p0 = turn_lanes_2(q.p0);
    let p1 = turn_lanes_2(q.p1);
    let p2 = turn_lanes_2(q.p2);
    let p3 = turn_lanes_2(q.p3);
    let p4 = turn_lanes_2(q.p4);
    let p5 = turn_lanes_2(q.p5);
    let p6 = turn_lanes_2(q.p6);
    let p7 = turn_lanes_2(q.p7);
    Planes {
        p0,
        p1,
        p2,
        p3,
        p4,
        p5,
        p6,
        p7,
    }
}

/// Each byte times x.
#[inline(always)]
fn double(q: Planes) -> Planes
    ensures { (p i : ℕ) → p < 16 → byte_at result p i ≡ xtime (byte_at q p i) }
{
    let p1 = xor(q.p0, q.p7);
    let p3 = xor(q.p2, q.p7);
    let p4 = xor(q.p3, q.p7);
    Planes {
        p0: q.p7,
        p1,
        p2: q.p1,
        p3,
        p4,
        p5: q.p4,
        p6: q.p5,
        p7: q.p6,
    }
}

/// Of the bytes a, b, c and d of a column: 2 (a + b) + b + (c + d), which is 2 a + 3 b + c + d.
#[inline(always)]
fn mix_columns(q: Planes) -> Planes
    ensures { (i : ℕ) → block_at result i ≡ mix_columns (block_at q i) }
{
    let next = turn_columns_1(q);
    let pair = add(q, &next);
    let far = turn_columns_2(pair);
    let rest = add(next, &far);
    let twice = double(pair);
    add(twice, &rest)
}

#[inline(always)]
pub(crate) fn round(q: Planes, k: &Planes) -> Planes
    ensures { (i : ℕ) → i < 8 → block_at result i
        ≡ add_round_key (mix_columns (shift_rows (sub_bytes (block_at q i)))) (block_at k.now i) }
{
    let s = sub_planes(q);
    let r = shift_rows(s);
    let m = mix_columns(r);
    add(m, k)
}

/// The last round, which doesn't mix columns.
#[inline(always)]
pub(crate) fn last_round(q: Planes, k: &Planes) -> Planes
    ensures { (i : ℕ) → i < 8 → block_at result i ≡ add_round_key (shift_rows (sub_bytes (block_at q i))) (block_at k.now i) }
{
    let s = sub_planes(q);
    let r = shift_rows(s);
    add(r, k)
}
