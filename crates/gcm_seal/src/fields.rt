//! Products in the field of 2^128 elements, by tables.

ghost use Rattle.std.specs.Prelude.{◌≡◌, ℕ, ◌+◌, ◌*◌, ◌<◌, ◌≤◌, [], bit_xor, slice_index_or};
ghost use Rattle.gcm_seal.specs.Gcm.{times_x, times, mul};
ghost use Rattle.gcm_seal.specs.Tables.{raised, table_of, AreTables};

/// v times x, where the highest bit is the coefficient of x^0.
#[inline(always)]
fn times_x(v: u128) -> u128
    ensures { result ≡ times_x v }
{
    (v >> 1) ^ ((v & 1) * 0xe1000000_00000000_00000000_00000000)
}

/// v times each four bits.
fn table(h1: u128) -> [u128; 16]
    ensures { result ≡ table_of h1 }
{
    let h2 = times_x(h1);
    let h4 = times_x(h2);
    let h8 = times_x(h4);
    [
        0,
        h8,
        h4,
        h4 ^ h8,
        h2,
        h2 ^ h8,
        h2 ^ h4,
        h2 ^ (h4 ^ h8),
        h1,
        h1 ^ h8,
        h1 ^ h4,
        h1 ^ (h4 ^ h8),
        h1 ^ h2,
        h1 ^ (h2 ^ h8),
        h1 ^ (h2 ^ h4),
        h1 ^ (h2 ^ (h4 ^ h8)),
    ]
}

/// v times x^4.
fn times_x4(v: u128) -> u128
    ensures { result ≡ raised 4 v }
{
    times_x(times_x(times_x(times_x(v))))
}

/// The tables of a hash key.
pub(crate) fn hash_tables(h: u128) -> [[u128; 16]; 32]
    ensures { AreTables result h 32 }
{
    let mut tables = [[0u128; 16]; 32];
    let mut v = h;
    for i in 0..32 {
        tables[i] = table(v);
        v = times_x4(v);
    }
    tables
}

/// `start` plus the product of 64 bits, by the 16 tables from one on.
#[inline(always)]
fn part(tables: &[[u128; 16]; 32], from: usize, word: u64, start: u128) -> u128
    requires { from ≤ 16 }
    ensures { (v : ℕ) → ((j : ℕ) → j < 16 → slice_index_or tables.now (from + j) [] ≡ table_of (raised (4 * j) v))
        → result ≡ bit_xor start (times 64 word v) }
{
    let mut z = start;
    for i in 0..16 {
        let four = ((word >> (60 - 4 * i as u32)) & 15) as usize;
        z ^= tables[from + i][four];
    }
    z
}

/// A block times the hash key, by its tables.
#[inline(always)]
pub(crate) fn product(tables: &[[u128; 16]; 32], x: u128) -> u128
    ensures { (h : ℕ) → AreTables tables.now h 32 → result ≡ mul x h }
{
    let high = (x >> 64) as u64;
    let low = (x & 0xffff_ffff_ffff_ffff) as u64;
    let z = part(tables, 0, high, 0);
    part(tables, 16, low, z)
}
