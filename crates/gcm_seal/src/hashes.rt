//! GHASH of a text.

ghost use Rattle.std.specs.Prelude.{◌≡◌, ℕ, ◌+◌, ◌*◌, ◌/◌, ◌^◌, ◌≤◌, length};
ghost use Rattle.gcm_seal.specs.Gcm.{block, blocks, absorbed};
ghost use Rattle.gcm_seal.specs.Tables.{AreTables};

use crate::fields::product;

/// Block i of a text, whole.
#[inline(always)]
fn load(s: &[u8], i: usize) -> u128
    requires { 16 * i + 16 ≤ length s.now }
    ensures { result ≡ block s.now i }
{
    let at = 16 * i;
    u128::from_be_bytes([
        s[at],
        s[at + 1],
        s[at + 2],
        s[at + 3],
        s[at + 4],
        s[at + 5],
        s[at + 6],
        s[at + 7],
        s[at + 8],
        s[at + 9],
        s[at + 10],
        s[at + 11],
        s[at + 12],
        s[at + 13],
        s[at + 14],
        s[at + 15],
    ])
}

/// Takes in the whole blocks of `text`.
fn absorb(tables: &[[u128; 16]; 32], start: u128, text: &[u8]) -> u128
    ensures { (h : ℕ) → AreTables tables.now h 32 → result ≡ absorbed h start text.now (length text.now / 16) }
{
    let mut y = start;
    'each: for i in 0..text.len() / 16 {
        y = product(tables, y ^ load(text, i));
    }
    y
}

/// The last block of a text, with zeros past its end.
fn load_last(s: &[u8], i: usize) -> u128
    requires low { 16 * i ≤ length s.now }
    requires high { length s.now ≤ 16 * i + 16 }
    ensures { result ≡ block s.now i }
{
    let at = 16 * i;
    let mut last = [0u8; 16];
    for k in 0..s.len() - at {
        last[k] = s[at + k];
    }
    u128::from_be_bytes(last)
}

/// Takes in `text`, with zeros up to a whole block.
pub(crate) fn absorb_all(tables: &[[u128; 16]; 32], start: u128, text: &[u8]) -> u128
    ensures { (h : ℕ) → AreTables tables.now h 32 → result ≡ absorbed h start text.now (blocks text.now) }
{
    let y = absorb(tables, start, text);
    if text.len() % 16 == 0 {
        return y;
    }
    let last = load_last(text, text.len() / 16);
    product(tables, y ^ last)
}

/// The block of the two lengths.
pub(crate) fn lengths(aad: &[u8], text: &[u8]) -> u128
    requires aad { length aad.now ≤ 2 ^ 20 }
    requires text { length text.now ≤ 2 ^ 20 }
    ensures { result ≡ length aad.now * 8 * 2 ^ 64 + length text.now * 8 }
{
    aad.len() as u128 * 8 * 0x1_0000_0000_0000_0000 + text.len() as u128 * 8
}
