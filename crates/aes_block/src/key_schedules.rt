//! Key expansion.

ghost use Rattle.std.specs.Prelude.{◌≡◌, ◌%◌, ◌<◌, ◌≤◌};
ghost use Rattle.aes_block.specs.Aes.{sub_word, xor_word, stirred, schedule, round_key};

use crate::sbox::SBOX;

/// The S-box on each byte of a word.
fn sub_word(w: [u8; 4]) -> [u8; 4]
    ensures { result ≡ sub_word w }
{
    let [a, b, c, d] = w;
    [
        SBOX[a as usize],
        SBOX[b as usize],
        SBOX[c as usize],
        SBOX[d as usize],
    ]
}

fn xor_word(a: [u8; 4], b: [u8; 4]) -> [u8; 4]
    ensures { result ≡ xor_word a b }
{
    [a[0] ^ b[0], a[1] ^ b[1], a[2] ^ b[2], a[3] ^ b[3]]
}

/// x to the power of one less than the place.
static ROUND_CONSTANTS: [u8; 8] = [0, 0x01, 0x02, 0x04, 0x08, 0x10, 0x20, 0x40];

/// What is added to word i - 8 to give word i, from the word before word i.
fn stirred(w: [u8; 4], i: usize) -> [u8; 4]
    requires low { 8 ≤ i }
    requires high { i < 60 }
    ensures { result ≡ stirred w i (i % 8) }
{
    if i % 8 == 0 {
        let [a, b, c, d] = w;
        return xor_word(sub_word([b, c, d, a]), [ROUND_CONSTANTS[i / 8], 0, 0, 0]);
    }
    if i % 8 == 4 {
        return sub_word(w);
    }
    w
}

/// The sixty words that the key is expanded to.
pub(crate) fn expand(key: &[u8; 32]) -> [[u8; 4]; 60]
    ensures { result ≡ schedule key.now 52 }
{
    let mut w = [[0u8; 4]; 60];
    'copy: for i in 0..8 {
        w[i] = [key[4 * i], key[4 * i + 1], key[4 * i + 2], key[4 * i + 3]];
    }
    'grow: for i in 8..60 {
        let mixed = stirred(w[i - 1], i);
        w[i] = xor_word(w[i - 8], mixed);
    }
    w
}

/// The key of round r.
pub(crate) fn round_key(w: &[[u8; 4]; 60], r: usize) -> [u8; 16]
    requires { r < 15 }
    ensures { result ≡ round_key w.now r }
{
    let [a0, a1, a2, a3] = w[4 * r];
    let [b0, b1, b2, b3] = w[4 * r + 1];
    let [c0, c1, c2, c3] = w[4 * r + 2];
    let [d0, d1, d2, d3] = w[4 * r + 3];
    [
        a0, a1, a2, a3, b0, b1, b2, b3, c0, c1, c2, c3, d0, d1, d2, d3,
    ]
}
