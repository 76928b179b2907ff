//! A key, expanded, and the cipher under it.

ghost use Rattle.std.specs.Prelude.{◌≡◌, ℕ, ◌<◌, List, [], slice_index_or};
ghost use Rattle.aes_block.specs.Planes.{lanes16, HasKey};
ghost use Rattle.aes_block.specs.Aes.{cipher};

use crate::key_schedules::{expand, round_key};
use crate::lanes::lanes_of;
use crate::planes::{Planes, key_planes, to_blocks, to_planes};
use crate::rounds::{add, last_round, round};
use std::simd::prelude::*;

/// A key of 32 bytes, expanded to its fifteen round keys. Contracts tie it to the key by `HasKey`.
#[derive(Clone, Copy)]
pub struct Aes256 {
    keys: [Planes; 15],
}

impl Aes256 {
    /// Expands a key.
    pub fn new(key: &[u8; 32]) -> Aes256
        ensures { HasKey result key.now }
    {
        let w = expand(key);
        let zero = u8x16::splat(0);
        let mut keys = [to_planes([zero; 8]); 15];
        for r in 0..15 {
            let bytes = round_key(&w, r);
            keys[r] = key_planes(&bytes);
        }
        Aes256 { keys }
    }

    /// Each of eight blocks under the key, in the time of one.
    #[inline(always)]
    pub fn encrypt_eight(&self, blocks: [u8x16; 8]) -> [u8x16; 8]
        ensures { (key : List ℕ) → HasKey self.now key
            → (i : ℕ) → i < 8 → lanes16 (slice_index_or result i []) ≡ cipher key (lanes16 (slice_index_or blocks i [])) }
    {
        let turned = to_planes(blocks);
        let mut q = add(turned, &self.keys[0]);
        for r in 0..13 {
            q = round(q, &self.keys[r + 1]);
        }
        let last = last_round(q, &self.keys[14]);
        to_blocks(last)
    }

    /// One block under the key.
    pub fn encrypt_block(&self, block: &[u8; 16]) -> [u8; 16]
        ensures { (key : List ℕ) → HasKey self.now key → result ≡ cipher key block.now }
    {
        let [first, ..] = self.encrypt_eight([u8x16::from_array(*block); 8]);
        lanes_of(first)
    }
}
