//! AES-256 of FIPS 197, eight blocks at a time.
//!
//! The cipher runs on planes: eight vectors of sixteen bytes in which bit i of lane p of plane b is bit
//! b of byte p of block i, so that one instruction works on a bit of all 128 bytes. It looks nothing up
//! in a table but the S-box of the key expansion. A layer above may use that `Aes256::new` holds the
//! key (`HasKey`), that `encrypt_block` and `encrypt_eight` are the standard's cipher under each key
//! that is held, and that the definition meets the standard's example (`standard_met`). No call takes
//! memory. Nothing is claimed of the time that a call takes.
#![tactic(auto)]

mod ciphers;
mod key_schedules;
mod lanes;
mod laws;
mod planes;
mod rounds;
mod sbox;

pub use ciphers::Aes256;
pub use laws::standard_met;
