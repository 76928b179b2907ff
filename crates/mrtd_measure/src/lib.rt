//! Measurement: MRTD's records as they are hashed, and the extension of an RTMR.
//!
//! A `Measure` is a SHA-384 hasher in which the records of a TD's build stand, one after another.
//! Contracts see it as its hasher's state, and tie that to lists of bytes by sha2's relation
//! `Holds384`. A layer above may use that `Measure::new` holds the empty list, that each call
//! appends its records to every list that was held before, and that `finish` and `rtmr_next` are
//! SHA-384 of FIPS 180-4.
#![tactic(auto)]

mod measures;
#[cfg(test)]
mod tests;

pub use measures::{Measure, rtmr_next};
