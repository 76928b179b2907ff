//! Words of 64 bits.
//!
//! That each word of a run is below 2^64, where the words that it was given are: those of memory, of
//! registers, RTMRs and MRTDs, those that are told, and those of the bundles that are made. It stands on
//! the flat machine alone. A layer above may use the law as the contract of the function of `laws`.
#![tactic(auto)]

mod laws;

pub use laws::word_law;
