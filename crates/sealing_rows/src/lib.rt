//! Rows of the crates that make migration's bytes: the standards' examples, and bundles and containers
//! of the profile. They have a crate of their own, since one with tests is proved twice.
#![tactic(auto)]

#[cfg(test)]
mod ciphers;
#[cfg(test)]
mod containers;
#[cfg(test)]
mod gcm_cases;
#[cfg(test)]
mod headers;
#[cfg(test)]
mod turned_bits;
