//! Rows of the container of the bundles that a run made: bytes that another implementation of AES-256 in
//! Galois counter mode gave. They have a crate of their own, since one with tests is proved twice.
#![tactic(auto)]

#[cfg(test)]
mod containers;
