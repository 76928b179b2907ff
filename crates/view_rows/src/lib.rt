//! Tests of `view_runner`: what its top call makes of words, of scripts with their inputs, and of containers.
//! They have a crate of their own, since one with tests is proved twice.
#![tactic(auto)]

#[cfg(test)]
mod inputs;
#[cfg(test)]
mod words;
