//! Rows of scripts whose processors run in threads: what no clause says of them, that they run beside
//! each other under the top call's `run`. They have a crate of their own, since one with tests is proved
//! twice.
#![tactic(auto)]

#[cfg(test)]
mod meetings;
