//! Rows of calls that block, track, remove and move memory, and of VP.FLUSH, on the top call of
//! `script_runner`. They have a crate of their own, since one with tests is proved twice; how a row is
//! written, `row_replay` says.
#![tactic(auto)]

#[cfg(test)]
mod relocations;
#[cfg(test)]
mod tracking;
