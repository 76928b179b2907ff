//! Tests of `script_runner`: files and outputs in memory, and what the top call makes of scripts and of
//! their faults. They have a crate of their own, since one with tests is proved twice.
#![tactic(auto)]

#[cfg(test)]
mod exports;
#[cfg(test)]
mod memory;
#[cfg(test)]
mod names;
#[cfg(test)]
mod options;
#[cfg(test)]
mod outputs;
#[cfg(test)]
mod replays;
#[cfg(test)]
mod reports;
#[cfg(test)]
mod too_long;
#[cfg(test)]
mod verifies;
