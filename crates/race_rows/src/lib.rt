//! Rows of races, on the top call of `script_runner`: at which locks the calls of processors meet, under
//! schedules. They have a crate of their own, since one with tests is proved twice.
//!
//! A processor's calls stand in lists, each an answer and, behind bars, the calls that have it.
#![tactic(auto)]

#[cfg(test)]
mod races;
#[cfg(test)]
mod removals;
#[cfg(test)]
mod tree_races;
