//! Rows of calls, on the top call of `script_runner`: what the calls that build a TD and end it, and
//! those of a migration's source, answer by the profile's tables. They have a crate of their own,
//! since one with tests is proved twice.
//!
//! A processor's calls stand in lists, each an answer and, behind bars, the calls that have it.
#![tactic(auto)]

#[cfg(test)]
mod arguments;
#[cfg(test)]
mod exports;
#[cfg(test)]
mod lives;
#[cfg(test)]
mod pages;
#[cfg(test)]
mod teardowns;
#[cfg(test)]
mod trees;
#[cfg(test)]
mod vcpus;
