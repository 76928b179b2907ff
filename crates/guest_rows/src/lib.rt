//! Rows of guests, on the top call of `script_runner`: what VP.ENTER and a guest's operations answer
//! and do by the profile's tables, beside calls that block, track and remove pages. They have a crate
//! of their own, since one with tests is proved twice; how a row is written, `row_replay` says.
//! `checks/second/rows` reads the same rows, and tries the second model by them.
#![tactic(auto)]

#[cfg(test)]
mod accepts;
#[cfg(test)]
mod entries;
#[cfg(test)]
mod exits;
#[cfg(test)]
mod locks;
#[cfg(test)]
mod private_words;
#[cfg(test)]
mod processors;
#[cfg(test)]
mod relocations;
#[cfg(test)]
mod reports;
#[cfg(test)]
mod rtmrs;
#[cfg(test)]
mod secrets;
#[cfg(test)]
mod shared_words;
#[cfg(test)]
mod tracking;
#[cfg(test)]
mod translations;
#[cfg(test)]
mod walks;
