//! Rows of the calls that make migration bundles, on the top call of `script_runner`: what they answer by
//! the profile's table, at which locks they meet others, and which bundles stand in the container that is
//! saved. They have a crate of their own, since one with tests is proved twice.
#![tactic(auto)]

#[cfg(test)]
mod containers;
#[cfg(test)]
mod locks;
#[cfg(test)]
mod migrations;
#[cfg(test)]
mod page_locks;
#[cfg(test)]
mod pages;
#[cfg(test)]
mod sessions;
