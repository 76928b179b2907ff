//! Rows of the line of a soak. They have a crate of their own, since one with tests is proved twice.
#![tactic(auto)]

#[cfg(test)]
mod soaks;
