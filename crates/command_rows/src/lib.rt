//! Rows of command lines, on `command_files`: what words ask for. They have a crate of their own, since
//! one with tests is proved twice.
#![tactic(auto)]

#[cfg(test)]
mod lines;
