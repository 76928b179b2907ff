//! Rows of scripts, on `script_text`: what good scripts say, and the line and the reason of bad ones.
//! They have a crate of their own, since one with tests is proved twice.
#![tactic(auto)]

#[cfg(test)]
mod scripts;
