//! Rows of `trace_table`: what benches of one table answer, and the words at its close. They have a
//! crate of their own, since one with tests is proved twice.
#![tactic(auto)]

#[cfg(test)]
mod benches;
#[cfg(test)]
mod threads;
