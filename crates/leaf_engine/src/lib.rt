//! How a leaf runs: a call, or an operation of a guest, as a decision over the words that it is
//! told, the law that ties it to its row, and the word steps that each of its turns makes.
//!
//! Stands on the flat machine's rows, on `word_rules` for what words show and who may change what,
//! and on `step_core` for the steps. A leaf's author writes a `Plan` with its tree and the proof
//! that the tree means its row; `Planned` makes a `Leaf` of it. A layer above may use that `need` gives
//! the tree's next need, that `write` hands out the changes of its end in order, and that each address
//! is in the leaf's machine.
#![tactic(auto)]

mod asking;
mod events;
mod laws;
mod leaves;
mod needs;
mod plans;
mod processors;
mod runs;

pub use asking::{Choice, ask, change, make};
pub use events::{Event, HeldLock, RunTurn, Stage};
pub use laws::{
    calls_follow, facts_stand, leaves_follow, leaves_follow_rows, processors_follow,
    turns_in_pieces, turns_show,
};
pub use leaves::Leaf;
pub use needs::{Hand, Need, Place, Write};
pub use plans::{ANSWERS, Act, Plan, Planned, Progress, Stop, Told, Verdict, need_at};
pub use processors::{Gate, NoGate, Processor, Turn};
pub use runs::{LOCKS, Run, RunProgress};
