//! The texts of a script's run: its reply lines, the container of its bundles, and the lines of what its
//! guests noted.
//!
//! Stands on `leaf_dispatch`, whose `LpState` makes a processor's turns, on `trace_table`, whose table
//! they are made on, on `merge_laws`, by which turns over words are a run of the flat machine, on
//! `bundle_texts`, which seals its bundles, and on `incoming`, which opens those that come in. A layer above may use that the texts of `replay_texts` are
//! those of the flat machine's run under the script's schedule, from the opening that has what the run
//! is given: secret words, and the bundles that come in; and one that looks on while a run is made gives
//! `script_run` an `Onlooker`, and learns what that seeks of the run.
#![tactic(auto)]

mod key_pairs;
mod noted;
mod opened;
mod replay;
mod sealed;
mod threads;
mod turns;

pub use key_pairs::KeyPair;
pub use opened::{no_secrets, opened_bundles};
pub use replay::{Texts, all_lines, all_notes, ended_processors, laws_of_turns, replay_texts};
pub use sealed::sealed_container;
pub use threads::threaded_texts;
pub use turns::{Onlooker, Ran, script_run};
