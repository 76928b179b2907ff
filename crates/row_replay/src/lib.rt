//! How a row of calls and guests is replayed, for the crates of such rows: a script is made of it, the
//! top call of `script_runner` runs it over files and an output in memory, and its replies and its guest
//! file are compared with those of the row.
//!
//! A processor's calls stand in lists, each an answer and, behind bars, the calls that have it; a
//! semicolon stands between two lists of one text. So do a VCPU's operations, behind its TDR page and
//! index, and the lines of the guest file. Where a row says no more it is replayed on 32 pages with two
//! HKIDs, with keys and with both outputs. Before a row there may be its command lines and its machine,
//! the words of its secrets file, or what is done to bundles of another row before they come in; and
//! behind it command lines that end in another way, and which calls of its files and its output fail.
#![tactic(auto)]

mod arrivals;
mod asked;
mod calls;
mod ends;
mod parts;
mod rows;
mod scripts;

pub use arrivals::{
    ArrivalRow, Edit, Forged, ForgedRow, container_of_arrival, replay_arrivals, replay_forged,
};
pub use asked::{Asked, World, container_of_asked, replay_asked, replay_changes, replay_worlds};
pub use calls::{replay_each, replay_races, replays};
pub use ends::{End, Told, replay_ends};
pub use parts::{
    BEGUN, BUILT, DIRTIED, EMPTY, ENDED, FILLED, GUEST, HANDED, INITIALIZED, KEYS, OPENED, OTHER,
    PAGE, PAGES, RUNS, SECOND, SENT, STARTED, STREAM, TREE, WAITS,
};
pub use rows::{Row, SecretRow, container_of_row, replay_rows, replay_secret_rows};
pub use scripts::{ALONE, Beside};
