//! Files and an output, as the program sees them, and the container: a file's bytes as bundles in
//! their slots, and back.
//!
//! `Files` and `Sink` say what files and an output may do and when they may fail. In memory they
//! tell their contents (`MemFiles` and `MemSink` fail exactly the listed calls, `HonestFiles` and
//! `HonestSink` none); `DiskFiles` and `StdSink` stand over the real world and tell none. All of them
//! keep a history of what was done, told or not. A layer above may use the clauses of the two traits.
//!
//! Contracts see bundles as td_words' records of slots and bytes. A layer above may use that
//! `read_container` is `container_in`, which names the first byte of the first bad entry, that
//! `write_container` is `container_bytes`, and that what is written is read again as the bundles that
//! were written, what is read is the one spelling of its bundles, and a fault behind the name is at the
//! first bad entry (`containers_read_again`). Only memory can keep either call from its answer.
#![tactic(auto)]

mod containers;
mod disk;
mod entries;
mod faults;
mod held;
mod history;
mod honest;
mod laws;
mod listed;
mod outside;
mod standard_output;

pub use containers::{read_container, write_container};
pub use disk::DiskFiles;
pub use faults::ContainerFault;
pub use held::NamedFile;
pub use history::{History, Note};
pub use honest::{HonestFiles, HonestSink};
pub use laws::containers_read_again;
pub use listed::{MemFiles, MemSink};
pub use outside::{Files, LoadFault, PutFault, SaveFault, Sink};
pub use standard_output::StdSink;
