//! The flat machine: the abstract state of the modelled TDX module, the row of each call, and the
//! runs that a schedule gives.
//!
//! The definitions stand in `specs/` and are read in the order of docs/definitions.md. Beside them
//! stand two that run, `allows` and `tracked`, and the laws that hold of every run whatever the
//! schedule. A layer above uses the definitions, and the laws as contracts of the functions of
//! `laws`.
#![tactic(auto)]

mod laws;
mod rights;

pub use laws::{
    alike_laws, cache_law, count_law, end_laws, event_laws, guest_examples, guest_law,
    guest_order_law, lawful_law, lock_law, measurement_laws, memory_law, page_owner_law, row_laws,
    told_law, translation_law, tree_lock_law, worked_examples,
};
pub use rights::{allows, tracked};
