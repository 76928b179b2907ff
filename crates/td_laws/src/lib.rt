//! States of TDs, of their entries and of HKIDs, event by event.
//!
//! In which operation states and life states each call comes, to which it leads, and that no event leads
//! a TD any other way; to which states an event leads an entry of the secure EPT; which events change an
//! HKID, and that it is flushed and written back before another TD is given it. It stands on the flat
//! machine alone; nothing that is run uses it. A layer above may use the laws as contracts of the
//! functions of `laws`.
#![tactic(auto)]

mod laws;

pub use laws::{entry_events, hkid_events, life_events, op_events};
