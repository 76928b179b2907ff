//! The bundles of a run, and the lines that make and take them.
//!
//! That each bundle that a run makes is in the output slot of one of its lines, and no two are in one
//! slot where no two lines name one; that it is out from its call's last event on; that each has the form
//! of its type; and that of the bundles that come in each call takes the one in its input slot and looks
//! at no other. It stands on the flat machine and on the format of headers. A layer above may use the
//! laws as the contracts of the functions of `laws`, `slots-hold` of `proofs/Bundles` for what holds of
//! all slots that lines name, and `proofs/OwnEnded` for one processor's bundles.
#![tactic(auto)]

mod laws;

pub use laws::{bundle_law, counter_law, ended_law, form_law, input_law};
