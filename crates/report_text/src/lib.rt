//! The texts of a run: the replies of a logical processor, and what its guests read, extended and
//! reported.
//!
//! The crate stands on `td_words`, whose texts of values it puts on lines, on `report_core`, which makes
//! reports, on `hex` and on `itoa`. A layer
//! above may use that `host_lines` and `guest_lines` give exactly the bytes that `specs/Lines.antt`
//! defines, unless memory wasn't found.
#![tactic(auto)]

mod guest;
mod host;
mod lines;

pub use guest::{GuestNote, guest_lines};
pub use host::host_lines;
