//! What a container brings over, and what it shows.
//!
//! That the bundles which a run has sealed come in as they were made with the same keys, so that
//! nothing of them is forged and what is committed of them starts from the pause of the run that sealed
//! them. That no IV is used twice under one key, by its bytes; that rows find no fault of a header but
//! the one that its bytes have; and that containers differ by private words and by keys in tags and
//! sealed texts alone. It joins the laws of a run's bundles with sealing: of any bundles, of what one event
//! keeps, and of runs. A layer above may use the laws as contracts of the functions of `laws` and
//! `sealing`.
#![tactic(auto)]

mod laws;
mod sealing;

pub use laws::container_law;
pub use sealing::{covered_law, header_law, iv_bytes_law};
