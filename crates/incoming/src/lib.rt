//! Bundles that come in, opened.
//!
//! Contracts see such a bundle as the flat machine's `Incoming`: its header or the first fault of its
//! form, whether its tag is that of its bytes, and the words that it opens to. A layer above may use
//! that `open_bundles` makes `incoming_in` of each bundle of a container, that `open_one_more` adds one
//! more in its slot between the others, that `get` gives the one of a slot, that a bundle which was sealed comes in as it was made (`sealed_comes_in`), and that it begins with
//! what `write_header` writes (`begin_bundle`). Only memory can keep a call from its answer.
#![tactic(auto)]

mod arrivals;
mod laws;
mod openings;

pub use arrivals::{Incoming, IncomingBundles};
pub use laws::{begin_bundle, sealed_comes_in};
pub use openings::{open_bundles, open_one_more};
