//! Bundles that calls made, before they are sealed.
//!
//! Contracts see a bundle as the flat machine's `Made`: its slot, its header without a tag, and the words
//! of its payload. `Bundles` keeps those of a processor in the order in which they were made. All room is
//! taken when it is new, which only memory can refuse; a layer above may use that `push` then adds one at
//! the end while there is room, and that `get` gives each back as it was.
#![tactic(auto)]

mod made;
mod stores;

pub use made::Bundle;
pub use stores::Bundles;
