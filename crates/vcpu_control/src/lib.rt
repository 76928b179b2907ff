//! The leaves of virtual processors: VP.CREATE, VP.INIT, VP.ENTER with the count step of its exit, and
//! VP.FLUSH.
//!
//! Each leaf is a `Plan` of `leaf_engine`, whose tree mirrors its row, with the proof that it means
//! that row; of VP.ENTER and of the exit the layer above may take that from `entry_means` and
//! `exit_means` besides. The first three calls begin with the beginning of a TD's rows, which is
//! `leaf_parts`'s, and VP.FLUSH with as much of it as tells the life state; the exit begins under the
//! locks that its VP.ENTER holds.
#![tactic(auto)]

mod laws;
mod vp_creations;
mod vp_entries;
mod vp_exits;
mod vp_flushes;
mod vp_inits;
mod words;

pub use laws::{entry_means, exit_means};
pub use vp_creations::VpCreate;
pub use vp_entries::Enter;
pub use vp_exits::Exit;
pub use vp_flushes::VpFlush;
pub use vp_inits::VpInit;
pub use words::{says_page_of, vcpu_told};
