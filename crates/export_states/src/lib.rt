//! Leaves of a migration's source that export a state: of a TD, and of a virtual processor.
//!
//! Each leaf's tree mirrors its row, with the proof that it means that row, and so does the bundle that
//! it makes: `bundle` gives that of the words that it was told. Stands on `leaf_parts` and on
//! `stream_parts`, which have the beginning of a TD's rows and the stream that counts the bundle.
#![tactic(auto)]

mod states;
mod td_states;
mod vp_states;

pub use states::Stated;
pub use td_states::StateTd;
pub use vp_states::StateVp;
