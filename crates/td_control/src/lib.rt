//! Calls that build a TD and read of it, as leaves: MNG.CREATE, MNG.KEY.CONFIG, MNG.ADDCX,
//! MNG.INIT, MNG.RD and MR.FINALIZE.
//!
//! Each leaf is a `Plan` of `leaf_engine`, whose tree mirrors its row, with the proof that it means
//! that row.
#![tactic(auto)]

mod finalizations;
mod key_configurations;
mod page_additions;
mod reads;
mod td_creations;
mod td_inits;

pub use finalizations::Finalize;
pub use key_configurations::KeyConfig;
pub use page_additions::AddCx;
pub use reads::Rd;
pub use td_creations::Create;
pub use td_inits::Init;
