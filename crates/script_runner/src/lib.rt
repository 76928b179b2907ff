//! The top call, over the files and the output of `bundle_store`: the ending of a command on a script is
//! decided by what it loads, its text is put, and then the container and the guest file are saved. The
//! bundles of the container that it names are opened before the run. A soak loads and saves nothing, and the
//! check of a report loads its file and the key file, and saves nothing.
#![tactic(auto)]

mod commanded;
mod ending;
mod reports;
mod top;

pub use top::{give_up, tdx_main};
