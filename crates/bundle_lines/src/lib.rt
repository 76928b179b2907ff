//! The bundles of a container as lines, for people who look into one.
//!
//! A layer above may use that `bundle_lines` gives exactly the bytes that `specs/BundleLines.antt` defines,
//! unless memory wasn't found.
#![tactic(auto)]

mod lines;

pub use lines::bundle_lines;
