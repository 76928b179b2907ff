//! The table of leaves: which leaf each call has, and each step of a guest.
//!
//! Stands on `leaf_engine`, whose leaves they are, and on the crates of leaves. A layer above may use
//! that `leaf_of` and `step_leaf` make the leaf of the table, which has done nothing yet, and that a
//! leaf gives the bundle that it has made, and gives up and takes again the one that it was given. By
//! `calls_have_leaves` the law of merges speaks of these leaves.
#![tactic(auto)]

mod bundle_plans;
mod given;
mod laws;
mod leaves;
mod plans;
mod steps;

pub use bundle_plans::BundlePlan;
pub use given::Given;
pub use laws::calls_have_leaves;
pub use leaves::{AnyLeaf, leaf_of, step_leaf};
pub use plans::AnyPlan;
pub use steps::Step;
