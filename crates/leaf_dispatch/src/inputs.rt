//! What the processors of a run are given.

ghost use Rattle.leaf_dispatch.specs.FirstLists.{AreFirstLists, AreFirstLists-prop};
ghost use Rattle.leaf_dispatch.specs.Inside.{AreOperations, AreOperations-prop};

use crate::first_lists::FirstLists;
use leaf_table::Given;
use td_words::Code;

/// A script's lists of operations, where they stand, and what its run is given besides.
#[derive(Clone, Copy)]
pub struct Inputs<'a> {
    pub codes: &'a [Code],
    pub first_lists: &'a FirstLists,
    pub given: Given<'a>,
    ghost limits: { AreOperations codes.now } by { AreOperations-prop codes.now },
    ghost lists_are: { AreFirstLists codes.now first_lists.now } by { AreFirstLists-prop codes.now first_lists.now },
}
