//! What the layers above may rest on, as the contract of a function that does nothing.

ghost use Rattle.leaf_table.specs.Laws.{CallsHaveLeaves};

/// On every machine within the limits each call has a leaf, and each step of a guest: made for its
/// processor, with the row of the call or step, and a proof that it means that row.
pub fn calls_have_leaves()
    ensures { CallsHaveLeaves }
{}
