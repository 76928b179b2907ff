//! What the layers above may rest on, as the contract of a function that does nothing.

ghost use Rattle.bundle_store.specs.Laws.{ContainersReadAgain};

/// What is written is read again as the bundles that were written; what is read is the one spelling of
/// what was read; and behind the name a fault is at the first bad entry.
pub fn containers_read_again()
    ensures { ContainersReadAgain }
{}
