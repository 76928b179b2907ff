//! What the layers above may rest on, as the contract of a function that does nothing.

ghost use Rattle.bundle_texts.specs.Laws.{BundlesReadAgain};

/// A sealed bundle opens to its payload, and a container is read as its bundles in the order of their
/// slots.
pub fn bundles_read_again()
    ensures { BundlesReadAgain }
{}
