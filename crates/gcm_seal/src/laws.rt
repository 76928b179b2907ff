//! That the definition is the standard's, as the contract of a function that does nothing.

ghost use Rattle.gcm_seal.specs.Laws.{GcmStandardMet};

/// A text that was sealed is opened to what it was, and the definition meets examples of the mode's
/// specification.
pub fn gcm_standard_met()
    ensures { GcmStandardMet }
{}
