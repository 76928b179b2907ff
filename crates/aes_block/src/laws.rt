//! That the definition is the standard's, as the contract of a function that does nothing.

ghost use Rattle.aes_block.specs.Laws.{StandardMet};

/// `inverse` is the inverse in the field of 256 elements, and the cipher turns the standard's example
/// block into its cipher block.
pub fn standard_met()
    ensures { StandardMet }
{}
