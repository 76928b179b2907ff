//! The law of words that scripts give, as the contract of a function that does nothing.

ghost use Rattle.script_words.specs.Given.{ScriptsGiveWords};

/// Each value of a script in form is below 2^64, each secret word that it names is one of 512, and each
/// of its lists has at most 256 operations. So where the secret words, and the payload words of the
/// bundles that come in, are below 2^64, all that its run is given is.
pub fn scripts_give_words()
    ensures { ScriptsGiveWords }
{}
