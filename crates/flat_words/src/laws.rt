//! The law of words, as the contract of a function that does nothing.

ghost use Rattle.flat_words.specs.Words.{EventsKeepWords, RunsHoldWords, BundlesHaveWords};

/// Each word of a run is below 2^64, where what the run was given is: the values of HOST.WRITE, VP.INIT
/// and `set`, the 512 secret words, the payload words of the bundles that come in, and the words to
/// tell, where there are any. So are, in every state of every run, the words of memory, registers, RTMRs
/// and MRTDs, what guests know of their private pages, the words that were told, and the payload words of
/// each bundle that was made. One event keeps it.
pub fn word_law()
    ensures kept { EventsKeepWords }
    ensures runs { RunsHoldWords }
    ensures bundles { BundlesHaveWords }
{}
