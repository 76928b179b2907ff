//! What these leaves show, as a contract of a function that does nothing.

ghost use Rattle.leaf_trials.specs.Trials.{EnteringMeans, MakingMeans, TellingMeans};

/// The leaf of a call that enters a guest and drops translations means its row, and so do those of a
/// call that makes a bundle, and of an operation that notes and tells a word.
pub fn trials_mean()
    ensures entering { EnteringMeans }
    ensures making { MakingMeans }
    ensures telling { TellingMeans }
{}
