//! What the layers above may rest on, as contracts of functions that do nothing.

ghost use Rattle.step_core.specs.Laws.{PagesChangeAlone, StepsMakeWords, TriesTakenBack};

/// Clearing a page and copying one change that page's 512 content words, and no other word and no
/// slot.
pub fn pages_change_alone()
    ensures { PagesChangeAlone }
{}

/// The words after items that were played are those that their word steps make.
pub fn steps_make_words()
    ensures { StepsMakeWords }
{}

/// A try that is undone or released leaves the lock word as it was.
pub fn tries_taken_back()
    ensures { TriesTakenBack }
{}
