//! What the layers above may rest on, as contracts of functions that do nothing.

ghost use Rattle.leaf_engine.specs.Facts.{EventsKeepFacts, FactsBegin, FactsStand, OutsideNoneIsCounted};
ghost use Rattle.leaf_engine.specs.Follows.{LeavesFollowRows};
ghost use Rattle.leaf_engine.specs.Shown.{TurnsShow};
ghost use Rattle.leaf_engine.specs.Calls.{CallsBegin, CallsFollow, StartIsMet};
ghost use Rattle.leaf_engine.specs.OwnLists.{TurnsInPieces};
ghost use Rattle.leaf_engine.specs.Doing.{LeavesFollow};
ghost use Rattle.leaf_engine.specs.Following.{ProcessorsFollow};
ghost use Rattle.leaf_engine.specs.Reached.{ReachedIsMet};

use lock_words::{lock_steps_shown, lock_words_follow, reached_locks_stand};
use step_core::pages_change_alone;
use td_words::places_injective;

/// A leaf that was told words that still stand, as far as it looked at them, comes to the next move
/// of its row: the try of that lock at its place, the refusal with that reply, or the act, whose
/// changes are then allowed and make words that show the world after it.
pub fn leaves_follow_rows()
    ensures { LeavesFollowRows }
{}

/// Over words that show a state, a turn of a leaf on its way makes the next move of its row: the
/// step of the try that is due, granted as the lock's word says; or the act that refuses, which
/// changes nothing; or the act that succeeds, after which the words show what the row's act makes
/// of the world, with the row's reply.
pub fn turns_show()
    ensures { TurnsShow }
{
    places_injective();
    pages_change_alone();
}

/// Facts of states, of who holds what, of the locks that stand, of the guests that run, and of the
/// translations that they use, are so at the start, after each event where locks are sound and no
/// stale translation is used, and so in every state that a run reaches. A processor outside guests
/// then finds no virtual processor counted that isn't another's.
pub fn facts_stand()
    ensures begin { FactsBegin }
    ensures events { EventsKeepFacts }
    ensures reached { FactsStand }
    ensures outside { OutsideNoneIsCounted }
{
    flat_core::translation_law();
    reached_locks_stand();
}

/// A run of a call's leaf begins where its processor does. From then on, over words that show a
/// lawful state, each turn is the next event of that processor in the flat machine: its steps leave
/// words that show the state after that event, and the row's reply comes with the last one. What is
/// asked of the state is so at the start, which words that are all 0 show, and in every state that
/// a run of at most eight processors reaches.
pub fn calls_follow()
    ensures start { StartIsMet }
    ensures reached { ReachedIsMet }
    ensures begin { CallsBegin }
    ensures follow { CallsFollow }
{
    flat_core::lawful_law();
    flat_core::lock_law();
    flat_core::event_laws();
    word_rules::start_is_shown();
    lock_words_follow();
    lock_steps_shown();
    facts_stand();
    places_injective();
    pages_change_alone();
}

/// Over words that show a lawful state each turn of a leaf's run is the next event of its processor,
/// whatever the leaf is of: a call, an operation of a guest, a guest's access to a word, the load of an
/// entry in its walk, or the count step of its exit.
pub fn leaves_follow()
    ensures { LeavesFollow }
{
    lock_words_follow();
    lock_steps_shown();
    places_injective();
    pages_change_alone();
}

/// A logical processor over words, in its calls and in its guests, does what one leaf means at a time:
/// that of its line, or that of its guest's next step. Each of its turns is its next event in the flat
/// machine, after which it stands where the state after that event has it, and the words show that
/// state. It starts where the start of a run has it, and all that is asked of a state is so in every
/// state that a run of at most eight processors reaches.
pub fn processors_follow()
    ensures { ProcessorsFollow }
{
    flat_core::lock_law();
    flat_core::event_laws();
    word_rules::start_is_shown();
    lock_words_follow();
    facts_stand();
    leaves_follow();
}

/// The word steps of a turn are told in pieces, in order, and exactly one of them is its event: the
/// step of a try, undo or release; of an act the first store that isn't a fill, or the last load
/// where it stores nothing.
pub fn turns_in_pieces()
    ensures { TurnsInPieces }
{}
