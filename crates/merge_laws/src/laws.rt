//! The law of merges, as a contract of a function that does nothing.

ghost use Rattle.merge_laws.specs.Laws.{MergesAreRuns};

use act_rules::stores_keep_reads;
use leaf_engine::{facts_stand, turns_in_pieces};
use lock_words::{grips_are_apart, lock_steps_shown, lock_words_follow, td_locks_stay};
use step_core::pages_change_alone;
use td_words::places_injective;
use word_rules::{respects_compose, start_is_shown, views_are_kept, words_never_conflict};

/// A merge of the own lists of a script's processors, in which each load reads what the merge has
/// stored and a swap may miss where another processor has one on its slot under way, is a run of
/// the flat machine under the order of its events: with the same replies, and its last state is
/// what the words show; each processor stands there, in its call or its guest, where that state has
/// it. No swap of it misses.
pub fn merge_law()
    ensures { MergesAreRuns }
{
    flat_core::lawful_law();
    flat_core::lock_law();
    flat_core::event_laws();
    flat_core::guest_law();
    start_is_shown();
    views_are_kept();
    words_never_conflict();
    respects_compose();
    grips_are_apart();
    lock_steps_shown();
    lock_words_follow();
    facts_stand();
    td_locks_stay();
    stores_keep_reads();
    pages_change_alone();
    places_injective();
    turns_in_pieces();
}
