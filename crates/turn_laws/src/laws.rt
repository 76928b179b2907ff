//! The law of turns, as a contract of a function that does nothing.

ghost use Rattle.turn_laws.specs.Turns.{TurnsKeepAll};

use act_rules::stores_keep_reads;
use leaf_engine::{facts_stand, turns_in_pieces};
use lock_words::{grips_are_apart, lock_steps_shown, lock_words_follow, td_locks_stay};
use step_core::pages_change_alone;
use td_words::places_injective;
use word_rules::{respects_compose, start_is_shown, views_are_kept, words_never_conflict};

/// At the start all processors stand where the flat machine has them. Where they do, and words show its state,
/// a turn of one of them is its next event, after which all stand where the state after it has them, and the
/// words show that; and so they still do with other bundles, where the rows and leaves of calls under way are
/// the same. What is asked of a state is so at the start, and after each event, whatever bundles have come in.
pub fn turn_law()
    ensures { TurnsKeepAll }
{
    flat_core::lawful_law();
    flat_core::lock_law();
    flat_core::event_laws();
    flat_core::guest_law();
    start_is_shown();
    views_are_kept();
    words_never_conflict();
    respects_compose();
    grips_are_apart();
    lock_steps_shown();
    lock_words_follow();
    facts_stand();
    td_locks_stay();
    stores_keep_reads();
    pages_change_alone();
    places_injective();
    turns_in_pieces();
}
