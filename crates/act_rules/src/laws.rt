//! Laws of acts and stores, as contracts of functions that do nothing.

ghost use Rattle.act_rules.specs.Stores.{OthersStoresKeepReads};
ghost use Rattle.act_rules.specs.Acts.{EffectsRespect, RowsRespect};
ghost use Rattle.act_rules.specs.GuestActs.{OperationsKeepSpots, GuestsRespect, GuestsStoreTheirs, GuardedGuestsRespect, EveryGuestEventRespects, GuardedGuestsStore, EveryGuestEventStores};
ghost use Rattle.act_rules.specs.CallLocks.{CallLocksAreKept, GuardedEventsRespect, EveryEventRespects, EventsSpareOthers};
ghost use Rattle.act_rules.specs.GuestLocks.{OperationLocksAreKept, OperationLocksHold};

/// What one processor reads as stable looks the same after each store of another: its act, the
/// stores that it owes, and its fills.
pub fn stores_keep_reads()
    ensures { OthersStoresKeepReads }
{
    td_words::places_injective();
    word_rules::views_are_kept();
    word_rules::words_never_conflict();
}

/// Each word that acts are written in changes what words are only under the locks that the rules
/// ask for; and so does the act of each row, under the locks of its tries.
pub fn acts_respect()
    ensures effects { EffectsRespect }
    ensures rows { RowsRespect }
{}

/// Each event of a guest changes what words are only as the rules say, under the locks of its
/// VP.ENTER: the act of every operation's row, whatever its numbers are, and every access to a private
/// page change nothing of it, and the count step of the exit an epoch count alone. In every state in
/// which no stale translation is used, and so after any schedule, a processor on which a guest is in
/// has those locks, and they let each of the guest's events change what words are as it does.
pub fn guests_respect()
    ensures spots { OperationsKeepSpots }
    ensures respect { GuestsRespect }
    ensures guarded { GuardedGuestsRespect }
    ensures run { EveryGuestEventRespects }
{}

/// The words of pages that an event of a guest changes it may store to: those of a host page under the
/// lock of its try, those of a page that it accepts under that page's lock where nobody else reaches
/// it, and a private page's word where a usable translation of the TD may write. An operation holds
/// the first of the locks that its row tries, of which the page that `accept` has tried is the one
/// that its entry names, since it shares T and who gives that entry another page holds T alone: at the
/// start of every run, after each event with the bundles of that run, and so after any schedule. So at
/// its act it holds all of them, and what it stores is allowed.
pub fn guests_store()
    ensures stores { GuestsStoreTheirs }
    ensures kept { OperationLocksAreKept }
    ensures locks { OperationLocksHold }
    ensures guarded { GuardedGuestsStore }
    ensures run { EveryGuestEventStores }
{}

/// A call holds the first of the locks that its row tries, of which a page that it has tried because an
/// entry names it, or is FREE, is the one that its row still tries: at the start of every run, and after
/// each event with the bundles of that run. So in every state in which no stale translation is used
/// besides, and after any schedule, every event, a call's and a guest's, changes what words are only as
/// the rules say, under what its processor has; and what another processor may do at a word stays
/// allowed to it.
pub fn events_respect()
    ensures kept { CallLocksAreKept }
    ensures guarded { GuardedEventsRespect }
    ensures run { EveryEventRespects }
    ensures others { EventsSpareOthers }
{
    lock_words::grips_are_apart();
    word_rules::words_never_conflict();
}
