//! Laws of the flat machine, as contracts of functions that do nothing.

ghost use Rattle.flat_core.specs.AccessLaw.{AccessIsKept, AccessAlwaysHolds, GuestsReachTheirOwn, AccessesAreOwn, MemoriesAreKept, CachesAreKept, CachesAreSmall, RoomIsUsed};
ghost use Rattle.flat_core.specs.Bounds.{RowsTryFew, TimelyEventsRunOut, EventsRunOut, RunsEnd, EntriesAreBounded};
ghost use Rattle.flat_core.specs.Entered.{EventsSpare, EnteredIsKept, EnteredAreInGuest};
ghost use Rattle.flat_core.specs.Entries.{EntriesHaveTheirEvents};
ghost use Rattle.flat_core.specs.GuestOrder.{OperationsTryTheirLists, GuestOrderIsKept, GuestOrderHolds};
ghost use Rattle.flat_core.specs.GuestWorked.{GuestExamples};
ghost use Rattle.flat_core.specs.Guests.{RowsSpare};
ghost use Rattle.flat_core.specs.ImportWorked.{ImportExamples};
ghost use Rattle.flat_core.specs.Laws.{RowsKeep, RowsAreBlind, MrtdIsTheDigest, RecordsAreMeasured, TimelinessIsKept, EveryWorldIsLawful, LawfulPagesAreOwned, OwnersAreKept, EveryPageIsOwned, LawfulWorldsAreCounted, CountsAreKept, ExportedAreCounted, OthersStay, QuietEventsStay, NoWordsToTell, ExclusionIsKept, LocksExclude, RefusedCallsStay, QuietCallsKeep, RefusalsLeaveTheirReply, RowsTryTheSame, CallsHaveTheirEvents, EventsKeepLawful, MrtdsAreKept, EveryMrtdIsTrue, EventsMeasure, PagesHaveOneUse, GuestsKnowTheirPages, ToldAreMerged, OperationsTellBoth};
ghost use Rattle.flat_core.specs.ListWorked.{ListExamples};
ghost use Rattle.flat_core.specs.Order.{OrderIsKept, TreeIsFreeInOrder, TreeIsNeverBusy};
ghost use Rattle.flat_core.specs.PageUses.{EventsKeepUses};
ghost use Rattle.flat_core.specs.Replies.{RepliesComeOneByOne, RepliesAreKept, RepliesAreToLines, EveryLineIsAnswered};
ghost use Rattle.flat_core.specs.Rtmrs.{EventsExtend};
ghost use Rattle.flat_core.specs.Tries.{RowsTryTheirLists};
ghost use Rattle.flat_core.specs.TwoWorlds.{OperationsAreBlind, EventsAreBlind, EventsTellTheirWords};
ghost use Rattle.flat_core.specs.Worked.{Examples};

/// The worked examples: replies of small runs, and how many events they take; of imports, of bundles that
/// a worked export makes; and of lists of pages.
pub fn worked_examples()
    ensures runs { Examples }
    ensures imports { ImportExamples }
    ensures lists { ListExamples }
{}

/// The worked examples of guests: their exits, notes and told words, and how many events they take.
pub fn guest_examples()
    ensures { GuestExamples }
{}

/// The two facts beside each row: its act keeps what every world keeps, and it is blind to private
/// words. And MRTD is read as the digest of what was measured: the records of pages added and of
/// chunks, in their order, and nothing else. A page that isn't the host's keeps its one use until it is
/// given back, by PHYMEM.PAGE.RECLAIM, MEM.PAGE.REMOVE or MEM.SEPT.REMOVE, and no event but a call's act
/// changes what pages are used for.
pub fn row_laws()
    ensures keep { RowsKeep }
    ensures blind { RowsAreBlind }
    ensures mrtd { MrtdIsTheDigest }
    ensures records { RecordsAreMeasured }
    ensures one_use { PagesHaveOneUse }
    ensures uses { EventsKeepUses }
{}

/// Every run starts in a lawful world, in which processors stand in their calls and guests as they can
/// and hold no more locks than a call and its guest's operation may try, each event keeps both,
/// whatever bundles have come in, and so every schedule leads to a lawful one:
/// who owns which page and in which list or entry of its TD that page stands, which pages a TD's entries
/// name, whose each HKID is, and how many entries of a TD are dirty and how many are exported. An event
/// keeps any lawful world lawful where the TD of its processor's guest runs.
pub fn lawful_law()
    ensures kept { TimelinessIsKept }
    ensures event { EventsKeepLawful }
    ensures run { EveryWorldIsLawful }
{}

/// In every lawful world, and so in every world that a schedule leads to, the entries of TDs that
/// aren't in TD_TEARDOWN name pages that their own TD owns, no page twice, and so none of the host's;
/// and an entry of its TD names each secure EPT page and each private page of such a TD.
pub fn page_owner_law()
    ensures lawful { LawfulPagesAreOwned }
    ensures kept { OwnersAreKept }
    ensures run { EveryPageIsOwned }
{}

/// In every lawful world, and so in every world that a schedule leads to, as many entries of a TD that
/// isn't in TD_TEARDOWN are dirty as pages were dirtied less all that its streams cleaned, and as many
/// are exported as unrestored entries and all first exports say together, modulo 2^64 (TD Migration
/// Architecture, "Private Memory Migration").
pub fn count_law()
    ensures lawful { LawfulWorldsAreCounted }
    ensures kept { CountsAreKept }
    ensures run { ExportedAreCounted }
{}

/// The act of each call leaves a virtual processor as it is, with its registers, that is in guest on
/// another logical processor, but for EXPORT.PAUSE of its own TD, which O keeps off; and so does each
/// event of another processor, where processors stand as they do in runs, whatever bundles have come
/// in. And one that is counted at its entry epoch is in guest on the logical processor with which it is
/// associated: at the start of every run, after each event, whatever bundles have come in, and so after
/// any schedule.
pub fn guest_law()
    ensures spare { RowsSpare }
    ensures events { EventsSpare }
    ensures kept { EnteredIsKept }
    ensures run { EnteredAreInGuest }
{}

/// No stale translation is used: each cached translation that may still be used, and each walk under
/// way, names the page that the secure EPT names there, at the start of every run, after each event,
/// whatever bundles have come in, and so after any schedule. Where the entry allows less than the
/// translation does, it was blocked at that epoch or later, or is exempt: EXPORTED_BLOCKEDW, from a
/// pause on or in RUNNABLE. So each access of a guest through a translation
/// reaches a private page of its own TD, which the TD's map names at that GPA page; a load gives the
/// word that the TD's guest knows, from the events of all its virtual processors and of calls; and
/// what a store puts there is what it then knows.
pub fn translation_law()
    ensures kept { AccessIsKept }
    ensures run { AccessAlwaysHolds }
    ensures own { GuestsReachTheirOwn }
    ensures accesses { AccessesAreOwn }
{}

/// A logical processor has at most 16 translations cached, no two of one GPA page of a TD: at the start
/// of every run, after each event, whatever bundles have come in, and so after any schedule. Caching
/// one more drops none of another GPA page while there is room.
pub fn cache_law()
    ensures kept { CachesAreKept }
    ensures run { CachesAreSmall }
    ensures room { RoomIsUsed }
{}

/// An event of one processor leaves the others' records alone; what is refused, tried, undone or
/// released changes nothing but locks and the processor's own record; and so a call that is refused
/// changes nothing from its first event to its last, holds no lock at its end, and leaves nothing but
/// its refusal in the processor's record. Where there are no words to tell, an event brings none.
pub fn event_laws()
    ensures others { OthersStay }
    ensures quiet { QuietEventsStay }
    ensures refused { RefusedCallsStay }
    ensures own_words { NoWordsToTell }
    ensures kept { QuietCallsKeep }
    ensures left { RefusalsLeaveTheirReply }
{}

/// Nobody holds a lock beside one who holds it alone: at the start of every run, after each event,
/// whatever bundles have come in, and so after any schedule.
pub fn lock_law()
    ensures kept { ExclusionIsKept }
    ensures run { LocksExclude }
{}

/// The tree lock of a TD can't be busy for a processor that holds the TD's op state lock alone: no
/// other holds it or is being refused it, also in guest, and a try of it is granted in either mode. So
/// it is where what each call holds are the first locks that it tries, and a guest's operation tries
/// the tree lock of its own TD alone, whose op state lock its call shares; which each event keeps,
/// whatever bundles have come in.
pub fn tree_lock_law()
    ensures kept { OrderIsKept }
    ensures free { TreeIsFreeInOrder }
    ensures run { TreeIsNeverBusy }
{}

/// Every call tries the locks of its list, as many as the leaf table says at most, and ends after a
/// number of its own events that this bounds, whatever the other processors do: 2n + 1 where it
/// succeeds with n locks, one where it is refused for an argument, and 10 and five for each operation
/// that VP.ENTER asks for, of which its guest completes no more. Of VP.ENTER's six come before its
/// guest can begin its first operation, and four from the count step on. At the end of a run no
/// processor has an event left. An event brings one reply or none; after any schedule a processor has
/// no more replies than lines, and at the end of a run it has exactly one for each.
pub fn end_laws()
    ensures lists { RowsTryTheirLists }
    ensures tries { RowsTryFew }
    ensures timely { TimelyEventsRunOut }
    ensures runs_out { EventsRunOut }
    ensures runs_end { RunsEnd }
    ensures bounded { EntriesAreBounded }
    ensures same_tries { RowsTryTheSame }
    ensures events { CallsHaveTheirEvents }
    ensures entries { EntriesHaveTheirEvents }
    ensures one_reply { RepliesComeOneByOne }
    ensures few_kept { RepliesAreKept }
    ensures no_more { RepliesAreToLines }
    ensures every_line { EveryLineIsAnswered }
{}

/// Each guest operation tries the locks of its list. What a guest holds are the first of them in their
/// order, of the operation that is due, or where one was completed of that one: at the start of every
/// run, after each event, whatever bundles have come in, and so after any schedule.
pub fn guest_order_law()
    ensures lists { OperationsTryTheirLists }
    ensures kept { GuestOrderIsKept }
    ensures run { GuestOrderHolds }
{}

/// Two runs side by side, whose openings differ in private words alone: each guest operation asks,
/// answers and tells the same in two worlds of which the second tells the words that the first tells;
/// one event of each run keeps them alike, but for what guests note of their own; and each event puts
/// the words that it tells at the end of the world's list.
pub fn alike_laws()
    ensures operations { OperationsAreBlind }
    ensures events { EventsAreBlind }
    ensures told { EventsTellTheirWords }
{}

/// MRTD of a TD that isn't being built is read as the digest of what it has measured, or where it was
/// imported, as the six words that its import gave: at the start of every run, after each event,
/// whatever bundles have come in, and so after any schedule. No event but the act of a call changes
/// what TDs have measured, and none but an `rtmr` operation's act extends an RTMR, which only
/// MNG.CREATE and IMPORT.STATE.TD give other words.
pub fn measurement_laws()
    ensures kept { MrtdsAreKept }
    ensures mrtd { EveryMrtdIsTrue }
    ensures events { EventsMeasure }
    ensures rtmrs { EventsExtend }
{}

/// What the guest of a TD that isn't in TD_TEARDOWN knows of a private page is what the page holds: at
/// the start of every run, after each event where no stale translation is used, whatever bundles have
/// come in, and so after any schedule, and it knows nothing of a page whose entry is FREE, PENDING or
/// PENDING_BLOCKED.
pub fn memory_law()
    ensures kept { MemoriesAreKept }
    ensures run { GuestsKnowTheirPages }
{}

/// After any schedule, the words that guests told, in the order of the events, are a merge of those
/// that each processor recorded: an operation that tells words puts the same ones at the end of both.
pub fn told_law()
    ensures merged { ToldAreMerged }
    ensures both { OperationsTellBoth }
{}
