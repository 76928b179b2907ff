//! The laws of TDs' states, as contracts of functions that do nothing.

ghost use Rattle.td_laws.specs.Asked.{RowsAskForLives, RowsAskForOps};
ghost use Rattle.td_laws.specs.Entries.{EventsMoveEntries};
ghost use Rattle.td_laws.specs.Keys.{EventsChangeKeys, HkidsGoRound};
ghost use Rattle.td_laws.specs.Lives.{CallsComeInTheirLives, EventsLeadLives, EventsMoveLives};
ghost use Rattle.td_laws.specs.Ops.{CallsComeInTheirOps, EventsLeadOps, EventsMoveOps, FailedImportsStay};

/// The operation states of TDs. A call has a line in the table of calls exactly where its row has a
/// condition that is refused with OP_STATE_INCORRECT, which is that the TD is in one of the line's states;
/// MNG.CREATE alone has a line and asks nothing. So where the conditions of a call hold its TD is in one
/// of the states in which the call comes. After each event each TD is in the state to which the table
/// leads it, by the act of a call of its own, or else in the one that it was in. So of a page that isn't
/// the host's an event leaves the TD's state or moves it along the state machine, and from FAILED_IMPORT
/// no call leads back.
pub fn op_events()
    ensures ask { RowsAskForOps }
    ensures come { CallsComeInTheirOps }
    ensures lead { EventsLeadOps }
    ensures moves { EventsMoveOps }
    ensures failed { FailedImportsStay }
{}

/// The life states of TDs, in the same way: a call that asks for an operation state comes while the TD
/// has its keys alone.
pub fn life_events()
    ensures ask { RowsAskForLives }
    ensures come { CallsComeInTheirLives }
    ensures lead { EventsLeadLives }
    ensures moves { EventsMoveLives }
{}

/// HKIDs: MNG.CREATE gives one to a TD, MNG.VPFLUSHDONE flushes the TD's, PHYMEM.CACHE.WB marks each that
/// was flushed, and MNG.KEY.FREEID frees the TD's; no other event changes any. In a lawful world each event
/// leaves an HKID or moves it on one step round: free, assigned, flushed, written back, free. So none is
/// given to another TD before it was flushed and written back.
pub fn hkid_events()
    ensures change { EventsChangeKeys }
    ensures round { HkidsGoRound }
{}

/// Entries of the secure EPT: each event leaves an entry of a TD in its state, or moves it to one that is
/// next to it.
pub fn entry_events()
    ensures { EventsMoveEntries }
{}
