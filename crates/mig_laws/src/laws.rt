//! Laws of a migration's source, as contracts of functions that do nothing.

ghost use Rattle.mig_laws.specs.Ivs.{NoIvComesTwice};
ghost use Rattle.mig_laws.specs.Once.{NoBundleIsTakenTwice, TakenAreSpent};
ghost use Rattle.mig_laws.specs.Paused.{PausesAreKept, StartedAreSentAsPaused};
ghost use Rattle.mig_laws.specs.Source.{SourceIsKept, EveryPageHoldsItsPayload, EverySentIsTracked, NoStoreReachesSent};
ghost use Rattle.mig_laws.specs.States.{StatesSentAreAsPaused, StatesAreKept, PositionsAreKept};

/// No IV is used twice under one key. In every state of every run, no two bundles that were made are
/// sealed with the same key and have the same stream, session and iv. Each of these fits its bytes of
/// the IV, and so no two have the same key and the same 12 bytes of IV. Types 0 to 5 go under the key
/// from source to destination, and type 6 under the key back: a session is imported once, and so given
/// up once (SP 800-38D, section 8).
pub fn iv_law()
    ensures { NoIvComesTwice }
{}

/// What a source sends is what its pages hold. In every state of every run, of each TD whose export
/// stands, and each GPA page of which its session has a memory bundle, the page's entry is in an
/// exported state, and where it isn't dirty its words in the last such bundle are the 512 words of the
/// page, which are what its guest knows to be there. In LIVE_EXPORT each page in EXPORTED_BLOCKEDW is
/// blocked for writing and tracked, so no store of any guest reaches it. One event keeps all this,
/// whatever bundles have come in.
pub fn source_law()
    ensures kept { SourceIsKept }
    ensures pages { EveryPageHoldsItsPayload }
    ensures tracked { EverySentIsTracked }
    ensures stores { NoStoreReachesSent }
{}

/// A start token says that its session was paused, and that what was sent of it is what was there at
/// the pause. In every state of every run, EXPORT.PAUSE noted the TD's image under each session that has
/// a start token, and the last payload of each page that the session sent is that page of the image. It
/// is so while the export stands, and once it is over.
pub fn pause_law()
    ensures kept { PausesAreKept }
    ensures runs { StartedAreSentAsPaused }
{}

/// The states that a session with a start token has exported are those of the pause. In every state of
/// every run, its bundle of type 0 has MRTD of the image that EXPORT.PAUSE noted, and how many virtual
/// processors that image has; one of type 1 has the RTMRs; and one of type 2 the registers of the virtual
/// processor at its index, and 32 bits of its position, which are the position where no guest's code has
/// more than 256 operations. One event keeps it, whatever bundles have come in; and, where codes are
/// short, that no position of an image that was noted is above 256.
pub fn state_law()
    ensures kept { StatesAreKept }
    ensures positions { PositionsAreKept }
    ensures runs { StatesSentAreAsPaused }
{}

/// A run takes no bundle of types 0 to 5 twice, whoever made it and whether its tag was forged or not. No two events of a
/// run take in bundles of one session with the same stream and counter, and no two begin one session: a
/// session that begins is later than any before, and each stream takes the counter that is due, and no
/// other. One event keeps it, whatever bundles have come in: the session of what was taken isn't above the
/// last one that was imported, and each import that stands under it has counted it.
pub fn once_law()
    ensures kept { TakenAreSpent }
    ensures runs { NoBundleIsTakenTwice }
{}
