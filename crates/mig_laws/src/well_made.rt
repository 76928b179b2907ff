//! The laws of a migration session's bundles, as the contracts of functions that do nothing.

ghost use Rattle.mig_laws.specs.WellMade.{WellIsKept, EveryListIsWellMade, EverySessionAgrees};
ghost use Rattle.mig_laws.specs.Imported.{ImportsBegin, ImportsStayInOrder, ImportsKeepLast, TokenBringsAll, TokenFitsThen};

/// A session's bundles are well made. In every state of every run each bundle of types 0 to 5 comes
/// after those before it: only a page's is on another stream than the first; its counter is the
/// number of those of its session on its stream; none of its session is of a later migration epoch, none
/// before a token is of the token's, and none that has one of its pages is of its own; a token's total is the
/// number of all before it in the session; and after a start token come pages alone. The words of a TD
/// whose export stands say the same: each stream's counter is the number of the session's bundles there,
/// none is of a later migration epoch than the TD is in, and a page that was exported is in an exported
/// state and marked with no earlier epoch than its bundles are of. One event keeps all this, whatever
/// bundles have come in.
pub fn well_made_law()
    ensures kept { WellIsKept }
    ensures lists { EveryListIsWellMade }
    ensures sessions { EverySessionAgrees }
{}

/// A destination has imported the first so many bundles of each stream of a session, and none of a later
/// migration epoch than the one that it is in. So it is at first, and stays with each further bundle, if
/// it is the next one of its stream. A bundle of pages of that epoch is the last one of each of them that was
/// imported, in the order in which the source made them too, and every other page's last one stays. A
/// token that begins a later epoch, with a total that is the number of bundles imported, brings all: each
/// bundle of the session that was made before it was imported, and none from there on; so each page's
/// last payload that was imported is the last one that was made before the token. And where exactly
/// those were imported, the token fits.
pub fn join_laws()
    ensures begin { ImportsBegin }
    ensures order { ImportsStayInOrder }
    ensures pages { ImportsKeepLast }
    ensures tokens { TokenBringsAll }
    ensures fits { TokenFitsThen }
{}
