//! Laws of pages and of guests' accesses, as contracts of functions that do nothing.

ghost use Rattle.flat_laws.specs.Owners.{EveryPageHasItsOwner};
ghost use Rattle.flat_laws.specs.Usable.{UsableNameTheirOwn, HostPagesAreUnnamed, OwnersAloneUse, PagesMoveUnnamed, GivenBackAreEmptied};
ghost use Rattle.flat_laws.specs.Accesses.{AccessesAreOwn, AccessesKeepOthers, OthersAreNotReached};
ghost use Rattle.flat_laws.specs.Unreached.{ClosedIsUnreached, ClosedIsUnchanged, UnreachedIsUnchanged, ClosedInGuarded, ClosedInRuns, ClosedIsNotAccessed};
ghost use Rattle.flat_laws.specs.Relocated.{RelocationsMovePages};
ghost use Rattle.flat_laws.specs.Worked.{RemovalExample};

/// In every state of every run, the map of a living TD names each of its secure EPT and private
/// pages; what its map names is such a page and is owned by it; and no page is named twice, by one
/// TD's map or by two, so no two TDs share a page.
pub fn ownership_law()
    ensures { EveryPageHasItsOwner }
{}

/// In every run each private access of a guest reaches a private page that its own TD owns, and that
/// the TD's map names at that GPA page; a load gives the word that the guest knows from events of
/// its TD, and changes no word of memory; a store puts the register's word into that page, and
/// changes no other word. So no private access reaches a page while another TD owns it, or the host has
/// it. (Shared accesses are to pages of the host's alone.)
pub fn access_law()
    ensures own { AccessesAreOwn }
    ensures alone { AccessesKeepOthers }
    ensures others { OthersAreNotReached }
{}

/// A page that moved to another owner isn't reached through an old translation. In every state of
/// every run a translation that may be used on a processor names a private page of its own TD, which
/// the TD's map names at that GPA page: so none names a page of the host's, and none a page of
/// another TD, however old it is, and however the page came there. And where an event moves a page,
/// it moves it between the host and a TD, and neither before it nor after it does any translation
/// that may be used name the page. Of any state, a page that an event gives back to the host is then
/// PT_NDA, with owner 0, BEPOCH 0 and 512 words that are 0.
pub fn move_law()
    ensures usable { UsableNameTheirOwn }
    ensures host { HostPagesAreUnnamed }
    ensures owners { OwnersAloneUse }
    ensures moves { PagesMoveUnnamed }
    ensures emptied { GivenBackAreEmptied }
{}

/// MEM.PAGE.RELOCATE moves a private page, in every run: guests know the same of their memory before
/// and after it, and find it; the entry names the other page, which has the words; and the old page
/// is the host's with zeros, named by no map of a living TD and by no translation that may be used.
pub fn relocation_law()
    ensures { RelocationsMovePages }
{}

/// No reach and no change, told from the world alone, of a TD that isn't in TD_TEARDOWN. Where the
/// entry of a GPA page is FREE or pending, or is blocked and its block is tracked, no translation that
/// may be used is of that GPA page, and none names the page of the entry; where it is blocked for
/// writing and that is tracked, and the page isn't one that an export may have taken without a block,
/// none that allows writing does. So it is of each processor of any lawful state in which no stale
/// translation is used, hence in every guarded state, and in every run. So in every run no access of
/// any guest reaches the page of such an entry that isn't FREE, or no store does.
pub fn reach_law()
    ensures unreached { ClosedIsUnreached }
    ensures unchanged { ClosedIsUnchanged }
    ensures both { UnreachedIsUnchanged }
    ensures guarded { ClosedInGuarded }
    ensures run { ClosedInRuns }
    ensures accesses { ClosedIsNotAccessed }
{}

/// A removal beside a guest, computed: the page is in reach until the guest that has cached a
/// translation of it is left, and that translation is still cached once the page is the host's.
pub fn worked_removal()
    ensures { RemovalExample }
{}
