//! The laws of migrations for lists of pages, as the contract of a function that does nothing.

ghost use Rattle.mig_laws.specs.Lists.{ListsAreSent, ListsAreTaken};

/// What the other laws say of single pages holds of lists. The act of EXPORT.MEM keeps all that is said of a
/// source, for any COUNT: its one bundle counts once at its stream and in later totals, under an IV of its
/// own; each page of the run has in it the 512 words that the page holds, and its entry is exported and
/// marked; in LIVE_EXPORT each is tracked. The act of IMPORT.MEM keeps all that is said of a destination, of
/// any source whose bundles are well made, lists among them: each page of the run has from then on its words
/// in the list, which is the last imported bundle that carried it, and the list isn't taken twice. Until
/// calls say COUNT, no bundle of a run is a list.
pub fn lists_law()
    ensures sent { ListsAreSent }
    ensures taken { ListsAreTaken }
{}
