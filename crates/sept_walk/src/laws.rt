//! What the layers above may rest on, as contracts of functions that do nothing.

ghost use Rattle.sept_walk.specs.Laws.{WalksFind, NumbersSplit, WalksMeetMaps};

/// A walk that is told what memory has ends after one entry of each level at most, with the entry
/// that the secure EPT in memory has for its GPA and level, or the first level whose entry isn't
/// NL_MAPPED.
pub fn walks_find()
    ensures { WalksFind }
{}

/// The number of an entry in a TD's map is that of the entry above times 512, and its index in its
/// page.
pub fn numbers_split()
    ensures { NumbersSplit }
{}

/// Where memory holds a TD's map, a walk ends as the map says, and the row of a call that walks is
/// refused with the level at which the walk failed.
pub fn walks_meet_maps()
    ensures { WalksMeetMaps }
{}
