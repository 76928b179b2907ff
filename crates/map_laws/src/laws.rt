//! The laws of maps and of walks, as contracts of functions that do nothing.

ghost use Rattle.map_laws.specs.Laws.{RootsAreNamed, MapsAreHeld, WalksFollow, WalksFollowMerges};
ghost use Rattle.map_laws.specs.Leaves.{LeavesWalk};

use merge_laws::merge_law;
use sept_walk::{walks_find, walks_meet_maps};

/// Over words that show a lawful state, the TDR page of a TD that is alive and has its two TDCX
/// pages names the root of its secure EPT, and memory holds its map from there: each entry stands
/// where a walk looks for it. So over a table with such words a whole walk ends with the entry that
/// the flat machine has of the TD, or with the first level whose entry isn't NL_MAPPED, and the
/// row of a call that walks goes on or is refused just as that walk says. The table that a merge
/// of processors' word steps leads to, turn by turn, is one with such words.
pub fn maps_are_held()
    ensures root { RootsAreNamed }
    ensures hold { MapsAreHeld }
    ensures walk { WalksFollow }
    ensures merge { WalksFollowMerges }
{
    flat_core::lawful_law();
    merge_law();
    walks_find();
    walks_meet_maps();
}

/// The calls that look for an entry walk as a `Walk` does: whatever words there are, they go on with the page
/// where it stands once it has found its entry, or are refused with the level at which it fails.
pub fn leaves_walk()
    ensures { LeavesWalk }
{}
