//! What these merges show, as a contract of a function that does nothing.

ghost use Rattle.worked_merges.specs.Worked.{Examples};

use leaf_table::calls_have_leaves;
use merge_laws::merge_law;

/// Two processors share a page, and word steps of one stand inside a turn of the other's: the items
/// that are written out are a merge of their own lists, and so a run of the flat machine under the
/// order of their events, which has just these replies. A load behind the other's store answers what
/// was stored, and one before it 0.
pub fn worked_merges()
    ensures { Examples }
{
    merge_law();
    calls_have_leaves();
}
