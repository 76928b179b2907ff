//! What the layers above may rest on, as contracts of functions that do nothing.

ghost use Rattle.closed_pages.specs.Clear.{SoundIsClear, ClosedIsClear};

/// Of a TD that isn't in TD_TEARDOWN, the page of an entry that is pending, or is blocked and its block
/// is tracked, is clear of reach for every processor: no other one's guest reaches it through what is
/// cached there. Where the entry is blocked for writing and that is tracked, and the page isn't one that
/// an export may have taken without a block, it is clear of writes. So it is at any instant of a lawful
/// state in which no stale translation is used, and of which each processor's guest is counted; hence
/// in every state of every run.
pub fn clear_law()
    ensures at_once { SoundIsClear }
    ensures run { ClosedIsClear }
{
    flat_laws::reach_law();
}
