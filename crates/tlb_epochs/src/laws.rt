//! What the layers above may rest on, as contracts of functions that do nothing.

ghost use Rattle.tlb_epochs.specs.Laws.{CountsTell};

/// Where each virtual processor of a TD that is in guest entered at TD_EPOCH or at the epoch before,
/// so do those in the flat machine's list of entry epochs, and as many of that list entered at the
/// epoch before as the flat machine's count of the previous epoch says: `is_tracked` of that count is
/// the flat machine's `is_tracked`.
pub fn counts_tell()
    ensures { CountsTell }
{}
