//! Which accesses an entry allows, and when a block is tracked.

ghost use Rattle.std.specs.Prelude.{◌≡◌, nat_lt};
ghost use Rattle.std.specs.List.{list_all};
ghost use Rattle.flat_core.specs.Tree as tree;
ghost use Rattle.flat_core.specs.Tracking as tracking;

use td_words::{Access, EntryState};

/// Whether a secure EPT entry in this state allows a guest's access.
pub fn allows(state: EntryState, access: Access) -> bool
    ensures { result ≡ tree.allows state access }
{
    match access {
        Access::Read => matches!(
            state,
            EntryState::Mapped
                | EntryState::BlockedW
                | EntryState::ExportedBlockedW
                | EntryState::ExportedDirty
                | EntryState::ExportedDirtyBlockedW
        ),
        Access::Write => matches!(state, EntryState::Mapped | EntryState::ExportedDirty),
    }
}

fn are_above(entered: &[u32], blocked: u32) -> bool
    ensures { result ≡ list_all (λ entry. nat_lt blocked entry) entered.now }
{
    entered.iter().all(|entry| blocked < *entry)
}

/// Whether a block at the epoch `blocked` is tracked, where TD_EPOCH is `epoch` and the virtual
/// processors in guest entered at the epochs `entered`.
pub fn tracked(blocked: u32, epoch: u32, entered: &[u32]) -> bool
    ensures { result ≡ tracking.tracked blocked epoch entered.now }
{
    blocked < epoch && are_above(entered, blocked)
}
