//! Epochs (Base Architecture, "TLB Tracking Sequence").

ghost use Rattle.std.specs.Prelude.{◌≡◌, ℕ, ◌%◌, List};
ghost use Rattle.std.specs.List.{All};
ghost use Rattle.flat_core.specs.Tracking.{tracked};
ghost use Rattle.tlb_epochs.specs.Epochs.{IsNear, entered_before};

/// Whether a block at the epoch `blocked` is tracked, where TD_EPOCH is `epoch`, each virtual
/// processor in guest entered at that epoch or at the one before, and `previous_count` of them at the
/// one before.
pub fn is_tracked(blocked: u32, epoch: u32, previous_count: u64) -> bool
    ensures { (entered : List ℕ) → All (IsNear epoch) entered → entered_before epoch entered ≡ previous_count
        → result ≡ tracked blocked epoch entered }
{
    blocked < epoch && (epoch - blocked > 1 || previous_count == 0)
}

/// Which of a TD's two counts is of the virtual processors that entered at an epoch.
pub fn count_at(epoch: u32) -> u8
    ensures { result ≡ epoch % 2 }
{
    (epoch % 2) as u8
}
