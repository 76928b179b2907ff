//! TLB epochs in the words that leaves are told.

ghost use Rattle.map_laws.specs.Epochs.{CountsEpoch, DecidesTracked};

use tlb_epochs::{count_at, is_tracked};

/// Which of TDCS's two counts is of the virtual processors that enter at an epoch: VP.ENTER adds to it, an
/// exit takes off it, and MEM.TRACK and the calls that ask for a tracked block ask for it in the epoch
/// behind.
pub fn count_of(epoch: u32) -> u8
    ensures { CountsEpoch epoch result }
{
    count_at(epoch)
}

/// Whether a block is tracked by three words, the page's PAMT word, TD_EPOCH and the count of the epoch
/// before: so MEM.PAGE.REMOVE, MEM.SEPT.REMOVE and MEM.RANGE.UNBLOCK decide, and EXPORT.MEM while its TD runs.
pub fn tracked_by(pamt: u64, epoch: u32, previous: u64) -> bool
    ensures { DecidesTracked pamt epoch previous result }
{
    is_tracked((pamt >> 32) as u32, epoch, previous)
}
