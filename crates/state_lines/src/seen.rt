//! What is told of a page's content, and of who holds a lock.

use td_words::{LifeState, OpState, VcpuState};

/// What a TD's TDCS says, and the page where it stands: the op state, TD_EPOCH, the virtual processors in
/// guest that entered in this epoch and in the one before, the numbers of virtual processors and streams,
/// and the session with its migration epoch.
#[derive(Clone, Copy)]
pub struct TdcsSeen {
    pub page: u64,
    pub op: OpState,
    pub epoch: u64,
    pub entered: u64,
    pub entered_before: u64,
    pub vcpus: u64,
    pub streams: u64,
    pub session: u64,
    pub mig_epoch: u64,
}

/// What a TD's TDR page says: its life state, its HKID, how many other pages it has, and its TDCS.
#[derive(Clone, Copy)]
pub struct TdSeen {
    pub life: LifeState,
    pub hkid: u64,
    pub children: u64,
    pub tdcs: Option<TdcsSeen>,
}

/// A virtual processor: its index, its state, its position in its list of operations, the logical
/// processor that it is associated with, and TD_EPOCH at its last entry.
#[derive(Clone, Copy)]
pub struct VcpuSeen {
    pub index: u64,
    pub state: VcpuState,
    pub position: u64,
    pub associated: Option<u64>,
    pub last_epoch: u64,
}

/// A migration stream: the bundles that were made or imported on it.
#[derive(Clone, Copy)]
pub struct StreamSeen {
    pub counter: u64,
}

/// What is told of a page besides its PAMT entry.
#[derive(Clone, Copy)]
pub enum Content {
    Nothing,
    Td(TdSeen),
    Vcpu(VcpuSeen),
    Stream(StreamSeen),
}

/// Whether a logical processor's call holds a lock, or what its guest does.
#[derive(Clone, Copy)]
pub enum Holder {
    Call,
    Guest,
}
