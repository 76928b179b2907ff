//! The names of the profile. `as u8` gives a name's number: its place in its list, from 0.

/// What a page is used for, as its PAMT entry says (Base Architecture, "Physical Address
/// Metadata Table").
#[derive(Clone, Copy, PartialEq, Eq)]
pub enum PageKind {
    Nda,
    Reg,
    Tdr,
    Tdcx,
    Tdvpr,
    Ept,
    Migsc,
}

/// How far the life of a TD has come (Base Architecture, "TD Life Cycle State Machine").
#[derive(Clone, Copy, PartialEq, Eq)]
pub enum LifeState {
    HkidAssigned,
    KeysConfigured,
    Blocked,
    Teardown,
}

/// What a TD with its keys may be asked to do (Base Architecture, "TD Operation State Machine";
/// TD Migration Architecture, "TD Operation States").
#[derive(Clone, Copy, PartialEq, Eq)]
pub enum OpState {
    Uninitialized,
    Initialized,
    Runnable,
    LiveExport,
    PausedExport,
    PostExport,
    MemoryImport,
    StateImport,
    PostImport,
    LiveImport,
    FailedImport,
}

/// The state of a secure EPT entry (Base Architecture, "Secure EPT Entry State Diagram"; TD
/// Migration Architecture, "Private Memory Migration").
#[derive(Clone, Copy, PartialEq, Eq)]
pub enum EntryState {
    Free,
    Mapped,
    Blocked,
    Pending,
    PendingBlocked,
    NlMapped,
    NlBlocked,
    BlockedW,
    ExportedBlockedW,
    ExportedDirty,
    ExportedDirtyBlockedW,
}

/// Whether a virtual processor has its initial state (Base Architecture, "TD VCPU Life Cycle").
#[derive(Clone, Copy, PartialEq, Eq)]
pub enum VcpuState {
    Created,
    Ready,
}

/// What the key ownership table says of an HKID (Base Architecture, "Key Ownership Table").
#[derive(Clone, Copy, PartialEq, Eq)]
pub enum HkidState {
    Free,
    Assigned,
    Flushed,
}

/// A guest's access to a word of memory.
#[derive(Clone, Copy, PartialEq, Eq)]
pub enum Access {
    Read,
    Write,
}

/// A count that a call refuses to raise past its last value.
#[derive(Clone, Copy, PartialEq, Eq)]
pub enum Counter {
    TdEpoch,
    MigEpoch,
    Mb,
    Session,
}

/// What a TD has only so many of.
#[derive(Clone, Copy, PartialEq, Eq)]
pub enum LimitName {
    Vcpus,
    Streams,
}

/// What is wrong with a migration bundle, or with its header for the call at hand.
#[derive(Clone, Copy, PartialEq, Eq)]
pub enum HeaderField {
    Short,
    Size,
    Version,
    Kind,
    Reserved,
    Value,
    Length,
    Stream,
    Session,
    Epoch,
    Index,
    Count,
}

/// What MNG.RD can read of a TD.
#[derive(Clone, Copy, Debug, PartialEq, Eq)]
pub enum ReadField {
    Life,
    Op,
    Epoch,
    Mrtd,
}

/// The name of a lock. `Op`, `Tree`, `Epoch` and `Rtmr` are locks of one TD, `Page` is a page's,
/// and `Keys` the key table's.
#[derive(Clone, Copy, PartialEq, Eq)]
pub enum LockName {
    Page(u16),
    Op,
    Tree,
    Epoch,
    Rtmr,
    Keys,
}

/// Whether others may hold a lock too.
#[derive(Clone, Copy, Debug, PartialEq, Eq)]
pub enum Mode {
    Shared,
    Exclusive,
}
