//! Why a call is refused.

ghost use Rattle.std.specs.Prelude.{◌≡◌};
ghost use Rattle.td_words.specs.StatusNumber.{status_number};

use crate::names::{
    Counter, EntryState, HeaderField, LifeState, LimitName, LockName, OpState, VcpuState,
};

/// Why a call was refused, with the values that are shown. Success is no status of this type.
#[derive(Clone, Copy, PartialEq, Eq)]
pub enum Status {
    /// The argument of that place, from 1, breaks an argument rule.
    OperandInvalid(u8),
    /// At the call's own try of that lock its word showed another holder, or for an exclusive try
    /// a processor that was being refused.
    OperandBusy(LockName),
    /// The PAMT kind or owner of that page isn't the needed one.
    PageMetadataIncorrect(u16),
    /// The life state is the one shown.
    LifecycleStateIncorrect(LifeState),
    /// The operation state is the one shown.
    OpStateIncorrect(OpState),
    HkidNotFree,
    /// The secure EPT entry at that level isn't NL_MAPPED.
    EptWalkFailed(u8),
    /// The secure EPT entry's state is the one shown.
    EptEntryStateIncorrect(EntryState),
    TlbTrackingNotDone,
    /// That many virtual processors in guest entered in the previous epoch.
    PreviousTlbEpochBusy(u64),
    /// That counter is at its last value.
    CounterLimit(Counter),
    /// The virtual processor is associated with that other logical processor.
    VcpuAssociated(u64),
    VcpuNotAssociated,
    /// The virtual processor is in the state shown.
    VcpuStateIncorrect(VcpuState),
    /// The TDR has that many child pages.
    PagesExist(u64),
    /// That many virtual processors are associated with logical processors.
    FlushvpNotDone(u64),
    /// The entry of that index is the page's first one that isn't FREE.
    SeptNotEmpty(u16),
    Limit(LimitName),
    /// No bundle came in at that slot.
    NoBundle(u64),
    /// That field of a bundle's header is wrong.
    BundleHeader(HeaderField),
    /// The bundle's counter isn't the one that is due on its stream.
    BundleCounter { expected: u64, got: u64 },
    BundleTag,
    /// So many entries are dirty at a start token.
    DirtyPages(u64),
    /// The token's number of bundles isn't the destination's own.
    TokenTotal { own: u64, got: u64 },
    ExportedThisEpoch,
    /// The page isn't the host's.
    NotHost,
    /// The TD has that many TDCX pages.
    TdcxNumIncorrect(u64),
    CacheWbNotDone,
    /// Of the TD state and the VCPU states so many weren't exported.
    StateMissing(u64),
    /// That stream wasn't created.
    NoStream(u8),
    /// So many entries are in an exported state when a session is to begin.
    UnrestoredPages(u64),
    AlreadyExported,
}

/// A status's number, from 1. Number 0 is success.
pub fn number(status: &Status) -> u8
    ensures { result ≡ status_number status.now }
{
    match status {
        Status::OperandInvalid(_) => 1,
        Status::OperandBusy(_) => 2,
        Status::PageMetadataIncorrect(_) => 3,
        Status::LifecycleStateIncorrect(_) => 4,
        Status::OpStateIncorrect(_) => 5,
        Status::HkidNotFree => 6,
        Status::EptWalkFailed(_) => 7,
        Status::EptEntryStateIncorrect(_) => 8,
        Status::TlbTrackingNotDone => 9,
        Status::PreviousTlbEpochBusy(_) => 10,
        Status::CounterLimit(_) => 11,
        Status::VcpuAssociated(_) => 12,
        Status::VcpuNotAssociated => 13,
        Status::VcpuStateIncorrect(_) => 14,
        Status::PagesExist(_) => 15,
        Status::FlushvpNotDone(_) => 16,
        Status::SeptNotEmpty(_) => 17,
        Status::Limit(_) => 18,
        Status::NoBundle(_) => 19,
        Status::BundleHeader(_) => 20,
        Status::BundleCounter { .. } => 21,
        Status::BundleTag => 22,
        Status::DirtyPages(_) => 23,
        Status::TokenTotal { .. } => 24,
        Status::ExportedThisEpoch => 25,
        Status::NotHost => 26,
        Status::TdcxNumIncorrect(_) => 27,
        Status::CacheWbNotDone => 28,
        Status::StateMissing(_) => 29,
        Status::NoStream(_) => 30,
        Status::UnrestoredPages(_) => 31,
        Status::AlreadyExported => 32,
    }
}
