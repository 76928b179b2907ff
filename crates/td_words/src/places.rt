//! Where each word of a control page stands in its page, by its index from 0 to 511.
//!
//! The words that the architecture keeps in TDR, TDCS and TDVPR are named; their places are this
//! model's choice. Words of a control page that aren't named here aren't used.

/// TDR page: the life state.
pub const TDR_LIFE: u16 = 0;
/// TDR page: the HKID.
pub const TDR_HKID: u16 = 1;
/// TDR page: the number of child pages.
pub const TDR_CHILDREN: u16 = 2;
/// TDR page: the number of TDCX pages.
pub const TDR_TDCX_COUNT: u16 = 3;
/// TDR page: the first TDCX page, which holds TDCS.
pub const TDR_TDCS: u16 = 4;
/// TDR page: the second TDCX page, which is the root of the secure EPT.
pub const TDR_ROOT: u16 = 5;

/// TDCS: the lock word of the operation state, O.
pub const TDCS_OP_LOCK: u16 = 0;
/// TDCS: the lock word of the secure EPT tree, T.
pub const TDCS_TREE_LOCK: u16 = 1;
/// TDCS: the lock word of the TLB epoch, E.
pub const TDCS_EPOCH_LOCK: u16 = 2;
/// TDCS: the lock word of the RTMRs, R.
pub const TDCS_RTMR_LOCK: u16 = 3;
/// TDCS: the operation state.
pub const TDCS_OP: u16 = 4;
/// TDCS: TD_EPOCH.
pub const TDCS_EPOCH: u16 = 5;
/// TDCS: the virtual processors in guest that entered in an even epoch. Those of odd epochs stand
/// behind it.
pub const TDCS_ENTERED: u16 = 6;
/// TDCS: entries that became dirty.
pub const TDCS_DIRTIED: u16 = 8;
/// TDCS: with all first exports of its streams, modulo 2^64, the entries in an exported state.
pub const TDCS_UNRESTORED: u16 = 9;
/// TDCS: the migration epoch.
pub const TDCS_MIG_EPOCH: u16 = 10;
/// TDCS: the session number.
pub const TDCS_SESSION: u16 = 11;
/// TDCS: 1 where the TD state was exported in the session.
pub const TDCS_TD_EXPORTED: u16 = 12;
/// TDCS: how many VCPU states were exported in the session.
pub const TDCS_VPS_EXPORTED: u16 = 13;
/// TDCS: the number of virtual processors that an import expects.
pub const TDCS_VPS_EXPECTED: u16 = 14;
/// TDCS: the number of virtual processors.
pub const TDCS_VP_COUNT: u16 = 15;
/// TDCS: four RTMRs of six words each.
pub const TDCS_RTMRS: u16 = 16;
/// TDCS: up to eight TDVPR pages.
pub const TDCS_VPS: u16 = 40;
/// TDCS: the number of streams.
pub const TDCS_STREAM_COUNT: u16 = 48;
/// TDCS: up to four stream pages.
pub const TDCS_STREAMS: u16 = 49;
/// TDCS: MRTD, six words.
pub const TDCS_MRTD: u16 = 64;

/// TDVPR page: the index in its TD.
pub const VP_INDEX: u16 = 0;
/// TDVPR page: the state.
pub const VP_STATE: u16 = 1;
/// TDVPR page: the associated logical processor plus 1, or 0.
pub const VP_ASSOCIATED: u16 = 2;
/// TDVPR page: TD_EPOCH at the last entry.
pub const VP_LAST_EPOCH: u16 = 3;
/// TDVPR page: the position in its list of operations.
pub const VP_POSITION: u16 = 4;
/// TDVPR page: the session of the last export.
pub const VP_EXPORTED: u16 = 5;
/// TDVPR page: eight registers.
pub const VP_REGISTERS: u16 = 8;

/// Stream page: the bundle counter.
pub const STREAM_COUNTER: u16 = 0;
/// Stream page: dirty entries that an export on this stream made clean.
pub const STREAM_CLEANED: u16 = 1;
/// Stream page: first exports of the session on this stream.
pub const STREAM_FIRST_EXPORTS: u16 = 2;

/// Key table: the lock word K.
pub const KEY_LOCK: u16 = 0;
/// Key table: the last exported session.
pub const KEY_LAST_EXPORTED: u16 = 1;
/// Key table: the last imported session.
pub const KEY_LAST_IMPORTED: u16 = 2;
/// Key table: the word of HKID 1. Those of the others follow.
pub const KEY_FIRST: u16 = 3;
