//! What many rows begin with.

/// A TD with TDR 1 that may have pages.
pub const KEYS: &str = "SUCCESS | MNG.CREATE 1 1 | MNG.KEY.CONFIG 1";

/// The same with its TDCX pages, and initialized.
pub const BUILT: &str =
    "SUCCESS | MNG.CREATE 1 1 | MNG.KEY.CONFIG 1 | MNG.ADDCX 1 2 | MNG.ADDCX 1 3 | MNG.INIT 1";

/// The same with VCPU 0 and with the secure EPT of its first 2 MB, in 64 events.
pub const TREE: &str =
    "SUCCESS | MNG.CREATE 1 1 | MNG.KEY.CONFIG 1 | MNG.ADDCX 1 2 | MNG.ADDCX 1 3 | MNG.INIT 1 \
    | VP.CREATE 1 4 | VP.INIT 1 4 0 | MEM.SEPT.ADD 1 0 3 5 | MEM.SEPT.ADD 1 0 2 6 \
    | MEM.SEPT.ADD 1 0 1 7";

/// VCPU 1, in 14 events.
pub const SECOND: &str = "SUCCESS | VP.CREATE 1 9 | VP.INIT 1 9 0";

/// A private page, in 11 events.
pub const PAGE: &str = "SUCCESS | MEM.PAGE.ADD 1 0 8 0";

/// The TD may run, after 5 events.
pub const RUNS: &str = "SUCCESS | MR.FINALIZE 1";

/// A migration stream, in 7 events.
pub const STREAM: &str = "SUCCESS | MIG.STREAM.CREATE 1 10";

/// An export begins, in 7 events.
pub const BEGUN: &str = "SUCCESS | EXPORT.STATE.IMMUTABLE 1 0";

/// Three private pages with a word each, of a TD that runs then, and two streams, in 61 events.
pub const PAGES: &str = "SUCCESS | HOST.WRITE 0 0 11 | MEM.PAGE.ADD 1 0 8 0 | HOST.WRITE 0 0 22 \
    | MEM.PAGE.ADD 1 4096 9 0 | HOST.WRITE 0 0 33 | MEM.PAGE.ADD 1 8192 10 0 | MR.FINALIZE 1 \
    | MIG.STREAM.CREATE 1 11 | MIG.STREAM.CREATE 1 12";

/// Behind PAGES: an export begins, and the first page is exported live on stream 1, in 38 events.
pub const SENT: &str = "SUCCESS | EXPORT.STATE.IMMUTABLE 1 0 | EXPORT.BLOCKW 1 0 | MEM.TRACK 1 \
    | EXPORT.MEM 1 0 1 1";

/// Its guest, of which the second operation stores there, is stopped once, and makes it dirty; then the
/// TD is paused.
pub const DIRTIED: &str = "EXIT EPT_VIOLATION 0x0 WRITE | VP.ENTER 1 4 10 \
    ; SUCCESS | EXPORT.UNBLOCKW 1 0 ; EXIT MAX | VP.ENTER 1 4 1 ; SUCCESS | EXPORT.PAUSE 1";

/// Behind DIRTIED: the source of a migration is done, with nine bundles in slots 0 to 8.
pub const HANDED: &str =
    "SUCCESS | EXPORT.TRACK 1 2 0 | EXPORT.MEM 1 0 0 3 | EXPORT.MEM 1 4096 1 4 \
    | EXPORT.MEM 1 8192 1 5 | EXPORT.STATE.TD 1 6 | EXPORT.STATE.VP 1 4 7 | EXPORT.TRACK 1 8 1";

/// The list of its guest, of which source and destination each run a part.
pub const GUEST: &str =
    "1 0 | set 1 44 | store 1 0 | load 2 0 | load 2 4096 | load 2 8192 | vmcall 2";

/// A TD with two streams that waits for a session, in 32 events.
pub const WAITS: &str = "SUCCESS | MNG.CREATE 1 1 | MNG.KEY.CONFIG 1 | MNG.ADDCX 1 2 \
    | MNG.ADDCX 1 3 | MIG.STREAM.CREATE 1 11 | MIG.STREAM.CREATE 1 12";

/// Behind WAITS: a session begins, and the TD has VCPU 0 and the secure EPT of its first 2 MB, in 41
/// events.
pub const OPENED: &str =
    "SUCCESS | IMPORT.STATE.IMMUTABLE 1 0 | VP.CREATE 1 4 | MEM.SEPT.ADD 1 0 3 5 \
    | MEM.SEPT.ADD 1 0 2 6 | MEM.SEPT.ADD 1 0 1 7";

/// Behind OPENED: its three pages come in, the first of them twice, with the epoch token between, in 43
/// events.
pub const FILLED: &str = "SUCCESS | IMPORT.MEM 1 1 8 | IMPORT.TRACK 1 2 | IMPORT.MEM 1 3 13 \
    | IMPORT.MEM 1 4 9 | IMPORT.MEM 1 5 10";

/// Behind FILLED: its states come in, and the start token, in 19 events.
pub const STARTED: &str =
    "SUCCESS | IMPORT.STATE.TD 1 6 | IMPORT.STATE.VP 1 4 7 | IMPORT.TRACK 1 8";

/// A second TD with TDR 20, as far as TREE, in 64 events.
pub const OTHER: &str =
    "SUCCESS | MNG.CREATE 20 2 | MNG.KEY.CONFIG 20 | MNG.ADDCX 20 21 | MNG.ADDCX 20 22 \
    | MNG.INIT 20 | VP.CREATE 20 23 | VP.INIT 20 23 0 | MEM.SEPT.ADD 20 0 3 24 \
    | MEM.SEPT.ADD 20 0 2 25 | MEM.SEPT.ADD 20 0 1 26";

/// That TD before it has a VCPU.
pub const INITIALIZED: &str =
    "SUCCESS | MNG.CREATE 20 2 | MNG.KEY.CONFIG 20 | MNG.ADDCX 20 21 | MNG.ADDCX 20 22 \
    | MNG.INIT 20";

/// From BUILT or TREE to the first page that may be reclaimed.
pub const ENDED: &str = "SUCCESS | MNG.VPFLUSHDONE 1 | PHYMEM.CACHE.WB | MNG.KEY.FREEID 1";

/// The measurement of a TD without private pages is SHA-384 of no bytes.
pub const EMPTY: &str = "SUCCESS 38b060a751ac96384cd9327eb1b1e36a21fdb71114be07434c0cc7bf63f6e1da\
    274edebfe76f65fbd51ad2f14898b95b | MNG.RD 1 MRTD";
