//! The mnemonics of calls.

ghost use Rattle.std.specs.Prelude.{ℕ, List, ◌≡◌, ◌≢◌, ◌≤◌, ◌∷◌, ◌++◌, eqb, None, length, map, MatchOption};
ghost use Rattle.std.specs.List.{starts_with};
ghost use Rattle.std.specs.Str.{bytes_eq};
ghost use Rattle.line_words.specs.Mnemonics.{mnemonic_in, mnemonics};

/// A call's mnemonic, whether or not the call is built.
#[derive(Clone, Copy, Debug, PartialEq, Eq)]
pub enum CallName {
    HostRead,
    HostWrite,
    PhymemPageRdmd,
    PhymemCacheWb,
    PhymemPageReclaim,
    MngCreate,
    MngKeyConfig,
    MngAddcx,
    MngInit,
    MngRd,
    MngVpflushdone,
    MngKeyFreeid,
    MrExtend,
    MrFinalize,
    VpCreate,
    VpInit,
    VpEnter,
    VpFlush,
    MemSeptAdd,
    MemSeptRd,
    MemSeptRemove,
    MemPageAdd,
    MemPageAug,
    MemPageRemove,
    MemPageRelocate,
    MemRangeBlock,
    MemRangeUnblock,
    MemTrack,
    MigStreamCreate,
    ExportStateImmutable,
    ExportBlockw,
    ExportUnblockw,
    ExportMem,
    ExportTrack,
    ExportPause,
    ExportStateTd,
    ExportStateVp,
    ExportAbort,
    ExportRestore,
    ImportStateImmutable,
    ImportMem,
    ImportTrack,
    ImportStateTd,
    ImportStateVp,
    ImportCommit,
    ImportEnd,
    ImportAbort,
}

/// A mnemonic, and how many arguments it has at least and at most.
#[derive(Clone, Copy, Debug, PartialEq, Eq)]
pub struct Mnemonic {
    pub call: CallName,
    pub least: usize,
    pub most: usize,
}

/// EXPORT.ABORT has a form with a slot and one without; every other call has one form.
const MNEMONICS: [(&str, CallName, usize, usize); 47] = [
    ("HOST.READ", CallName::HostRead, 2, 2),
    ("HOST.WRITE", CallName::HostWrite, 3, 3),
    ("PHYMEM.PAGE.RDMD", CallName::PhymemPageRdmd, 1, 1),
    ("PHYMEM.CACHE.WB", CallName::PhymemCacheWb, 0, 0),
    ("PHYMEM.PAGE.RECLAIM", CallName::PhymemPageReclaim, 2, 2),
    ("MNG.CREATE", CallName::MngCreate, 2, 2),
    ("MNG.KEY.CONFIG", CallName::MngKeyConfig, 1, 1),
    ("MNG.ADDCX", CallName::MngAddcx, 2, 2),
    ("MNG.INIT", CallName::MngInit, 1, 1),
    ("MNG.RD", CallName::MngRd, 2, 2),
    ("MNG.VPFLUSHDONE", CallName::MngVpflushdone, 1, 1),
    ("MNG.KEY.FREEID", CallName::MngKeyFreeid, 1, 1),
    ("MR.EXTEND", CallName::MrExtend, 2, 2),
    ("MR.FINALIZE", CallName::MrFinalize, 1, 1),
    ("VP.CREATE", CallName::VpCreate, 2, 2),
    ("VP.INIT", CallName::VpInit, 3, 3),
    ("VP.ENTER", CallName::VpEnter, 3, 3),
    ("VP.FLUSH", CallName::VpFlush, 2, 2),
    ("MEM.SEPT.ADD", CallName::MemSeptAdd, 4, 4),
    ("MEM.SEPT.RD", CallName::MemSeptRd, 3, 3),
    ("MEM.SEPT.REMOVE", CallName::MemSeptRemove, 3, 3),
    ("MEM.PAGE.ADD", CallName::MemPageAdd, 4, 4),
    ("MEM.PAGE.AUG", CallName::MemPageAug, 3, 3),
    ("MEM.PAGE.REMOVE", CallName::MemPageRemove, 2, 2),
    ("MEM.PAGE.RELOCATE", CallName::MemPageRelocate, 3, 3),
    ("MEM.RANGE.BLOCK", CallName::MemRangeBlock, 3, 3),
    ("MEM.RANGE.UNBLOCK", CallName::MemRangeUnblock, 3, 3),
    ("MEM.TRACK", CallName::MemTrack, 1, 1),
    ("MIG.STREAM.CREATE", CallName::MigStreamCreate, 2, 2),
    (
        "EXPORT.STATE.IMMUTABLE",
        CallName::ExportStateImmutable,
        2,
        2,
    ),
    ("EXPORT.BLOCKW", CallName::ExportBlockw, 2, 2),
    ("EXPORT.UNBLOCKW", CallName::ExportUnblockw, 2, 2),
    ("EXPORT.MEM", CallName::ExportMem, 4, 4),
    ("EXPORT.TRACK", CallName::ExportTrack, 3, 3),
    ("EXPORT.PAUSE", CallName::ExportPause, 1, 1),
    ("EXPORT.STATE.TD", CallName::ExportStateTd, 2, 2),
    ("EXPORT.STATE.VP", CallName::ExportStateVp, 3, 3),
    ("EXPORT.ABORT", CallName::ExportAbort, 1, 2),
    ("EXPORT.RESTORE", CallName::ExportRestore, 2, 2),
    (
        "IMPORT.STATE.IMMUTABLE",
        CallName::ImportStateImmutable,
        2,
        2,
    ),
    ("IMPORT.MEM", CallName::ImportMem, 3, 3),
    ("IMPORT.TRACK", CallName::ImportTrack, 2, 2),
    ("IMPORT.STATE.TD", CallName::ImportStateTd, 2, 2),
    ("IMPORT.STATE.VP", CallName::ImportStateVp, 3, 3),
    ("IMPORT.COMMIT", CallName::ImportCommit, 1, 1),
    ("IMPORT.END", CallName::ImportEnd, 1, 1),
    ("IMPORT.ABORT", CallName::ImportAbort, 2, 2),
];

/// Whether a word is that name.
#[inline(always)]
#[tactic(auto, using(crate::proofs::Names::same_length, crate::proofs::Names::other_length))]
pub fn is(word: &[u8], name: &str) -> bool
    ensures { result ≡ bytes_eq word.now name.now }
{
    // Where a name is a constant its length makes the test of a front a few comparisons.
    word.len() == name.len() && word.starts_with(name.as_bytes())
}

// Whether a text begins with a name. Where the name is a constant it takes fewer steps than the search
// of a slice's front, which goes by groups.
#[inline(always)]
#[tactic(auto, using(crate::proofs::Names::same_front, crate::proofs::Names::other_front))]
fn begins_with(text: &[u8], name: &[u8]) -> bool
    requires { length name.now ≤ length text.now }
    ensures { result ≡ starts_with eqb text.now name.now }
{
    for at in 0..name.len() {
        if text[at] != name[at] {
            return false;
        }
    }
    true
}

/// What stands behind a name and the space after it. None exactly where a text doesn't begin with these.
#[tactic(auto, using(crate::proofs::Names::name_before))]
pub fn behind_name<'a>(name: &str, text: &'a [u8]) -> Option<&'a [u8]>
    ensures cut { MatchOption result Unit (λ rest. text.now ≡ name.now ++ 32 ∷ rest.now) }
    ensures none { result ≡ None → (rest : List ℕ) → text.now ≢ name.now ++ 32 ∷ rest }
{
    let end = name.len();
    if end < text.len() && begins_with(text, name.as_bytes()) && text[end] == b' ' {
        Some(&text[end + 1..])
    } else {
        None
    }
}

fn find(table: &[(&str, CallName, usize, usize)], word: &[u8]) -> Option<Mnemonic>
    ensures { result ≡ mnemonic_in (map (λ e. (e.0.now, e.1, e.2, e.3)) table.now) word.now }
{
    for row in table {
        if is(word, row.0) {
            let (call, least, most) = (row.1, row.2, row.3);
            return Some(Mnemonic { call, least, most });
        }
    }
    None
}

/// The mnemonic that a word is.
pub fn mnemonic_at(word: &[u8]) -> Option<Mnemonic>
    ensures { result ≡ mnemonic_in mnemonics word.now }
{
    find(&MNEMONICS, word)
}
