//! What words say that leaves load.

ghost use Rattle.std.specs.Prelude.{◌≡◌, ◌-◌, ◌<◌, ◌≤◌, ◌==◌, true, false, MatchOption};
ghost use Rattle.std.specs.List.{list_any};
ghost use Rattle.td_words.specs.NameNumber.{op_number, life_number};
ghost use Rattle.td_words.specs.Packing.{pamt_word};
ghost use Rattle.leaf_parts.specs.Words.{says_kind, says_host, says_owner, says_free, is_hkid, life_told, op_told, page_told, vps_told, raised, lowered};

use pamt_core::PamtWord;
use td_words::{LifeState, Machine, OpState, PageKind};

/// Whether a PAMT word says that its page is of that kind.
pub fn says_kind(kind: PageKind, pamt: u64) -> bool
    ensures { result ≡ says_kind kind pamt }
{
    pamt % 16 == kind as u64
}

/// Whether a PAMT word says that its page is the host's.
pub fn says_host(pamt: u64) -> bool
    ensures { result ≡ says_host pamt }
{
    says_kind(PageKind::Nda, pamt)
}

/// Whether a PAMT word says that its page's owner is that TDR page.
pub fn says_owner(tdr: u16, pamt: u64) -> bool
    ensures { result ≡ says_owner tdr pamt }
{
    pamt / 16 % 65536 == u64::from(tdr)
}

/// The PAMT word of a page that is taken for a TD.
pub fn owner_word(kind: PageKind, tdr: u16) -> u64
    ensures { result ≡ pamt_word (record { kind = kind; owner = tdr; epoch = 0 }) }
{
    let word = PamtWord {
        kind,
        owner: tdr,
        epoch: 0,
    };
    word.pack()
}

/// Whether a key table word says that its HKID is free.
pub fn says_free(key: u64) -> bool
    ensures { result ≡ says_free key }
{
    key == 0
}

/// Whether a number is an HKID of the machine. No other number stands in a TDR page.
pub fn is_hkid(machine: Machine, hkid: u64) -> bool
    ensures { result ≡ is_hkid machine hkid }
{
    1 <= hkid && hkid <= u64::from(machine.hkids)
}

/// The slot of the hasher of an HKID, if it is one of the machine's.
pub fn hkid_slot(machine: Machine, hkid: u64) -> Option<u8>
    ensures { MatchOption result (is_hkid machine hkid ≡ false) (λ slot. (is_hkid machine hkid ≡ true) × (slot ≡ hkid - 1) × (slot < machine.hkids)) }
{
    if is_hkid(machine, hkid) {
        Some(hkid as u8 - 1)
    } else {
        None
    }
}

/// The life state of that number. Any other number never stands where it is told.
pub fn life_told(word: u64) -> LifeState
    ensures { result ≡ life_told word }
{
    match word {
        0 => LifeState::HkidAssigned,
        1 => LifeState::KeysConfigured,
        2 => LifeState::Blocked,
        _ => LifeState::Teardown,
    }
}

/// The operation state of that number. Any other number never stands where it is told.
pub fn op_told(word: u64) -> OpState
    ensures { result ≡ op_told word }
{
    match word {
        0 => OpState::Uninitialized,
        1 => OpState::Initialized,
        2 => OpState::Runnable,
        3 => OpState::LiveExport,
        4 => OpState::PausedExport,
        5 => OpState::PostExport,
        6 => OpState::MemoryImport,
        7 => OpState::StateImport,
        8 => OpState::PostImport,
        9 => OpState::LiveImport,
        _ => OpState::FailedImport,
    }
}

/// The page of that number, of a machine of so many. Any other number never stands where it is
/// told.
pub fn page_told(pages: u16, word: u64) -> u16
    ensures { result ≡ page_told pages word }
{
    if word < pages as u64 { word as u16 } else { 0 }
}

/// The number of a TD's virtual processors that is told, and 8 where it is more, which never stands
/// where it is told.
pub fn vps_told(count: u64) -> u16
    ensures { (result ≡ vps_told count) × (result ≤ 8) }
{
    if count < 8 { count as u16 } else { 8 }
}

/// A child count after a page was taken, in a machine of so many pages. From that many on, where no
/// page is left to take, it answers 0.
pub fn raised(pages: u16, count: u64) -> u64
    ensures { result ≡ raised pages count }
{
    if count < pages as u64 { count + 1 } else { 0 }
}

/// A child count after a page was given back.
pub fn lowered(count: u64) -> u64
    ensures { result ≡ lowered count }
{
    count.saturating_sub(1)
}

/// Whether an operation state is one of these.
pub fn is_among(op: OpState, allowed: &[OpState]) -> bool
    ensures { result ≡ list_any (λ s. op_number s == op_number op) allowed.now }
{
    allowed.iter().any(|s| *s as u8 == op as u8)
}

/// Whether a life state is one of these.
pub fn is_life_among(life: LifeState, allowed: &[LifeState]) -> bool
    ensures { result ≡ list_any (λ s. life_number s == life_number life) allowed.now }
{
    allowed.iter().any(|s| *s as u8 == life as u8)
}
