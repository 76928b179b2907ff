//! What the words of the key table say, and whose a page is.

ghost use Rattle.std.specs.Prelude.{◌≡◌, ◌+◌, ◌<◌};
ghost use Rattle.key_table.specs.Words.{key_number, is_marked, is_owned, marked};

use leaf_parts::{is_hkid, says_host, says_owner};
use td_words::places::{KEY_FIRST, KEY_LOCK};
use td_words::{HkidState, Machine};

/// The bit of a key table word that says that its HKID was written back.
const MARK: u64 = 4;

/// Which word of the key table is that of an HKID. A word that is none of the machine's HKIDs never
/// stands in a TDR page.
pub fn key_number(machine: Machine, hkid: u64) -> u16
    ensures number { result ≡ key_number machine hkid }
    ensures inside { result < 3 + machine.hkids }
{
    if is_hkid(machine, hkid) {
        KEY_FIRST + (hkid as u16 - 1)
    } else {
        KEY_LOCK
    }
}

/// Whether a key table word is that of a flushed HKID that PHYMEM.CACHE.WB came for.
pub fn is_marked(key: u64) -> bool
    ensures { result ≡ is_marked key }
{
    key % 16 == HkidState::Flushed as u64 + MARK
}

/// A key table word after PHYMEM.CACHE.WB: a flushed HKID is marked as written back.
pub fn marked(key: u64) -> u64
    ensures { result ≡ marked key }
{
    if key % 16 == HkidState::Flushed as u64 {
        key + MARK
    } else {
        key
    }
}

/// Whether a PAMT word says that its page is one of that TD's.
pub fn is_owned(tdr: u16, pamt: u64) -> bool
    ensures { result ≡ is_owned tdr pamt }
{
    !says_host(pamt) && says_owner(tdr, pamt)
}
