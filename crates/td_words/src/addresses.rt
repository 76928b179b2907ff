//! Addresses. A word of memory holds 8 bytes, and addresses count words. Page p has 514 of them:
//! its lock word, its PAMT word, and its 512 content words. The key table stands behind the pages.

ghost use Rattle.std.specs.Prelude.{◌≡◌, ◌<◌, ◌%◌, ◌/◌, ◌*◌, SomeIff};
ghost use Rattle.td_words.specs.Address.{lock_at, pamt_at, word_at, key_at};
ghost use Rattle.td_words.specs.Place.{address, lock_place};

use crate::names::LockName;
use crate::places::{KEY_LOCK, TDCS_EPOCH_LOCK, TDCS_OP_LOCK, TDCS_RTMR_LOCK, TDCS_TREE_LOCK};

/// The address of a page's lock word.
pub fn lock_address(page: u16) -> u32
    ensures { result ≡ lock_at page }
{
    514 * page as u32
}

/// The address of a page's PAMT word.
pub fn pamt_address(page: u16) -> u32
    ensures { result ≡ pamt_at page }
{
    514 * page as u32 + 1
}

/// The address of a content word of a page.
pub fn word_address(page: u16, word: u16) -> u32
    requires { word < 512 }
    ensures { result ≡ word_at page word }
{
    514 * page as u32 + 2 + word as u32
}

/// The address of a word of the key table of a machine of so many pages.
pub fn key_address(pages: u16, number: u16) -> u32
    ensures { result ≡ key_at pages number }
{
    514 * pages as u32 + number as u32
}

/// The address of the lock word of that name, in a machine of so many pages. O, T, E and R stand
/// in the TDCS page of their TD.
pub fn lock_word_address(name: LockName, tdcs: u16, pages: u16) -> u32
    ensures { result ≡ address pages (lock_place tdcs name) }
{
    match name {
        LockName::Page(page) => lock_address(page),
        LockName::Op => word_address(tdcs, TDCS_OP_LOCK),
        LockName::Tree => word_address(tdcs, TDCS_TREE_LOCK),
        LockName::Epoch => word_address(tdcs, TDCS_EPOCH_LOCK),
        LockName::Rtmr => word_address(tdcs, TDCS_RTMR_LOCK),
        LockName::Keys => key_address(pages, KEY_LOCK),
    }
}

/// The page whose lock word, PAMT word or content word stands at an address. None exactly in or
/// past the key table of a machine of so many pages.
pub fn page_of(address: u32, pages: u16) -> Option<u16>
    ensures { SomeIff result (address < 514 * pages) (address / 514) }
{
    if address < 514 * pages as u32 {
        Some((address / 514) as u16)
    } else {
        None
    }
}

/// Which of its page's 514 words stands at an address: 0 the lock word, 1 the PAMT word, and then
/// the content words.
pub fn offset_of(address: u32) -> u16
    ensures { result ≡ address % 514 }
{
    (address % 514) as u16
}
