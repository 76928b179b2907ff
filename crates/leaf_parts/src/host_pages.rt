//! A page of the host's that becomes one of a TD's.

ghost use Rattle.std.specs.Prelude.{◌≡◌, ℕ, ◌<◌, MatchResult};
ghost use Rattle.leaf_engine.specs.Inside.{StopIn};
ghost use Rattle.leaf_parts.specs.Parts.{Goes, Feeds, Uses};
ghost use Rattle.leaf_parts.specs.HostPages.{host_page_tree, taken_page_tree};

use crate::words::says_host;
use leaf_engine::{Place, Stop, Told};
use td_words::places::TDR_CHILDREN;
use td_words::{LockName, Mode, Status, lock_address, pamt_address, word_address};

/// A page is held alone, and is the host's.
pub fn host_page(told: &mut Told, place: Place, page: u16) -> Result<(), Stop>
    requires { page < place.machine.pages }
    ensures goes { Goes place.machine.pages (λ f. host_page_tree page (f tt)) told.old.left.now told.new.left.now result }
    ensures feeds { Feeds (λ f. host_page_tree page (f tt)) told.old.left.now told.new.left.now result }
    ensures uses { Uses 2 told.old.left.now told.new.left.now result }
    ensures inside { MatchResult result (λ u. Unit {0}) (λ e. StopIn place.machine e) }
{
    told.lock(LockName::Page(page), lock_address(page), Mode::Exclusive)?;
    let pamt = told.load(pamt_address(page))?;
    told.check(says_host(pamt), Status::PageMetadataIncorrect(page))
}

/// It will be a TD's. The TD's child count, before.
pub fn taken_page(told: &mut Told, place: Place, tdr: u16, page: u16) -> Result<u64, Stop>
    requires { (tdr < place.machine.pages) × (page < place.machine.pages) }
    ensures goes { Goes place.machine.pages (λ f. taken_page_tree tdr page f) told.old.left.now told.new.left.now result }
    ensures feeds { Feeds (λ f. taken_page_tree tdr page f) told.old.left.now told.new.left.now result }
    ensures uses { Uses 3 told.old.left.now told.new.left.now result }
    ensures inside { MatchResult result (λ n. Unit {0}) (λ e. StopIn place.machine e) }
{
    host_page(told, place, page)?;
    told.load(word_address(tdr, TDR_CHILDREN))
}
