//! Whether a block is tracked.

ghost use Rattle.std.specs.Prelude.{◌≡◌, ℕ, ◌+◌, ◌^◌, ◌<◌, ◌≤◌, length, MatchResult};
ghost use Rattle.leaf_engine.specs.Inside.{StopIn, StopEarly};
ghost use Rattle.leaf_parts.specs.Parts.{Goes, Feeds, Uses};
ghost use Rattle.mem_remove.specs.TrackedTrees.{previous_tree, block_tree, tracked_tree};

use leaf_engine::{Place, Stop, Told};
use td_words::places::{TDCS_ENTERED, TDCS_EPOCH};
use td_words::{Status, pamt_address, word_address};

/// How many virtual processors are in guest that entered at the epoch before TD_EPOCH.
pub fn previous(told: &mut Told, place: Place, tdcs: u16, epoch: u64) -> Result<u64, Stop>
    requires { tdcs < place.machine.pages }
    ensures goes { Goes place.machine.pages (λ f. previous_tree tdcs epoch f) told.old.left.now told.new.left.now result }
    ensures feeds { Feeds (λ f. previous_tree tdcs epoch f) told.old.left.now told.new.left.now result }
    ensures uses { Uses 1 told.old.left.now told.new.left.now result }
    ensures inside { MatchResult result (λ n. Unit {0}) (λ e. StopIn place.machine e) }
{
    let parity = 1 - (epoch % 2) as u16;
    told.load(word_address(tdcs, TDCS_ENTERED + parity))
}

/// A block at that epoch is tracked.
pub fn tracked_block(told: &mut Told, place: Place, tdcs: u16, blocked: u64) -> Result<(), Stop>
    requires { (tdcs < place.machine.pages) × (blocked < 2 ^ 32) }
    ensures goes { Goes place.machine.pages (λ f. block_tree tdcs blocked (f tt)) told.old.left.now told.new.left.now result }
    ensures feeds { Feeds (λ f. block_tree tdcs blocked (f tt)) told.old.left.now told.new.left.now result }
    ensures early { MatchResult result (λ u. length told.old.left.now ≤ 2 + length told.new.left.now) (λ e. StopEarly 2 (length told.old.left.now) e) }
    ensures fewer { MatchResult result (λ u. length told.new.left.now ≤ length told.old.left.now) (λ e. Unit {0}) }
    ensures inside { MatchResult result (λ u. Unit {0}) (λ e. StopIn place.machine e) }
{
    let epoch = told.load(word_address(tdcs, TDCS_EPOCH))?;
    if blocked + 1 == epoch {
        let count = previous(told, place, tdcs, epoch)?;
        told.check(count == 0, Status::TlbTrackingNotDone)
    } else {
        told.check(blocked < epoch, Status::TlbTrackingNotDone)
    }
}

/// The block of a page is tracked.
pub fn tracked(told: &mut Told, place: Place, tdcs: u16, page: u16) -> Result<(), Stop>
    requires { (tdcs < place.machine.pages) × (page < place.machine.pages) }
    ensures goes { Goes place.machine.pages (λ f. tracked_tree tdcs page (f tt)) told.old.left.now told.new.left.now result }
    ensures feeds { Feeds (λ f. tracked_tree tdcs page (f tt)) told.old.left.now told.new.left.now result }
    ensures early { MatchResult result (λ u. length told.old.left.now ≤ 3 + length told.new.left.now) (λ e. StopEarly 3 (length told.old.left.now) e) }
    ensures fewer { MatchResult result (λ u. length told.new.left.now ≤ length told.old.left.now) (λ e. Unit {0}) }
    ensures inside { MatchResult result (λ u. Unit {0}) (λ e. StopIn place.machine e) }
{
    let blocked = told.load(pamt_address(page))? >> 32;
    tracked_block(told, place, tdcs, blocked)
}
