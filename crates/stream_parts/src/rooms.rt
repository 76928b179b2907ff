//! The stream that a bundle is made on, and the words of its header that TDCS has.

ghost use Rattle.std.specs.Prelude.{◌≡◌, ◌-◌, ◌^◌, ◌<◌, MatchResult};
ghost use Rattle.leaf_engine.specs.Inside.{StopIn};
ghost use Rattle.leaf_parts.specs.Parts.{Goes, Feeds, Uses};
ghost use Rattle.stream_parts.specs.Rooms.{counter_tree, room_tree, session_tree, mig_epoch_tree};

use crate::streams::stream_page;
use leaf_engine::{Stop, Told};
use td_words::places::{STREAM_COUNTER, TDCS_MIG_EPOCH, TDCS_SESSION};
use td_words::{Counter, Machine, Status, word_address};

/// A stream with room for another bundle: its page, and how many bundles of the session it has
/// counted so far, at most 2^32 - 2.
#[derive(Clone, Copy, Debug, PartialEq, Eq)]
pub struct Room {
    pub page: u16,
    pub counter: u32,
}

/// The stream of that number has room for another bundle.
pub fn room_on(told: &mut Told, machine: Machine, tdcs: u16, stream: u16) -> Result<Room, Stop>
    requires { (tdcs < machine.pages) × (stream < 4) }
    ensures goes { Goes machine.pages (λ f. room_tree machine.pages tdcs stream f) told.old.left.now told.new.left.now result }
    ensures feeds { Feeds (λ f. room_tree machine.pages tdcs stream f) told.old.left.now told.new.left.now result }
    ensures uses { Uses 2 told.old.left.now told.new.left.now result }
    ensures inside { MatchResult result (λ r. (r.page < machine.pages) × (r.counter < 2 ^ 32 - 1)) (λ e. StopIn machine e) }
{
    let page = stream_page(told, machine, tdcs, stream)?;
    room_of(told, machine, page)
}

/// The stream of that page has room for another bundle.
pub fn room_of(told: &mut Told, machine: Machine, page: u16) -> Result<Room, Stop>
    requires { page < machine.pages }
    ensures goes { Goes machine.pages (λ f. counter_tree page f) told.old.left.now told.new.left.now result }
    ensures feeds { Feeds (λ f. counter_tree page f) told.old.left.now told.new.left.now result }
    ensures uses { Uses 1 told.old.left.now told.new.left.now result }
    ensures inside { MatchResult result (λ r. (r.page ≡ page) × (r.counter < 2 ^ 32 - 1)) (λ e. StopIn machine e) }
{
    let counter = told.load(word_address(page, STREAM_COUNTER))?;
    told.check(
        counter < u64::from(u32::MAX),
        Status::CounterLimit(Counter::Mb),
    )?;
    Ok(Room {
        page,
        counter: counter as u32,
    })
}

/// The session of a TD. A number of more than 16 bits never stands where it is told.
pub fn session(told: &mut Told, machine: Machine, tdcs: u16) -> Result<u16, Stop>
    requires { tdcs < machine.pages }
    ensures goes { Goes machine.pages (λ f. session_tree tdcs f) told.old.left.now told.new.left.now result }
    ensures feeds { Feeds (λ f. session_tree tdcs f) told.old.left.now told.new.left.now result }
    ensures uses { Uses 1 told.old.left.now told.new.left.now result }
    ensures inside { MatchResult result (λ s. Unit {0}) (λ e. StopIn machine e) }
{
    let session = told.load(word_address(tdcs, TDCS_SESSION))?;
    Ok((session % 65536) as u16)
}

/// The migration epoch of a TD. A number of more than 32 bits never stands where it is told.
pub fn mig_epoch(told: &mut Told, machine: Machine, tdcs: u16) -> Result<u32, Stop>
    requires { tdcs < machine.pages }
    ensures goes { Goes machine.pages (λ f. mig_epoch_tree tdcs f) told.old.left.now told.new.left.now result }
    ensures feeds { Feeds (λ f. mig_epoch_tree tdcs f) told.old.left.now told.new.left.now result }
    ensures uses { Uses 1 told.old.left.now told.new.left.now result }
    ensures inside { MatchResult result (λ e. Unit {0}) (λ e. StopIn machine e) }
{
    let epoch = told.load(word_address(tdcs, TDCS_MIG_EPOCH))?;
    Ok((epoch % 4294967296) as u32)
}
