//! The fields of a bundle's header against what TDCS and a stream say.

ghost use Rattle.std.specs.Prelude.{◌≡◌, ◌-◌, ◌^◌, ◌<◌, MatchResult};
ghost use Rattle.flat_core.specs.Opening.{clear_header};
ghost use Rattle.leaf_engine.specs.Inside.{StopIn};
ghost use Rattle.leaf_parts.specs.Parts.{Goes, Feeds, Uses};
ghost use Rattle.import_parts.specs.InputTrees.{session_same_tree, epoch_same_tree, is_due, counter_due_tree};

use leaf_engine::{Stop, Told};
use stream_parts::{Room, mig_epoch, session, stream_page};
use td_words::places::STREAM_COUNTER;
use td_words::{Header, HeaderField, Machine, Status, word_address};

/// The session is the TD's.
pub fn session_same(
    told: &mut Told,
    machine: Machine,
    tdcs: u16,
    header: &Header,
) -> Result<(), Stop>
    requires { tdcs < machine.pages }
    ensures goes { Goes machine.pages (λ f. session_same_tree tdcs (clear_header header.now) (f tt)) told.old.left.now told.new.left.now result }
    ensures feeds { Feeds (λ f. session_same_tree tdcs (clear_header header.now) (f tt)) told.old.left.now told.new.left.now result }
    ensures uses { Uses 1 told.old.left.now told.new.left.now result }
    ensures inside { MatchResult result (λ u. Unit {0}) (λ e. StopIn machine e) }
{
    let session = session(told, machine, tdcs)?;
    told.check(
        header.session == session,
        Status::BundleHeader(HeaderField::Session),
    )
}

/// The migration epoch is the TD's.
pub fn epoch_same(told: &mut Told, machine: Machine, tdcs: u16, header: &Header) -> Result<(), Stop>
    requires { tdcs < machine.pages }
    ensures goes { Goes machine.pages (λ f. epoch_same_tree tdcs (clear_header header.now) (f tt)) told.old.left.now told.new.left.now result }
    ensures feeds { Feeds (λ f. epoch_same_tree tdcs (clear_header header.now) (f tt)) told.old.left.now told.new.left.now result }
    ensures uses { Uses 1 told.old.left.now told.new.left.now result }
    ensures inside { MatchResult result (λ u. Unit {0}) (λ e. StopIn machine e) }
{
    let epoch = mig_epoch(told, machine, tdcs)?;
    told.check(
        header.epoch == epoch,
        Status::BundleHeader(HeaderField::Epoch),
    )
}

/// Whether the counter is the one that is due, and isn't the last one, which no stream counts up to.
pub fn is_due(header: &Header, due: u64) -> bool
    ensures { result ≡ is_due (clear_header header.now) due }
{
    u64::from(header.counter) == due && due < u64::from(u32::MAX)
}

/// The counter is the one that is due on the stream of that number. It tells the stream.
pub fn counter_due(
    told: &mut Told,
    machine: Machine,
    tdcs: u16,
    stream: u16,
    header: &Header,
) -> Result<Room, Stop>
    requires { (tdcs < machine.pages) × (stream < 4) }
    ensures goes { Goes machine.pages (λ f. counter_due_tree machine.pages tdcs stream (clear_header header.now) f) told.old.left.now told.new.left.now result }
    ensures feeds { Feeds (λ f. counter_due_tree machine.pages tdcs stream (clear_header header.now) f) told.old.left.now told.new.left.now result }
    ensures uses { Uses 2 told.old.left.now told.new.left.now result }
    ensures inside { MatchResult result (λ r. (r.page < machine.pages) × (r.counter < 2 ^ 32 - 1)) (λ e. StopIn machine e) }
{
    let page = stream_page(told, machine, tdcs, stream)?;
    let counter = told.load(word_address(page, STREAM_COUNTER))?;
    told.check(
        is_due(header, counter),
        Status::BundleCounter {
            expected: counter,
            got: u64::from(header.counter),
        },
    )?;
    Ok(Room {
        page,
        counter: header.counter,
    })
}
