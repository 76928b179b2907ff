//! MEM.TRACK.

use crate::named_entries::epoch_lock;
use crate::tracked_blocks::previous;
use leaf_engine::{Act, Hand, Place, Plan, Stop, Told, Verdict, Write};
use leaf_parts::td_head;
use td_words::places::TDCS_EPOCH;
use td_words::{Counter, Mode, OpState, Status, word_address};

/// The operation states in which a TD's epoch may advance.
const RUNNING: [OpState; 2] = [OpState::Runnable, OpState::LiveExport];

/// The last TD_EPOCH.
const LAST_EPOCH: u64 = (1 << 32) - 1;

/// MEM.TRACK TDR: TD_EPOCH rises, once nobody is in guest who entered at the epoch before it.
#[derive(Drop)]
pub struct Track {
    place: Place,
    tdr: u64,
}

impl Track {
    ghost use Rattle.std.specs.Prelude.{◌≡◌};
    ghost use Rattle.mem_remove.specs.TrackTrees.{track_task};

    /// The plan of a call at a place.
    pub fn plan(place: Place, tdr: u64) -> Track
        ensures { ⟦<Track as Plan>⟧.task result ≡ track_task place tdr }
    {
        Track { place, tdr }
    }
}

impl Plan for Track {
    ghost use Rattle.std.specs.Prelude.{◌-◌, ◌^◌, ◌&&◌, nat_lt};
    ghost use Rattle.mem_remove.specs.TrackTrees.{track_task, track_changes};
    ghost use Rattle.mem_remove.specs.TrackMeanings.{track-means};

    ghost task = { λ l. track_task l.place l.tdr };

    ghost changes = { λ l told a. track_changes a.page a.epoch };

    ghost shown = { λ l told a. nat_lt a.page l.place.machine.pages && nat_lt a.epoch (2 ^ 32 - 1) };

    fn decide(&self, told: Told) -> Result<Verdict, Stop> {
        let mut told = told;
        told.check(
            self.tdr < u64::from(self.place.machine.pages),
            Status::OperandInvalid(1),
        )?;
        let tdr = self.tdr as u16;
        let td = td_head(&mut told, self.place, tdr, Mode::Shared, &RUNNING)?;
        advance(told, self.place, td.tdcs)
    }

    // The act is the store of the new epoch.
    fn write(&self, act: Act, _told: &[u64], number: usize, _hand: &mut Hand) -> Option<Write> {
        match number {
            0 => Some(Write::store(word_address(act.page, TDCS_EPOCH), act.epoch + 1)),
            _ => None,
        }
    }

    ghost means = { λ l. track-means l.place l.tdr };
}

ghost use Rattle.std.specs.Prelude.{◌≡◌, ℕ, ◌-◌, ◌^◌, ◌<◌, length};
ghost use Rattle.leaf_engine.specs.Decides.{Decides, ending};
ghost use Rattle.leaf_engine.specs.Inside.{DecisionIn, DecidesEarly};
ghost use Rattle.mem_remove.specs.TrackTrees.{track_rest, track_changes};

/// What comes behind the beginning of a TD's row: TD_EPOCH is held alone and can rise, and nobody is
/// in guest who entered at the epoch before it.
fn advance(told: Told, place: Place, tdcs: u16) -> Result<Verdict, Stop>
    requires { tdcs < place.machine.pages }
    ensures decides { (t : ℕ) → Decides place.machine.pages (track_rest t tdcs) told.entry.left.now (ending (λ a. track_changes a.page a.epoch) result) }
    ensures inside { DecisionIn place.machine (λ a. (a.page < place.machine.pages) × (a.epoch < 2 ^ 32 - 1)) result }
    ensures early { DecidesEarly 3 (length told.entry.left.now) result }
{
    let mut told = told;
    epoch_lock(&mut told, place, tdcs, Mode::Exclusive)?;
    let epoch = told.load(word_address(tdcs, TDCS_EPOCH))?;
    told.check(epoch < LAST_EPOCH, Status::CounterLimit(Counter::TdEpoch))?;
    let count = previous(&mut told, place, tdcs, epoch)?;
    told.check(count == 0, Status::PreviousTlbEpochBusy(count))?;
    Ok(Verdict::done(Act {
        page: tdcs,
        epoch,
        ..Act::NONE
    }))
}
