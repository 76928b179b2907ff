//! EXPORT.PAUSE and EXPORT.ABORT.

use leaf_engine::{Act, Hand, Place, Plan, Stop, Told, Verdict, Write};
use stream_parts::{op_verdict, op_write};
use td_words::OpState;

/// The operation state in which a TD is exported running.
const LIVE: [OpState; 1] = [OpState::LiveExport];

/// Those in which its export can be aborted.
const ABORTABLE: [OpState; 2] = [OpState::LiveExport, OpState::PausedExport];

/// EXPORT.PAUSE TDR: a TD that is exported runs no more.
#[derive(Drop)]
pub struct Pause {
    place: Place,
    tdr: u64,
}

/// EXPORT.ABORT TDR: a TD's export ends, and it runs on here.
#[derive(Drop)]
pub struct Abort {
    place: Place,
    tdr: u64,
}

impl Pause {
    ghost use Rattle.std.specs.Prelude.{◌≡◌};
    ghost use Rattle.export_core.specs.PauseTrees.{pause_task};

    /// The plan of a call at a place.
    pub fn plan(place: Place, tdr: u64) -> Pause
        ensures { ⟦<Pause as Plan>⟧.task result ≡ pause_task place tdr }
    {
        Pause { place, tdr }
    }
}

impl Abort {
    ghost use Rattle.std.specs.Prelude.{◌≡◌};
    ghost use Rattle.export_core.specs.PauseTrees.{abort_task};

    /// The plan of a call at a place.
    pub fn plan(place: Place, tdr: u64) -> Abort
        ensures { ⟦<Abort as Plan>⟧.task result ≡ abort_task place tdr }
    {
        Abort { place, tdr }
    }
}

impl Plan for Pause {
    ghost use Rattle.std.specs.Prelude.{nat_lt};
    ghost use Rattle.td_words.specs.declared.names.OpState.TheVariants.{PausedExport};
    ghost use Rattle.stream_parts.specs.AloneTrees.{op_changes};
    ghost use Rattle.export_core.specs.PauseTrees.{pause_task};
    ghost use Rattle.export_core.specs.PauseMeanings.{pause-means};

    ghost task = { λ l. pause_task l.place l.tdr };

    ghost changes = { λ l told a. op_changes PausedExport a.page };

    ghost shown = { λ l told a. nat_lt a.page l.place.machine.pages };

    fn decide(&self, told: Told) -> Result<Verdict, Stop> {
        op_verdict(told, self.place, self.tdr, &LIVE)
    }

    fn write(&self, act: Act, _told: &[u64], number: usize, hand: &mut Hand) -> Option<Write> {
        op_write(
            self.place.machine,
            act.page,
            OpState::PausedExport,
            number,
            hand,
        )
    }

    ghost means = { λ l. pause-means l.place l.tdr };
}

impl Plan for Abort {
    ghost use Rattle.std.specs.Prelude.{nat_lt};
    ghost use Rattle.td_words.specs.declared.names.OpState.TheVariants.{Runnable};
    ghost use Rattle.stream_parts.specs.AloneTrees.{op_changes};
    ghost use Rattle.export_core.specs.PauseTrees.{abort_task};
    ghost use Rattle.export_core.specs.PauseMeanings.{abort-means};

    ghost task = { λ l. abort_task l.place l.tdr };

    ghost changes = { λ l told a. op_changes Runnable a.page };

    ghost shown = { λ l told a. nat_lt a.page l.place.machine.pages };

    fn decide(&self, told: Told) -> Result<Verdict, Stop> {
        op_verdict(told, self.place, self.tdr, &ABORTABLE)
    }

    fn write(&self, act: Act, _told: &[u64], number: usize, hand: &mut Hand) -> Option<Write> {
        op_write(
            self.place.machine,
            act.page,
            OpState::Runnable,
            number,
            hand,
        )
    }

    ghost means = { λ l. abort-means l.place l.tdr };
}
