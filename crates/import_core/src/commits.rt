//! IMPORT.COMMIT and IMPORT.END.

use leaf_engine::{Act, Hand, Place, Plan, Stop, Told, Verdict, Write};
use leaf_parts::td_head;
use stream_parts::{op_verdict, op_write};
use td_words::{Mode, OpState, Status};

/// The operation state in which an import is committed.
const WHOLE: [OpState; 1] = [OpState::PostImport];

/// The one in which it ends.
const LATE: [OpState; 1] = [OpState::LiveImport];

/// IMPORT.COMMIT TDR: a TD that was imported may run, and pages may still come.
#[derive(Drop)]
pub struct Commit {
    place: Place,
    tdr: u64,
}

/// IMPORT.END TDR: no page comes late any more.
#[derive(Drop)]
pub struct ImportEnd {
    place: Place,
    tdr: u64,
}

impl Commit {
    ghost use Rattle.std.specs.Prelude.{◌≡◌};
    ghost use Rattle.import_core.specs.CommitTrees.{commit_task};

    /// The plan of a call at a place.
    pub fn plan(place: Place, tdr: u64) -> Commit
        ensures { ⟦<Commit as Plan>⟧.task result ≡ commit_task place tdr }
    {
        Commit { place, tdr }
    }
}

impl ImportEnd {
    ghost use Rattle.std.specs.Prelude.{◌≡◌};
    ghost use Rattle.import_core.specs.CommitTrees.{import_end_task};

    /// The plan of a call at a place.
    pub fn plan(place: Place, tdr: u64) -> ImportEnd
        ensures { ⟦<ImportEnd as Plan>⟧.task result ≡ import_end_task place tdr }
    {
        ImportEnd { place, tdr }
    }
}

impl Plan for Commit {
    ghost use Rattle.std.specs.Prelude.{nat_lt};
    ghost use Rattle.td_words.specs.declared.names.OpState.TheVariants.{LiveImport};
    ghost use Rattle.stream_parts.specs.AloneTrees.{op_changes};
    ghost use Rattle.import_core.specs.CommitTrees.{commit_task};
    ghost use Rattle.import_core.specs.CommitMeanings.{commit-means};

    ghost task = { λ l. commit_task l.place l.tdr };

    ghost changes = { λ l told a. op_changes LiveImport a.page };

    ghost shown = { λ l told a. nat_lt a.page l.place.machine.pages };

    fn decide(&self, told: Told) -> Result<Verdict, Stop> {
        op_verdict(told, self.place, self.tdr, &WHOLE)
    }

    fn write(&self, act: Act, _told: &[u64], number: usize, hand: &mut Hand) -> Option<Write> {
        op_write(
            self.place.machine,
            act.page,
            OpState::LiveImport,
            number,
            hand,
        )
    }

    ghost means = { λ l. commit-means l.place l.tdr };
}

impl Plan for ImportEnd {
    ghost use Rattle.std.specs.Prelude.{nat_lt};
    ghost use Rattle.td_words.specs.declared.names.OpState.TheVariants.{Runnable};
    ghost use Rattle.stream_parts.specs.AloneTrees.{op_changes};
    ghost use Rattle.import_core.specs.CommitTrees.{import_end_task};
    ghost use Rattle.import_core.specs.CommitMeanings.{import_end-means};

    ghost task = { λ l. import_end_task l.place l.tdr };

    ghost changes = { λ l told a. op_changes Runnable a.page };

    ghost shown = { λ l told a. nat_lt a.page l.place.machine.pages };

    fn decide(&self, told: Told) -> Result<Verdict, Stop> {
        let mut told = told;
        told.check(
            self.tdr < u64::from(self.place.machine.pages),
            Status::OperandInvalid(1),
        )?;
        let td = td_head(
            &mut told,
            self.place,
            self.tdr as u16,
            Mode::Exclusive,
            &LATE,
        )?;
        Ok(Verdict::done(Act {
            page: td.tdcs,
            ..Act::NONE
        }))
    }

    fn write(&self, act: Act, _told: &[u64], number: usize, hand: &mut Hand) -> Option<Write> {
        op_write(
            self.place.machine,
            act.page,
            OpState::Runnable,
            number,
            hand,
        )
    }

    ghost means = { λ l. import_end-means l.place l.tdr };
}
