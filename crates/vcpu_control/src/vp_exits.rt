//! The count step of an exit.

ghost use Rattle.std.specs.Prelude.{◌<◌};

use crate::words::entered_address;
use leaf_engine::{Act, Hand, Place, Plan, Stop, Told, Verdict, Write};
use leaf_parts::page_told;
use step_core::WordStep;
use td_words::places::{TDR_TDCS, VP_LAST_EPOCH};
use td_words::{Outcome, Reply, word_address};

/// A guest is left with an outcome: its virtual processor comes off the count of the epoch at which
/// it entered.
#[derive(Drop)]
pub struct Exit {
    place: Place,
    tdr: u16,
    vp: u16,
    outcome: Outcome,
    ghost inside: { (tdr < place.machine.pages) × (vp < place.machine.pages) },
}

impl Exit {
    ghost use Rattle.std.specs.Prelude.{◌≡◌, ◌<◌};
    ghost use Rattle.vcpu_control.specs.ExitTrees.{exit_task};

    /// The plan of the exit of a virtual processor's guest, at a place.
    pub fn plan(place: Place, tdr: u16, vp: u16, outcome: Outcome) -> Exit
        requires inside { (tdr < place.machine.pages) × (vp < place.machine.pages) }
        ensures { ⟦<Exit as Plan>⟧.task result ≡ exit_task place tdr vp outcome }
    {
        Exit {
            place,
            tdr,
            vp,
            outcome,
        }
    }
}

impl Plan for Exit {
    ghost use Rattle.std.specs.Prelude.{nat_lt};
    ghost use Rattle.leaf_parts.specs.Words.{page_told};
    ghost use Rattle.vcpu_control.specs.ExitTrees.{exit_changes, exit_task};
    ghost use Rattle.vcpu_control.specs.ExitMeans.{exit-means};

    ghost task = { λ l. exit_task l.place l.tdr l.vp l.outcome };

    ghost changes = { λ l told a. exit_changes a.page a.count };

    ghost shown = { λ l told a. nat_lt a.page l.place.machine.pages };

    fn decide(&self, told: Told) -> Result<Verdict, Stop> {
        let mut told = told;
        let word = told.load(word_address(self.tdr, TDR_TDCS))?;
        let last = told.load(word_address(self.vp, VP_LAST_EPOCH))?;
        Ok(Verdict {
            reply: Reply::Exited(self.outcome),
            act: Act {
                page: page_told(self.place.machine.pages, word),
                count: last,
                ..Act::NONE
            },
        })
    }

    // One is taken off: 2^64 - 1 is added, and nothing is carried.
    fn write(&self, act: Act, _told: &[u64], number: usize, _hand: &mut Hand) -> Option<Write> {
        let _pages = self.place.machine.pages;
        match number {
            0 => {
                let count = entered_address(act.page, act.count);
                Some(Write::Word(WordStep::Add(count, u64::MAX)))
            }
            _ => None,
        }
    }

    ghost means = { λ l. exit-means l.place l.tdr l.vp l.outcome };
}
