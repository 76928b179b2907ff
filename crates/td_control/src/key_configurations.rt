//! MNG.KEY.CONFIG.

use leaf_engine::{Act, Hand, Place, Plan, Stop, Told, Verdict, Write};
use leaf_parts::tdr_head;
use td_words::places::TDR_LIFE;
use td_words::{LifeState, Status, word_address};

/// MNG.KEY.CONFIG TDR: the keys of a TD are configured.
#[derive(Drop)]
pub struct KeyConfig {
    place: Place,
    tdr: u64,
}

impl KeyConfig {
    ghost use Rattle.std.specs.Prelude.{◌≡◌};
    ghost use Rattle.td_control.specs.KeyTrees.{configure_task};

    /// The plan of a call at a place.
    pub fn plan(place: Place, tdr: u64) -> KeyConfig
        ensures { ⟦<KeyConfig as Plan>⟧.task result ≡ configure_task place tdr }
    {
        KeyConfig { place, tdr }
    }
}

impl Plan for KeyConfig {
    ghost use Rattle.std.specs.Prelude.{nat_lt};
    ghost use Rattle.td_control.specs.KeyTrees.{configure_task, configure_changes};
    ghost use Rattle.td_control.specs.KeyMeanings.{configure-means};

    ghost task = { λ l. configure_task l.place l.tdr };

    ghost changes = { λ l told a. configure_changes l.tdr };

    ghost shown = { λ l told a. nat_lt l.tdr l.place.machine.pages };

    fn decide(&self, told: Told) -> Result<Verdict, Stop> {
        let mut told = told;
        let pages = self.place.machine.pages;
        told.check(self.tdr < u64::from(pages), Status::OperandInvalid(1))?;
        let tdr = self.tdr as u16;
        tdr_head(&mut told, self.place, tdr, &[LifeState::HkidAssigned])?;
        Ok(Verdict::done(Act::NONE))
    }

    fn write(&self, _act: Act, _told: &[u64], number: usize, _hand: &mut Hand) -> Option<Write> {
        let _pages = self.place.machine.pages;
        let at = word_address(self.tdr as u16, TDR_LIFE);
        match number {
            0 => Some(Write::store(at, LifeState::KeysConfigured as u64)),
            _ => None,
        }
    }

    ghost means = { λ l. configure-means l.place l.tdr };
}
