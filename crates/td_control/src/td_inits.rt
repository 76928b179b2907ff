//! MNG.INIT.

use leaf_engine::{Act, Hand, Place, Plan, Stop, Told, Verdict, Write};
use leaf_parts::{hkid_slot, td_head};
use mrtd_measure::Measure;
use td_words::places::{TDCS_EPOCH, TDCS_OP, TDR_HKID};
use td_words::{Mode, OpState, Status, word_address};

/// MNG.INIT TDR: TD_EPOCH and the measurement of a TD begin.
#[derive(Drop)]
pub struct Init {
    place: Place,
    tdr: u64,
}

impl Init {
    ghost use Rattle.std.specs.Prelude.{◌≡◌};
    ghost use Rattle.td_control.specs.InitTrees.{init_task};

    /// The plan of a call at a place.
    pub fn plan(place: Place, tdr: u64) -> Init
        ensures { ⟦<Init as Plan>⟧.task result ≡ init_task place tdr }
    {
        Init { place, tdr }
    }
}

impl Plan for Init {
    ghost use Rattle.std.specs.Prelude.{nat_lt};
    ghost use Rattle.td_control.specs.InitTrees.{init_task, init_changes};
    ghost use Rattle.td_control.specs.InitMeanings.{init-means};

    ghost task = { λ l. init_task l.place l.tdr };

    ghost changes = { λ l told a. init_changes l.place.machine a.page a.hkid };

    ghost shown = { λ l told a. nat_lt a.page l.place.machine.pages };

    fn decide(&self, told: Told) -> Result<Verdict, Stop> {
        let mut told = told;
        told.check(
            self.tdr < u64::from(self.place.machine.pages),
            Status::OperandInvalid(1),
        )?;
        let tdr = self.tdr as u16;
        let td = td_head(
            &mut told,
            self.place,
            tdr,
            Mode::Exclusive,
            &[OpState::Uninitialized],
        )?;
        let hkid = told.load(word_address(tdr, TDR_HKID))?;
        Ok(Verdict::done(Act {
            page: td.tdcs,
            hkid,
            ..Act::NONE
        }))
    }

    // The slot gets a hasher that has measured nothing, then the operation state is stored, and then
    // TD_EPOCH.
    fn write(&self, act: Act, _told: &[u64], number: usize, hand: &mut Hand) -> Option<Write> {
        let slot = hkid_slot(self.place.machine, act.hkid)?;
        let write = match number {
            0 => {
                *hand = Some(Measure::new());
                Write::Swap(slot)
            }
            1 => Write::store(word_address(act.page, TDCS_OP), OpState::Initialized as u64),
            2 => Write::store(word_address(act.page, TDCS_EPOCH), 1),
            _ => return None,
        };
        Some(write)
    }

    ghost means = { λ l. init-means l.place l.tdr };
}
