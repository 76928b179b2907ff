//! VP.INIT.

ghost use Rattle.std.specs.Prelude.{◌≡◌, ℕ, ◌<◌, length};
ghost use Rattle.leaf_engine.specs.Decides.{Decides, ending};
ghost use Rattle.leaf_engine.specs.Inside.{DecisionIn, DecidesEarly};
ghost use Rattle.vcpu_control.specs.VpTrees.{init_changes};
ghost use Rattle.vcpu_control.specs.VpTrees.{init_rest};

use crate::words::{says_page_of, vcpu_told};
use leaf_engine::{Act, Hand, Place, Plan, Stop, Told, Verdict, Write};
use leaf_parts::td_head;
use td_words::places::{VP_REGISTERS, VP_STATE};
use td_words::{
    LockName, Mode, OpState, PageKind, Status, VcpuState, lock_address, pamt_address, word_address,
};

/// VP.INIT TDR VP VALUE: a virtual processor becomes READY, and its register 0 is VALUE.
#[derive(Drop)]
pub struct VpInit {
    place: Place,
    tdr: u64,
    vp: u64,
    value: u64,
    ghost few_pages: { place.machine.pages < 65536 },
}

impl VpInit {
    ghost use Rattle.std.specs.Prelude.{◌≡◌};
    ghost use Rattle.vcpu_control.specs.VpTrees.{vp_init_task};

    /// The plan of a call at a place.
    pub fn plan(place: Place, tdr: u64, vp: u64, value: u64) -> VpInit
        ensures { ⟦<VpInit as Plan>⟧.task result ≡ vp_init_task place tdr vp value }
    {
        VpInit {
            place,
            tdr,
            vp,
            value,
        }
    }
}

impl Plan for VpInit {
    ghost use Rattle.std.specs.Prelude.{nat_lt};
    ghost use Rattle.vcpu_control.specs.VpTrees.{vp_init_task};
    ghost use Rattle.vcpu_control.specs.VpMeanings.{vp_init-means};

    ghost task = { λ l. vp_init_task l.place l.tdr l.vp l.value };

    ghost changes = { λ l told a. init_changes l.vp l.value };

    ghost shown = { λ l told a. nat_lt l.vp l.place.machine.pages };

    fn decide(&self, told: Told) -> Result<Verdict, Stop> {
        let mut told = told;
        let pages = self.place.machine.pages;
        told.check(self.tdr < u64::from(pages), Status::OperandInvalid(1))?;
        told.check(self.vp < u64::from(pages), Status::OperandInvalid(2))?;
        told.check(self.vp != self.tdr, Status::OperandInvalid(2))?;
        let tdr = self.tdr as u16;
        td_head(
            &mut told,
            self.place,
            tdr,
            Mode::Shared,
            &[OpState::Initialized],
        )?;
        initialize(told, self.place, tdr, self.vp as u16)
    }

    fn write(&self, _act: Act, _told: &[u64], number: usize, _hand: &mut Hand) -> Option<Write> {
        let _pages = self.place.machine.pages;
        let vp = self.vp as u16;
        let write = match number {
            0 => Write::store(word_address(vp, VP_STATE), VcpuState::Ready as u64),
            1 => Write::store(word_address(vp, VP_REGISTERS), self.value),
            _ => return None,
        };
        Some(write)
    }

    ghost means = { λ l. vp_init-means l.place l.tdr l.vp l.value l.few_pages };
}

/// What comes behind the beginning of the row.
fn initialize(told: Told, place: Place, tdr: u16, vp: u16) -> Result<Verdict, Stop>
    requires { vp < place.machine.pages }
    ensures decides { (value : ℕ) → Decides place.machine.pages (init_rest tdr vp value) told.entry.left.now (ending (λ a. init_changes vp value) result) }
    ensures inside { DecisionIn place.machine (λ a. Unit {0}) result }
    ensures early { DecidesEarly 3 (length told.entry.left.now) result }
{
    let mut told = told;
    told.lock(LockName::Page(vp), lock_address(vp), Mode::Exclusive)?;
    let pamt = told.load(pamt_address(vp))?;
    told.check(
        says_page_of(tdr, PageKind::Tdvpr, pamt),
        Status::PageMetadataIncorrect(vp),
    )?;
    let state = vcpu_told(told.load(word_address(vp, VP_STATE))?);
    told.check(
        state == VcpuState::Created,
        Status::VcpuStateIncorrect(state),
    )?;
    Ok(Verdict::done(Act::NONE))
}
