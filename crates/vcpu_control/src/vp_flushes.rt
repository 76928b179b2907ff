//! VP.FLUSH.

ghost use Rattle.std.specs.Prelude.{◌≡◌, ◌<◌, length};
ghost use Rattle.leaf_engine.specs.Decides.{Decides, ending};
ghost use Rattle.leaf_engine.specs.Inside.{DecisionIn, DecidesEarly};
ghost use Rattle.vcpu_control.specs.FlushTrees.{flush_changes, flush_rest};

use crate::words::{is_elsewhere, lp_shown, lp_told, says_page_of};
use leaf_engine::{Act, Hand, Place, Plan, Stop, Told, Verdict, Write};
use leaf_parts::{life_in, root};
use td_words::places::VP_ASSOCIATED;
use td_words::{
    LifeState, LockName, Mode, PageKind, Status, lock_address, pamt_address, word_address,
};

/// VP.FLUSH TDR VP: a virtual processor's association with this logical processor ends, and the
/// translations that it has cached for the TD are dropped.
#[derive(Drop)]
pub struct VpFlush {
    place: Place,
    tdr: u64,
    vp: u64,
    ghost few_pages: { place.machine.pages < 65536 },
}

impl VpFlush {
    ghost use Rattle.std.specs.Prelude.{◌≡◌};
    ghost use Rattle.vcpu_control.specs.FlushTrees.{vp_flush_task};

    /// The plan of a call at a place.
    pub fn plan(place: Place, tdr: u64, vp: u64) -> VpFlush
        ensures { ⟦<VpFlush as Plan>⟧.task result ≡ vp_flush_task place tdr vp }
    {
        VpFlush { place, tdr, vp }
    }
}

impl Plan for VpFlush {
    ghost use Rattle.std.specs.Prelude.{nat_lt};
    ghost use Rattle.vcpu_control.specs.FlushTrees.{vp_flush_task};
    ghost use Rattle.vcpu_control.specs.FlushMeans.{flush-means};

    ghost task = { λ l. vp_flush_task l.place l.tdr l.vp };

    ghost changes = { λ l told a. flush_changes l.vp };

    ghost shown = { λ l told a. nat_lt l.vp l.place.machine.pages };

    fn decide(&self, told: Told) -> Result<Verdict, Stop> {
        let mut told = told;
        let pages = self.place.machine.pages;
        told.check(self.tdr < u64::from(pages), Status::OperandInvalid(1))?;
        told.check(self.vp < u64::from(pages), Status::OperandInvalid(2))?;
        told.check(self.vp != self.tdr, Status::OperandInvalid(2))?;
        let tdr = self.tdr as u16;
        root(&mut told, self.place, tdr, Mode::Shared)?;
        life_in(&mut told, self.place, tdr, &[LifeState::KeysConfigured])?;
        flush(told, self.place, tdr, self.vp as u16)
    }

    fn write(&self, _act: Act, _told: &[u64], number: usize, _hand: &mut Hand) -> Option<Write> {
        let _pages = self.place.machine.pages;
        let write = match number {
            0 => Write::store(word_address(self.vp as u16, VP_ASSOCIATED), 0),
            _ => return None,
        };
        Some(write)
    }

    ghost means = { λ l. flush-means l.place l.tdr l.vp l.few_pages };
}

/// What comes behind the life state: the virtual processor is associated, and with this logical
/// processor.
fn flush(told: Told, place: Place, tdr: u16, vp: u16) -> Result<Verdict, Stop>
    requires { vp < place.machine.pages }
    ensures decides { Decides place.machine.pages (flush_rest place.lp tdr vp) told.entry.left.now (ending (λ a. flush_changes vp) result) }
    ensures inside { DecisionIn place.machine (λ a. Unit {0}) result }
    ensures early { DecidesEarly 3 (length told.entry.left.now) result }
{
    let mut told = told;
    told.lock(LockName::Page(vp), lock_address(vp), Mode::Exclusive)?;
    let pamt = told.load(pamt_address(vp))?;
    told.check(
        says_page_of(tdr, PageKind::Tdvpr, pamt),
        Status::PageMetadataIncorrect(vp),
    )?;
    let associated = lp_told(told.load(word_address(vp, VP_ASSOCIATED))?);
    told.check(associated.is_some(), Status::VcpuNotAssociated)?;
    told.check(
        !is_elsewhere(place.lp, associated),
        Status::VcpuAssociated(lp_shown(associated)),
    )?;
    Ok(Verdict::done(Act::NONE))
}
