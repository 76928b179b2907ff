//! VP.ENTER.

ghost use Rattle.std.specs.Prelude.{◌≡◌, ℕ, ◌<◌, length};
ghost use Rattle.leaf_engine.specs.Decides.{Decides, ending};
ghost use Rattle.leaf_engine.specs.Inside.{DecisionIn, DecidesEarly};
ghost use Rattle.vcpu_control.specs.EnterTrees.{enter_changes, enter_rest, enter_associated, enter_epoch};

use crate::words::{
    entered_address, is_elsewhere, is_most, is_ready, is_stale, lp_shown, lp_told, says_page_of,
    vcpu_told,
};
use leaf_engine::{Act, Hand, Place, Plan, Stop, Told, Verdict, Write};
use leaf_parts::{page_told, td_head};
use step_core::WordStep;
use td_words::places::{
    TDCS_EPOCH, TDCS_EPOCH_LOCK, TDR_ROOT, VP_ASSOCIATED, VP_INDEX, VP_LAST_EPOCH, VP_POSITION,
    VP_STATE,
};
use td_words::{
    LockName, Mode, OpState, PageKind, Reply, Status, Value, lock_address, pamt_address,
    word_address,
};

/// VP.ENTER TDR VP MAX: a virtual processor's guest begins on this logical processor.
#[derive(Drop)]
pub struct Enter {
    place: Place,
    tdr: u64,
    vp: u64,
    most: u64,
    ghost few_pages: { place.machine.pages < 65536 },
}

impl Enter {
    ghost use Rattle.std.specs.Prelude.{◌≡◌};
    ghost use Rattle.vcpu_control.specs.EnterTrees.{vp_enter_task};

    /// The plan of a call at a place.
    pub fn plan(place: Place, tdr: u64, vp: u64, most: u64) -> Enter
        ensures { ⟦<Enter as Plan>⟧.task result ≡ vp_enter_task place tdr vp most }
    {
        Enter {
            place,
            tdr,
            vp,
            most,
        }
    }
}

impl Plan for Enter {
    ghost use Rattle.std.specs.Prelude.{◌&&◌, nat_lt};
    ghost use Rattle.vcpu_control.specs.EnterTrees.{vp_enter_task};
    ghost use Rattle.vcpu_control.specs.EnterMeans.{entry-means};

    ghost task = { λ l. vp_enter_task l.place l.tdr l.vp l.most };

    ghost changes = { λ l told a. enter_changes a.page l.place.lp l.vp a.count };

    ghost shown = { λ l told a. nat_lt l.vp l.place.machine.pages && nat_lt a.page l.place.machine.pages };

    fn decide(&self, told: Told) -> Result<Verdict, Stop> {
        let mut told = told;
        let pages = self.place.machine.pages;
        told.check(self.tdr < u64::from(pages), Status::OperandInvalid(1))?;
        told.check(self.vp < u64::from(pages), Status::OperandInvalid(2))?;
        told.check(is_most(self.most), Status::OperandInvalid(3))?;
        told.check(self.vp != self.tdr, Status::OperandInvalid(2))?;
        let tdr = self.tdr as u16;
        let td = td_head(
            &mut told,
            self.place,
            tdr,
            Mode::Shared,
            &[OpState::Runnable, OpState::LiveExport, OpState::LiveImport],
        )?;
        enter_ready(told, self.place, tdr, td.tdcs, self.vp as u16)
    }

    // The addition to the count of TD_EPOCH's parity is the act; then the association and the last
    // epoch.
    fn write(&self, act: Act, _told: &[u64], number: usize, _hand: &mut Hand) -> Option<Write> {
        let _pages = self.place.machine.pages;
        let vp = self.vp as u16;
        let write = match number {
            0 => Write::Word(WordStep::Add(entered_address(act.page, act.count), 1)),
            1 => Write::store(
                word_address(vp, VP_ASSOCIATED),
                u64::from(self.place.lp) + 1,
            ),
            2 => Write::store(word_address(vp, VP_LAST_EPOCH), act.count),
            _ => return None,
        };
        Some(write)
    }

    ghost means = { λ l. entry-means l.place l.tdr l.vp l.most l.few_pages };
}

/// What comes behind the beginning of the row: the virtual processor is READY.
fn enter_ready(told: Told, place: Place, tdr: u16, tdcs: u16, vp: u16) -> Result<Verdict, Stop>
    requires { (tdr < place.machine.pages) × (tdcs < place.machine.pages) × (vp < place.machine.pages) }
    ensures decides { (most : ℕ) → Decides place.machine.pages (enter_rest place.machine.pages place.lp tdr tdcs vp most) told.entry.left.now (ending (λ a. enter_changes a.page place.lp vp a.count) result) }
    ensures inside { DecisionIn place.machine (λ a. a.page < place.machine.pages) result }
    ensures early { DecidesEarly 10 (length told.entry.left.now) result }
{
    let mut told = told;
    told.lock(LockName::Page(vp), lock_address(vp), Mode::Exclusive)?;
    let pamt = told.load(pamt_address(vp))?;
    told.check(
        says_page_of(tdr, PageKind::Tdvpr, pamt),
        Status::PageMetadataIncorrect(vp),
    )?;
    let state = vcpu_told(told.load(word_address(vp, VP_STATE))?);
    told.check(is_ready(state), Status::VcpuStateIncorrect(state))?;
    associate(told, place, tdr, tdcs, vp)
}

/// It is associated with no other logical processor.
fn associate(told: Told, place: Place, tdr: u16, tdcs: u16, vp: u16) -> Result<Verdict, Stop>
    requires { (tdr < place.machine.pages) × (tdcs < place.machine.pages) × (vp < place.machine.pages) }
    ensures decides { (most : ℕ) → Decides place.machine.pages (enter_associated place.machine.pages place.lp tdr tdcs vp most) told.entry.left.now (ending (λ a. enter_changes a.page place.lp vp a.count) result) }
    ensures inside { DecisionIn place.machine (λ a. a.page < place.machine.pages) result }
    ensures early { DecidesEarly 7 (length told.entry.left.now) result }
{
    let mut told = told;
    let associated = lp_told(told.load(word_address(vp, VP_ASSOCIATED))?);
    told.check(
        !is_elsewhere(place.lp, associated),
        Status::VcpuAssociated(lp_shown(associated)),
    )?;
    begin_guest(told, place, tdr, tdcs, vp, associated)
}

/// TD_EPOCH is held. The last epoch tells whether cached translations may be stale; the rest tells
/// where the guest begins.
fn begin_guest(
    told: Told,
    place: Place,
    tdr: u16,
    tdcs: u16,
    vp: u16,
    associated: Option<u64>,
) -> Result<Verdict, Stop>
    requires { (tdr < place.machine.pages) × (tdcs < place.machine.pages) × (vp < place.machine.pages) }
    ensures decides { (most : ℕ) → Decides place.machine.pages (enter_epoch place.machine.pages place.lp tdr tdcs vp most associated) told.entry.left.now (ending (λ a. enter_changes a.page place.lp vp a.count) result) }
    ensures inside { DecisionIn place.machine (λ a. a.page < place.machine.pages) result }
    ensures early { DecidesEarly 6 (length told.entry.left.now) result }
{
    let mut told = told;
    told.lock(
        LockName::Epoch,
        word_address(tdcs, TDCS_EPOCH_LOCK),
        Mode::Shared,
    )?;
    let epoch = told.load(word_address(tdcs, TDCS_EPOCH))?;
    let last = told.load(word_address(vp, VP_LAST_EPOCH))?;
    let index = told.load(word_address(vp, VP_INDEX))?;
    let position = told.load(word_address(vp, VP_POSITION))?;
    let root = told.load(word_address(tdr, TDR_ROOT))?;
    Ok(Verdict {
        reply: Reply::Done(Value::Entered {
            stale: is_stale(associated, last, epoch),
            index,
            position,
            root: page_told(place.machine.pages, root),
        }),
        act: Act {
            page: tdcs,
            count: epoch,
            ..Act::NONE
        },
    })
}
