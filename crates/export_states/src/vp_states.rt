//! EXPORT.STATE.VP.

ghost use Rattle.std.specs.Prelude.{◌≡◌, ℕ, ◌+◌, ◌<◌, ◌≤◌, length, MatchOption, MatchResult};
ghost use Rattle.leaf_engine.specs.Decides.{HandsAt};
ghost use Rattle.leaf_engine.specs.Inside.{StopIn, StopEarly};
ghost use Rattle.leaf_parts.specs.Parts.{Goes, Feeds, Uses};
ghost use Rattle.export_states.specs.VpStateTrees.{vp_left_tree, vp_said_tree, vp_state_tree, vp_asked, vp_changes};

use crate::states::{Exported, Stated, payload_of};
use bundles::Bundle;
use leaf_engine::{Act, Hand, Place, Plan, Stop, Told, Verdict, Write};
use leaf_parts::td_head;
use stream_parts::{Room, room_on};
use td_words::places::{
    STREAM_COUNTER, TDCS_MIG_EPOCH, TDCS_SESSION, TDCS_VPS_EXPORTED, VP_EXPORTED, VP_INDEX,
    VP_POSITION, VP_REGISTERS,
};
use td_words::{
    LockName, Machine, Mode, OpState, PageKind, Status, lock_address, pamt_address, word_address,
};
use vcpu_control::says_page_of;

/// How many registers a virtual processor has.
const REGISTERS: u16 = 8;

/// The kind of a bundle that has the state of a virtual processor.
const VCPU_STATE: u8 = 2;

/// EXPORT.STATE.VP TDR VP SLOT: a bundle has the registers of a virtual processor, its index and its
/// position.
#[derive(Drop)]
pub struct StateVp {
    place: Place,
    tdr: u64,
    vp: u64,
    slot: u16,
    ghost few_pages: { place.machine.pages < 65536 },
}

impl StateVp {
    ghost use Rattle.std.specs.Prelude.{◌≡◌};
    ghost use Rattle.leaf_engine.specs.Trees.{feed, answer_of};
    ghost use Rattle.bundles.specs.Made.{made_in};
    ghost use Rattle.export_states.specs.VpStateTrees.{vp_state_task, VpComes};

    /// The plan of a call at a place.
    pub fn plan(place: Place, tdr: u64, vp: u64, slot: u16) -> StateVp
        ensures { ⟦<StateVp as Plan>⟧.task result ≡ vp_state_task place tdr vp slot }
    {
        StateVp {
            place,
            tdr,
            vp,
            slot,
        }
    }

    /// The bundle that it made, where it was told these words.
    pub fn bundle<'a>(&self, told: &'a [u64]) -> Option<Bundle<'a>>
        ensures { made_in result ≡ (answer_of (feed (⟦<StateVp as Plan>⟧.task self.now).tree told.now)).bundles }
    {
        match self.exported(told) {
            Ok(exported) => Some(exported.bundle(self.slot, VCPU_STATE)),
            Err(_) => None,
        }
    }

    /// What it exports, where it was told these words.
    fn exported<'a>(&self, told: &'a [u64]) -> Result<Exported<'a>, Stop>
        ensures comes { VpComes self.now.place self.now.tdr self.now.vp self.now.slot told.now result }
        ensures inside { MatchResult result (λ x. (self.now.vp < self.now.place.machine.pages) × (x.stated.room.page < self.now.place.machine.pages) × (x.stated.tdcs < self.now.place.machine.pages)) (λ e. StopIn self.now.place.machine e) }
        ensures early { MatchResult result (λ x. Unit {0}) (λ e. StopEarly 25 (length told.now) e) }
    {
        let mut told = Told { left: told };
        let stated = to_export(&mut told, self.place, self.tdr, self.vp)?;
        let payload = payload_of(told.left, self.vp as u16, VP_REGISTERS, REGISTERS)?;
        Ok(Exported { stated, payload })
    }
}

impl Plan for StateVp {
    ghost use Rattle.std.specs.Prelude.{true};
    ghost use Rattle.leaf_engine.specs.Trees.{feed, changes_of};
    ghost use Rattle.export_states.specs.VpStateTrees.{vp_state_task};
    ghost use Rattle.export_states.specs.VpStateMeanings.{vp_state-means};

    ghost task = { λ l. vp_state_task l.place l.tdr l.vp l.slot };

    ghost changes = { λ l told a. changes_of (feed (vp_state_task l.place l.tdr l.vp l.slot).tree told) };

    ghost shown = { λ l told a. true };

    fn decide(&self, told: Told) -> Result<Verdict, Stop> {
        match self.exported(told.left) {
            Ok(_) => Ok(Verdict::done(Act::NONE)),
            Err(stop) => Err(stop),
        }
    }

    fn write(&self, _act: Act, told: &[u64], number: usize, hand: &mut Hand) -> Option<Write> {
        match self.exported(told) {
            Ok(exported) => vp_write(
                self.place.machine,
                self.vp as u16,
                exported.stated,
                number,
                hand,
            ),
            Err(_) => None,
        }
    }

    ghost means = { λ l. vp_state-means l.place l.tdr l.vp l.slot l.few_pages };
}

/// The conditions of the call, and what they tell.
fn to_export(told: &mut Told, place: Place, tdr: u64, vp: u64) -> Result<Stated, Stop>
    ensures goes { Goes place.machine.pages (λ f. vp_asked place.machine tdr vp f) told.old.left.now told.new.left.now result }
    ensures feeds { Feeds (λ f. vp_asked place.machine tdr vp f) told.old.left.now told.new.left.now result }
    ensures uses { Uses 17 told.old.left.now told.new.left.now result }
    ensures inside { MatchResult result (λ x. (vp < place.machine.pages) × (x.room.page < place.machine.pages) × (x.tdcs < place.machine.pages)) (λ e. StopIn place.machine e) }
{
    let pages = place.machine.pages;
    told.check(tdr < u64::from(pages), Status::OperandInvalid(1))?;
    told.check(vp < u64::from(pages), Status::OperandInvalid(2))?;
    told.check(vp != tdr, Status::OperandInvalid(2))?;
    let tdr = tdr as u16;
    let td = td_head(told, place, tdr, Mode::Exclusive, &[OpState::PausedExport])?;
    vp_state(told, place.machine, tdr, td.tdcs, vp as u16)
}

/// What comes behind the beginning of the row, up to the registers.
fn vp_state(told: &mut Told, machine: Machine, tdr: u16, tdcs: u16, vp: u16) -> Result<Stated, Stop>
    requires { (tdcs < machine.pages) × (vp < machine.pages) }
    ensures goes { Goes machine.pages (λ f. vp_state_tree machine.pages tdr tdcs vp f) told.old.left.now told.new.left.now result }
    ensures feeds { Feeds (λ f. vp_state_tree machine.pages tdr tdcs vp f) told.old.left.now told.new.left.now result }
    ensures uses { Uses 10 told.old.left.now told.new.left.now result }
    ensures inside { MatchResult result (λ x. (x.room.page < machine.pages) × (x.tdcs < machine.pages)) (λ e. StopIn machine e) }
{
    let session = vp_left(told, machine, tdr, tdcs, vp)?;
    let room = room_on(told, machine, tdcs, 0)?;
    vp_said(told, machine, tdcs, vp, room, session)
}

/// The virtual processor is the TD's, is held, and wasn't exported in the session, which is told.
fn vp_left(told: &mut Told, machine: Machine, tdr: u16, tdcs: u16, vp: u16) -> Result<u16, Stop>
    requires { (tdcs < machine.pages) × (vp < machine.pages) }
    ensures goes { Goes machine.pages (λ f. vp_left_tree tdr tdcs vp f) told.old.left.now told.new.left.now result }
    ensures feeds { Feeds (λ f. vp_left_tree tdr tdcs vp f) told.old.left.now told.new.left.now result }
    ensures uses { Uses 4 told.old.left.now told.new.left.now result }
    ensures inside { MatchResult result (λ s. Unit {0}) (λ e. StopIn machine e) }
{
    told.lock(LockName::Page(vp), lock_address(vp), Mode::Exclusive)?;
    let pamt = told.load(pamt_address(vp))?;
    told.check(
        says_page_of(tdr, PageKind::Tdvpr, pamt),
        Status::PageMetadataIncorrect(vp),
    )?;
    let exported = told.load(word_address(vp, VP_EXPORTED))?;
    let session = told.load(word_address(tdcs, TDCS_SESSION))? % 65536;
    told.check(exported != session, Status::AlreadyExported)?;
    Ok(session as u16)
}

/// What else the header of its bundle says, and how many states of virtual processors were exported
/// before.
fn vp_said(
    told: &mut Told,
    machine: Machine,
    tdcs: u16,
    vp: u16,
    room: Room,
    session: u16,
) -> Result<Stated, Stop>
    requires { (tdcs < machine.pages) × (vp < machine.pages) }
    ensures goes { Goes machine.pages (λ f. vp_said_tree tdcs vp room session f) told.old.left.now told.new.left.now result }
    ensures feeds { Feeds (λ f. vp_said_tree tdcs vp room session f) told.old.left.now told.new.left.now result }
    ensures uses { Uses 4 told.old.left.now told.new.left.now result }
    ensures inside { MatchResult result (λ x. (x.room ≡ room) × (x.tdcs ≡ tdcs)) (λ e. StopIn machine e) }
{
    let epoch = told.load(word_address(tdcs, TDCS_MIG_EPOCH))?;
    let index = told.load(word_address(vp, VP_INDEX))?;
    let position = told.load(word_address(vp, VP_POSITION))?;
    let count = told.load(word_address(tdcs, TDCS_VPS_EXPORTED))?;
    Ok(Stated {
        tdcs,
        count,
        room,
        session,
        epoch: (epoch % 4294967296) as u32,
        index: (index % 65536) as u16,
        info: (position % 4294967296) as u32,
    })
}

/// The write of that number: the session of the export is the act, then both counts.
fn vp_write(
    machine: Machine,
    vp: u16,
    stated: Stated,
    number: usize,
    hand: &mut Hand,
) -> Option<Write>
    requires { (vp < machine.pages) × (stated.room.page < machine.pages) × (stated.tdcs < machine.pages) }
    ensures hands { HandsAt machine (vp_changes vp stated) number hand.old hand.new result }
    ensures few { MatchOption result Unit (λ w. number < 3) }
{
    let write = match number {
        0 => Write::store(word_address(vp, VP_EXPORTED), u64::from(stated.session)),
        1 => Write::store(
            word_address(stated.tdcs, TDCS_VPS_EXPORTED),
            stated.count.wrapping_add(1),
        ),
        2 => Write::store(
            word_address(stated.room.page, STREAM_COUNTER),
            u64::from(stated.room.counter) + 1,
        ),
        _ => return None,
    };
    Some(write)
}
