//! IMPORT.STATE.VP.

ghost use Rattle.std.specs.Prelude.{◌≡◌, ℕ, ◌-◌, ◌^◌, ◌<◌, length, MatchResult};
ghost use Rattle.flat_core.specs.Opening.{clear_header};
ghost use Rattle.flat_core.specs.Inputs.{input_in};
ghost use Rattle.leaf_engine.specs.Inside.{StopIn, StopEarly};
ghost use Rattle.leaf_parts.specs.Parts.{Goes, Feeds, Uses};
ghost use Rattle.import_states.specs.VpImportTrees.{vp_there_tree, index_same_tree, vp_due_tree, vp_import_tree, vp_import_asked};

use import_parts::{Run, counter_due, epoch_same, header_of, input_of, session_same, tag_holds};
use incoming::Incoming;
use leaf_engine::{Act, Hand, Place, Plan, Stop, Told, Verdict, Write};
use leaf_parts::td_head;
use stream_parts::Room;
use td_words::places::{STREAM_COUNTER, VP_INDEX, VP_POSITION, VP_REGISTERS, VP_STATE};
use td_words::{
    Header, HeaderField, LockName, Machine, Mode, OpState, PageKind, Status, VcpuState,
    lock_address, pamt_address, word_address,
};
use vcpu_control::{says_page_of, vcpu_told};

/// The type of a bundle that has the state of a virtual processor.
const VCPU_STATE: [u8; 1] = [2];

/// How many registers a virtual processor has.
const REGISTERS: u16 = 8;

/// The operation state in which the states of virtual processors come in.
const STATES: [OpState; 1] = [OpState::StateImport];

/// IMPORT.STATE.VP TDR VP SLOT: a virtual processor gets its registers and its position, and becomes
/// READY.
#[derive(Drop)]
pub struct ImportVp<'a> {
    place: Place,
    tdr: u64,
    vp: u64,
    slot: u64,
    input: Option<Incoming<'a>>,
    ghost few_pages: { place.machine.pages < 65536 },
}

impl<'a> ImportVp<'a> {
    ghost use Rattle.std.specs.Prelude.{◌≡◌, Option};
    ghost use Rattle.flat_core.specs.Opening.{Incoming as Arrived};
    ghost use Rattle.import_states.specs.VpImportTrees.{import_vp_task};

    /// The plan of a call at a place, with the bundle in its slot.
    pub fn plan(
        place: Place,
        tdr: u64,
        vp: u64,
        slot: u64,
        input: Option<Incoming<'a>>,
    ) -> ImportVp<'a>
        ensures task { ⟦<ImportVp<'a> as Plan>⟧.task result ≡ import_vp_task place input.entry tdr vp slot }
        ensures input { (result.slot ≡ slot) × (result.input ≡ input.entry) }
    {
        ImportVp {
            place,
            tdr,
            vp,
            slot,
            input,
        }
    }

    /// The slot of its bundle.
    pub fn slot(&self) -> u64
        ensures { result ≡ self.now.slot }
    {
        self.slot
    }

    /// The same plan, with this bundle in place of its own.
    pub fn with_input<'b>(self, input: Option<Incoming<'b>>) -> ImportVp<'b>
        ensures task { (b : Option Arrived) → import_vp_task result.place b result.tdr result.vp result.slot ≡ import_vp_task self.entry.place b self.entry.tdr self.entry.vp self.entry.slot }
        ensures input { (result.slot ≡ self.entry.slot) × (result.input ≡ input.entry) }
    {
        let ImportVp {
            place,
            tdr,
            vp,
            slot,
            input: _,
        } = self;
        ImportVp {
            place,
            tdr,
            vp,
            slot,
            input,
        }
    }
}

impl<'a> Plan for ImportVp<'a> {
    ghost use Rattle.std.specs.Prelude.{nat_lt, ◌&&◌};
    ghost use Rattle.flat_core.specs.Inputs.{input_in};
    ghost use Rattle.import_states.specs.VpImportTrees.{vp_import_changes, import_vp_task};
    ghost use Rattle.import_states.specs.VpImportMeanings.{import_vp-means};

    ghost task = { λ l. import_vp_task l.place l.input l.tdr l.vp l.slot };

    ghost changes = { λ l told a. vp_import_changes l.vp (input_in l.input) a.page };

    ghost shown = { λ l told a. nat_lt l.vp l.place.machine.pages && nat_lt a.page l.place.machine.pages };

    fn decide(&self, told: Told) -> Result<Verdict, Stop> {
        let mut told = told;
        let room = vp_import(
            &mut told,
            self.place,
            self.tdr,
            self.vp,
            self.slot,
            &self.input,
        )?;
        Ok(Verdict::done(Act {
            page: room.page,
            ..Act::NONE
        }))
    }

    // The state is the act.
    fn write(&self, act: Act, _told: &[u64], number: usize, _hand: &mut Hand) -> Option<Write> {
        let vp = self.vp as u16;
        let header = header_of(&self.input);
        let write = match number {
            0 => Write::store(word_address(vp, VP_STATE), VcpuState::Ready as u64),
            1 => Write::store(word_address(vp, VP_POSITION), u64::from(header.info)),
            2 => Write::store(
                word_address(act.page, STREAM_COUNTER),
                u64::from(header.counter) + 1,
            ),
            _ => {
                let registers = Run {
                    page: vp,
                    at: VP_REGISTERS,
                    from: 0,
                    count: REGISTERS,
                };
                return registers.write(self.place.machine, &self.input, number - 3);
            }
        };
        Some(write)
    }

    ghost means = { λ l. import_vp-means l.place l.input l.tdr l.vp l.slot l.few_pages };
}

/// The conditions of the call, which tell the stream that brought the bundle.
fn vp_import(
    told: &mut Told,
    place: Place,
    tdr: u64,
    vp: u64,
    slot: u64,
    input: &Option<Incoming<'_>>,
) -> Result<Room, Stop>
    ensures goes { Goes place.machine.pages (λ f. vp_import_asked place.machine (input_in input.now) tdr vp slot f) told.old.left.now told.new.left.now result }
    ensures early { MatchResult result (λ r. Unit {0}) (λ e. StopEarly 15 (length told.old.left.now) e) }
    ensures inside { MatchResult result (λ r. (vp < place.machine.pages) × (r.page < place.machine.pages)) (λ e. StopIn place.machine e) }
{
    let pages = place.machine.pages;
    told.check(tdr < u64::from(pages), Status::OperandInvalid(1))?;
    told.check(vp < u64::from(pages), Status::OperandInvalid(2))?;
    told.check(vp != tdr, Status::OperandInvalid(2))?;
    input_of(told, slot, input, &VCPU_STATE)?;
    let tdr = tdr as u16;
    let td = td_head(told, place, tdr, Mode::Exclusive, &STATES)?;
    vp_of_td(told, place.machine, tdr, td.tdcs, vp as u16, input)
}

/// What comes behind the beginning of the row.
fn vp_of_td(
    told: &mut Told,
    machine: Machine,
    tdr: u16,
    tdcs: u16,
    vp: u16,
    input: &Option<Incoming<'_>>,
) -> Result<Room, Stop>
    requires { (tdcs < machine.pages) × (vp < machine.pages) }
    ensures goes { Goes machine.pages (λ f. vp_import_tree machine.pages tdr tdcs vp (input_in input.now) f) told.old.left.now told.new.left.now result }
    ensures uses { Uses 8 told.old.left.now told.new.left.now result }
    ensures inside { MatchResult result (λ r. r.page < machine.pages) (λ e. StopIn machine e) }
{
    vp_there(told, machine, tdr, vp)?;
    let header = header_of(input);
    vp_due(told, machine, tdcs, vp, &header, input)
}

/// The virtual processor is the TD's, is held alone, and is CREATED.
fn vp_there(told: &mut Told, machine: Machine, tdr: u16, vp: u16) -> Result<(), Stop>
    requires { vp < machine.pages }
    ensures goes { Goes machine.pages (λ f. vp_there_tree tdr vp (f tt)) told.old.left.now told.new.left.now result }
    ensures uses { Uses 3 told.old.left.now told.new.left.now result }
    ensures inside { MatchResult result (λ u. Unit {0}) (λ e. StopIn machine e) }
{
    told.lock(LockName::Page(vp), lock_address(vp), Mode::Exclusive)?;
    let pamt = told.load(pamt_address(vp))?;
    told.check(
        says_page_of(tdr, PageKind::Tdvpr, pamt),
        Status::PageMetadataIncorrect(vp),
    )?;
    let state = vcpu_told(told.load(word_address(vp, VP_STATE))?);
    told.check(
        state == VcpuState::Created,
        Status::VcpuStateIncorrect(state),
    )
}

/// The bundle is the one that is due, and that of its index.
fn vp_due(
    told: &mut Told,
    machine: Machine,
    tdcs: u16,
    vp: u16,
    header: &Header,
    input: &Option<Incoming<'_>>,
) -> Result<Room, Stop>
    requires { (tdcs < machine.pages) × (vp < machine.pages) }
    ensures goes { Goes machine.pages (λ f. vp_due_tree machine.pages tdcs vp (clear_header header.now) (input_in input.now) f) told.old.left.now told.new.left.now result }
    ensures uses { Uses 5 told.old.left.now told.new.left.now result }
    ensures inside { MatchResult result (λ r. r.page < machine.pages) (λ e. StopIn machine e) }
{
    session_same(told, machine, tdcs, header)?;
    epoch_same(told, machine, tdcs, header)?;
    index_same(told, machine, vp, header)?;
    let room = counter_due(told, machine, tdcs, 0, header)?;
    tag_holds(told, input)?;
    Ok(room)
}

/// The bundle is that of the virtual processor's index.
fn index_same(told: &mut Told, machine: Machine, vp: u16, header: &Header) -> Result<(), Stop>
    requires { vp < machine.pages }
    ensures goes { Goes machine.pages (λ f. index_same_tree vp (clear_header header.now) (f tt)) told.old.left.now told.new.left.now result }
    ensures uses { Uses 1 told.old.left.now told.new.left.now result }
    ensures inside { MatchResult result (λ u. Unit {0}) (λ e. StopIn machine e) }
{
    let index = told.load(word_address(vp, VP_INDEX))?;
    told.check(
        u64::from(header.index) == index,
        Status::BundleHeader(HeaderField::Index),
    )
}
