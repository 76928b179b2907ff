//! MR.EXTEND.

ghost use Rattle.std.specs.Prelude.{◌≡◌, ℕ, ◌+◌, ◌<◌, ◌%◌, true, drop, length, MatchOption, MatchResult};
ghost use Rattle.td_words.specs.Address.{word_at};
ghost use Rattle.flat_core.specs.Digests.{digest_bytes};
ghost use Rattle.td_words.specs.Limits.{IsMachine};
ghost use Rattle.flat_core.specs.Tree.{word_of_gpa};
ghost use Rattle.leaf_engine.specs.Changes.{Hand};
ghost use Rattle.leaf_engine.specs.Decides.{HandsNext, IsHand};
ghost use Rattle.leaf_engine.specs.Inside.{StopIn};
ghost use Rattle.leaf_parts.specs.Parts.{Goes, Feeds, Uses};
ghost use Rattle.mem_build.specs.ExtendTrees.{with_chunk, extend_changes, mapped_tree, ComesTo};
ghost use Rattle.mem_build.specs.ExtendStages.{HasRoom, IsKnown, HasRoom-prop, IsKnown-prop};

use arrayvec::ArrayVec;
use leaf_engine::{ANSWERS, Leaf, Need, Place, Stop, Told, Write, need_at};
use leaf_parts::{hkid_slot, put_bytes, td_head};
use mrtd_measure::Measure;
use sept_parts::{find, is_state_among, tree_lock};
use td_words::places::TDR_HKID;
use td_words::{
    EntryState, LockName, Machine, Mode, OpState, Reply, Status, Value, lock_address, word_address,
};

/// How many words a chunk has.
const WORDS: usize = 32;

/// What is measured: a chunk of that page, by the hasher in the slot of that HKID.
#[derive(Clone, Copy, Debug, PartialEq, Eq)]
pub struct Chunk {
    pub page: u16,
    pub hkid: u64,
}

/// MR.EXTEND TDR GPA: the chunk at that GPA is measured. Once the conditions have shown where it
/// is, its words are told one by one.
#[derive(Drop)]
pub struct Extend {
    place: Place,
    tdr: u64,
    gpa: u64,
    told: ArrayVec<u64, ANSWERS>,
    chunk: Option<Chunk>,
    words: ArrayVec<u64, WORDS>,
    written: usize,
    waits: bool,
    ghost machine: { IsMachine place.machine },
    ghost room: { waits ≡ true → HasRoom chunk told.items words.items } by { Prim.hlevel (HasRoom-prop chunk told.items words.items) },
    ghost known: { IsKnown place gpa chunk told.items words.items } by { IsKnown-prop place gpa chunk told.items words.items },
}

impl Extend {
    ghost use Rattle.std.specs.Prelude.{◌≡◌};
    ghost use Rattle.td_words.specs.Limits.{IsMachine};
    ghost use Rattle.leaf_engine.specs.Turns.{IsFresh};
    ghost use Rattle.mem_build.specs.ExtendTrees.{extend_task};

    /// The leaf of a call at a place.
    pub fn leaf(place: Place, tdr: u64, gpa: u64) -> Extend
        requires { IsMachine place.machine }
        ensures task { ⟦<Extend as Leaf>⟧.task result ≡ extend_task place tdr gpa }
        ensures fresh { let leaf = ⟦<Extend as Leaf>⟧ in IsFresh (leaf.task result).tree (leaf.rest result) (leaf.tries result) (leaf.written result) (leaf.waits result) }
    {
        Extend {
            place,
            tdr,
            gpa,
            told: ArrayVec::new(),
            chunk: None,
            words: ArrayVec::new(),
            written: 0,
            waits: false,
        }
    }
}

impl Leaf for Extend {
    ghost use Rattle.std.specs.Prelude.{◌≡◌, ℕ, ◌+◌, ◌-◌, ◌*◌, length, if◌then◌else◌};
    ghost use Rattle.mem_build.specs.ExtendTrees.{extend_task};
    ghost use Rattle.mem_build.specs.ExtendStages.{rest_of};
    ghost use Rattle.mem_build.specs.ExtendMeanings.{extend-means};

    ghost task = { λ l. extend_task l.place l.tdr l.gpa };

    ghost rest = { λ l. rest_of l.place l.tdr l.gpa l.chunk l.told.items l.words.items };

    ghost written = { λ l. l.written };

    ghost waits = { λ l. l.waits };

    ghost bound = { λ l. 2 * (32 - length l.told.items) + 2 * (32 - length l.words.items) + (16 - l.written) - (if l.waits then 1 else 0) };

    ghost tries = { λ l. 32 - length l.told.items };

    ghost Origin = { Unit {0} };

    ghost origin = { λ l. tt };

    fn need(&mut self) -> Need {
        match self.chunk {
            Some(chunk) => {
                let number = self.words.len();
                if number == WORDS {
                    return Need::Verdict(Reply::Done(Value::Nothing));
                }
                self.waits = true;
                Need::Load(word_at(chunk.page, self.gpa, number as u16))
            }
            None => {
                let mut told = Told {
                    left: self.told.as_slice(),
                };
                match to_extend(&mut told, self.place, self.tdr, self.gpa) {
                    Ok(chunk) => {
                        self.chunk = Some(chunk);
                        self.waits = true;
                        Need::Load(word_at(chunk.page, self.gpa, 0))
                    }
                    Err(stop) => need_at(stop, &mut self.told, &mut self.waits),
                }
            }
        }
    }

    fn tell(&mut self, word: u64) {
        self.waits = false;
        match self.chunk {
            Some(_) => self.words.push(word),
            None => self.told.push(word),
        }
    }

    fn write(&mut self, hasher: &mut Option<Measure>) -> Option<Write> {
        match self.chunk {
            Some(chunk) if self.words.len() == WORDS => next_write(
                self.place.machine,
                chunk.hkid,
                self.gpa,
                self.words.as_slice(),
                &mut self.written,
                hasher,
            ),
            _ => None,
        }
    }

    ghost means = { λ l. extend-means l.place l.tdr l.gpa l.machine };
}

/// The conditions of the call, and what it measures.
fn to_extend(told: &mut Told, place: Place, tdr: u64, gpa: u64) -> Result<Chunk, Stop>
    ensures comes { ComesTo place tdr gpa told.old.left.now told.new.left.now result }
    ensures uses { Uses 15 told.old.left.now told.new.left.now result }
    ensures inside { MatchResult result (λ c. (c.page < place.machine.pages) × (gpa % 256 ≡ 0)) (λ e. StopIn place.machine e) }
{
    told.check(
        tdr < u64::from(place.machine.pages),
        Status::OperandInvalid(1),
    )?;
    told.check(gpa < 1 << 47, Status::OperandInvalid(2))?;
    told.check(gpa % 256 == 0, Status::OperandInvalid(2))?;
    let tdr = tdr as u16;
    let td = td_head(told, place, tdr, Mode::Exclusive, &[OpState::Initialized])?;
    let page = mapped(told, place, tdr, td.tdcs, gpa)?;
    let hkid = told.load(word_address(tdr, TDR_HKID))?;
    Ok(Chunk { page, hkid })
}

/// The page that is mapped at a GPA, which is held.
fn mapped(told: &mut Told, place: Place, tdr: u16, tdcs: u16, gpa: u64) -> Result<u16, Stop>
    requires { (tdr < place.machine.pages) × (tdcs < place.machine.pages) }
    ensures goes { Goes place.machine.pages (λ f. mapped_tree place.machine.pages tdr tdcs gpa f) told.old.left.now told.new.left.now result }
    ensures feeds { Feeds (λ f. mapped_tree place.machine.pages tdr tdcs gpa f) told.old.left.now told.new.left.now result }
    ensures uses { Uses 7 told.old.left.now told.new.left.now result }
    ensures inside { MatchResult result (λ p. p < place.machine.pages) (λ e. StopIn place.machine e) }
{
    tree_lock(told, place, tdcs, Mode::Shared)?;
    let found = find(told, place, tdr, gpa, 0)?;
    let entry = found.entry;
    told.check(
        is_state_among(entry.state, &[EntryState::Mapped]),
        Status::EptEntryStateIncorrect(entry.state),
    )?;
    told.lock(
        LockName::Page(entry.page),
        lock_address(entry.page),
        Mode::Shared,
    )?;
    Ok(entry.page)
}

/// The address of a chunk's word of that number.
fn word_at(page: u16, gpa: u64, number: u16) -> u32
    requires { (page < 1024) × (gpa % 256 ≡ 0) × (number < 32) }
    ensures { result ≡ word_at page (word_of_gpa gpa + number) }
{
    word_address(page, (gpa % 4096 / 8) as u16 + number)
}

/// The next change, after so many: the hasher is taken out of its slot, then it measures the chunk
/// and is put back.
fn next_write(
    machine: Machine,
    hkid: u64,
    gpa: u64,
    words: &[u64],
    written: &mut usize,
    hasher: &mut Option<Measure>,
) -> Option<Write>
    requires { length words.now ≡ 32 }
    ensures next { let cs = extend_changes machine gpa hkid words.now in HandsNext machine (drop written.old cs) (drop written.new cs) hasher.old hasher.new result }
    ensures count { MatchOption result (written.new ≡ written.old) (λ w. (written.new ≡ written.old + 1) × (written.old < 16)) }
{
    let slot = hkid_slot(machine, hkid)?;
    match *written {
        0 => *hasher = None,
        1 => measure(hasher, gpa, words),
        _ => return None,
    }
    *written += 1;
    Some(Write::Swap(slot))
}

/// The hasher in hand measures the chunk at a GPA that has these words.
fn measure(hasher: &mut Option<Measure>, gpa: u64, words: &[u64])
    requires { length words.now ≡ 32 }
    ensures { (hand : Hand) → IsHand hasher.old hand → IsHand hasher.new (with_chunk gpa words.now hand) }
{
    if let Some(measure) = hasher {
        measure.extend_chunk(gpa, &bytes_of(words));
    }
}

/// The bytes of a chunk's words.
fn bytes_of(words: &[u64]) -> [u8; 256]
    requires { length words.now ≡ 32 }
    ensures { result ≡ digest_bytes words.now }
{
    let mut bytes = [0; 256];
    put_bytes(words, &mut bytes);
    bytes
}
