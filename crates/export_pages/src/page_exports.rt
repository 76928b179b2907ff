//! EXPORT.MEM.

ghost use Rattle.std.specs.Prelude.{◌≡◌, ℕ, ◌+◌, ◌-◌, ◌*◌, ◌<◌, ◌≤◌, true, length, if◌then◌else◌, MatchOption};
ghost use Rattle.td_words.specs.Limits.{IsMachine};
ghost use Rattle.export_pages.specs.PageExportStages.{HasRoom, IsKnown, HasRoom-prop, IsKnown-prop};

use crate::page_conditions::{counted_at, to_export};
use crate::page_words::{PageWords, WORDS};
use arrayvec::ArrayVec;
use bundles::Bundle;
use export_core::entry_of;
use leaf_engine::{ANSWERS, Leaf, Need, Place, Stop, Told, Write, need_at};
use mrtd_measure::Measure;
use sept_walk::index;
use stream_parts::Room;
use td_words::places::STREAM_COUNTER;
use td_words::{EntryState, Header, Machine, Reply, Value, word_address};

/// The kind of a bundle that has the words of a page.
const PAGE: u8 = 3;

/// What the words told say of a page that is exported: the secure EPT page in which its entry stands;
/// itself, and the state of its entry; the stream that counts the bundle; the session and migration
/// epoch of its header; and how many entries the stream counted before, as cleaned or as first
/// exported.
#[derive(Clone, Copy, Debug, PartialEq, Eq)]
pub struct Exporting {
    pub at: u16,
    pub page: u16,
    pub state: EntryState,
    pub room: Room,
    pub session: u16,
    pub epoch: u32,
    pub count: u64,
}

/// EXPORT.MEM TDR GPA STREAM SLOT: a bundle has the words of a private page. Once the conditions have
/// shown which one it is, its words are told one by one.
#[derive(Drop)]
pub struct PageExport {
    place: Place,
    tdr: u64,
    gpa: u64,
    stream: u64,
    slot: u16,
    told: ArrayVec<u64, ANSWERS>,
    exporting: Option<Exporting>,
    words: PageWords,
    written: usize,
    waits: bool,
    ghost machine: { IsMachine place.machine },
    ghost room: { waits ≡ true → HasRoom exporting told.items words } by { Prim.hlevel (HasRoom-prop exporting told.items words) },
    ghost known: { IsKnown place.machine stream exporting told.items words } by { IsKnown-prop place.machine stream exporting told.items words },
}

impl PageExport {
    ghost use Rattle.std.specs.Prelude.{◌≡◌};
    ghost use Rattle.td_words.specs.Limits.{IsMachine};
    ghost use Rattle.bundles.specs.Made.{made_in};
    ghost use Rattle.leaf_engine.specs.Trees.{answer_of};
    ghost use Rattle.leaf_engine.specs.Turns.{IsFresh};
    ghost use Rattle.export_pages.specs.PageExportTrees.{page_export_task};
    ghost use Rattle.export_pages.specs.PageExportStages.{EndsAs, rest_of};

    /// The leaf of a call at a place, with room for the page's words.
    pub fn leaf(
        place: Place,
        tdr: u64,
        gpa: u64,
        stream: u64,
        slot: u16,
        words: PageWords,
    ) -> PageExport
        requires { IsMachine place.machine }
        ensures task { ⟦<PageExport as Leaf>⟧.task result ≡ page_export_task place tdr gpa stream slot }
        ensures fresh { let leaf = ⟦<PageExport as Leaf>⟧ in IsFresh (leaf.task result).tree (leaf.rest result) (leaf.tries result) (leaf.written result) (leaf.waits result) }
    {
        let mut words = words;
        words.clear();
        PageExport {
            place,
            tdr,
            gpa,
            stream,
            slot,
            told: ArrayVec::new(),
            exporting: None,
            words,
            written: 0,
            waits: false,
        }
    }

    /// The bundle that it made of the words told.
    pub fn bundle(&self) -> Option<Bundle<'_>>
        ensures { made_in result ≡ (answer_of (⟦<PageExport as Leaf>⟧.rest self.now)).bundles }
    {
        match self.ended() {
            Some(exporting) => {
                let words = self.words.as_slice();
                Some(exporting.bundle(self.gpa, self.stream as u16, self.slot, words))
            }
            None => None,
        }
    }

    /// The room for a page's words, once it isn't needed any more.
    pub fn into_words(self) -> PageWords {
        self.words
    }

    /// What is exported, once all is told.
    fn ended(&self) -> Option<Exporting>
        ensures { let l = self.now in EndsAs l.place l.gpa l.stream l.slot l.words (rest_of l.place l.tdr l.gpa l.stream l.slot l.exporting l.told.items l.words) result }
    {
        match self.exporting {
            Some(exporting) => {
                if self.words.len() < WORDS {
                    None
                } else {
                    Some(exporting)
                }
            }
            None => {
                let mut told = Told {
                    left: self.told.as_slice(),
                };
                let _ = to_export(&mut told, self.place, self.tdr, self.gpa, self.stream);
                None
            }
        }
    }
}

impl Leaf for PageExport {
    ghost use Rattle.std.specs.Prelude.{◌≡◌, ℕ, ◌+◌, ◌-◌, ◌*◌, length, if◌then◌else◌};
    ghost use Rattle.export_pages.specs.PageExportTrees.{page_export_task};
    ghost use Rattle.export_pages.specs.PageExportStages.{rest_of};
    ghost use Rattle.export_pages.specs.PageExportMeanings.{page_export-means};

    ghost task = { λ l. page_export_task l.place l.tdr l.gpa l.stream l.slot };

    ghost rest = { λ l. rest_of l.place l.tdr l.gpa l.stream l.slot l.exporting l.told.items l.words };

    ghost written = { λ l. l.written };

    ghost waits = { λ l. l.waits };

    ghost bound = { λ l. 2 * (26 - length l.told.items) + 2 * (512 - length l.words) + (3 - l.written) - (if l.waits then 1 else 0) };

    ghost tries = { λ l. 26 - length l.told.items };

    ghost Origin = { Unit {0} };

    ghost origin = { λ l. tt };

    fn need(&mut self) -> Need {
        match self.exporting {
            Some(exporting) => {
                let told = self.words.len();
                if told < WORDS {
                    self.waits = true;
                    Need::Load(word_address(exporting.page, told as u16))
                } else {
                    Need::Verdict(Reply::Done(Value::Nothing))
                }
            }
            None => {
                let mut told = Told {
                    left: self.told.as_slice(),
                };
                match to_export(&mut told, self.place, self.tdr, self.gpa, self.stream) {
                    Ok(exporting) => {
                        self.words.append(told.left);
                        self.exporting = Some(exporting);
                        self.waits = true;
                        let next = self.words.len() as u16;
                        Need::Load(word_address(exporting.page, next))
                    }
                    Err(stop) => need_at(stop, &mut self.told, &mut self.waits),
                }
            }
        }
    }

    fn tell(&mut self, word: u64) {
        self.waits = false;
        match self.exporting {
            Some(_) => self.words.push(word),
            None => self.told.push(word),
        }
    }

    fn write(&mut self, _hasher: &mut Option<Measure>) -> Option<Write> {
        let exporting = self.ended()?;
        let at = index(0, self.gpa);
        let write = exporting.write(self.place.machine, at, self.written)?;
        self.written += 1;
        Some(write)
    }

    ghost means = { λ l. page_export-means l.place l.tdr l.gpa l.stream l.slot l.machine };
}

impl Exporting {
    ghost use Rattle.std.specs.Prelude.{◌≡◌, ℕ, ◌+◌, ◌<◌, Option, MatchOption};
    ghost use Rattle.mrtd_measure.specs.declared.measures.Measure.{Measure};
    ghost use Rattle.leaf_engine.specs.Decides.{HandsAt};
    ghost use Rattle.export_pages.specs.PageExportTrees.{page_bundle, page_export_changes};

    /// Its bundle, of these words.
    fn bundle<'a>(self, gpa: u64, stream: u16, slot: u16, words: &'a [u64]) -> Bundle<'a>
        ensures { result ≡ page_bundle gpa stream slot self words.now }
    {
        let header = Header {
            size: 64,
            version: 1,
            stream,
            kind: PAGE,
            reserved: 0,
            counter: self.room.counter,
            epoch: self.epoch,
            iv: u64::from(self.room.counter),
            session: self.session,
            index: 0,
            info: 0,
            gpa,
            total: 0,
            tag: [0; 16],
        };
        Bundle {
            slot,
            header,
            payload: words,
        }
    }

    /// The write of that number. The act is the store of the entry; then the stream counts the bundle,
    /// and the entry.
    fn write(self, machine: Machine, index: u16, number: usize) -> Option<Write>
        requires { (self.at < machine.pages) × (self.page < machine.pages) × (self.room.page < machine.pages) × (index < 512) }
        ensures hands { (h : Option Measure) → HandsAt machine (page_export_changes index self) number h h result }
        ensures few { MatchOption result Unit (λ w. number < 3) }
    {
        let write = match number {
            0 => {
                let word = entry_of(EntryState::ExportedBlockedW, self.page, self.epoch);
                Write::store(word_address(self.at, index), word)
            }
            1 => Write::store(
                word_address(self.room.page, STREAM_COUNTER),
                u64::from(self.room.counter) + 1,
            ),
            2 => Write::store(
                word_address(self.room.page, counted_at(self.state)),
                self.count.wrapping_add(1),
            ),
            _ => return None,
        };
        Some(write)
    }
}
