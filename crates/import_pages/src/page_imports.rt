//! IMPORT.MEM.

ghost use Rattle.td_words.specs.Limits.{IsMachine};
ghost use Rattle.std.specs.Prelude.{◌≡◌, ℕ, ◌+◌, ◌-◌, ◌*◌, ◌<◌, ◌≤◌, true, length, if◌then◌else◌};
ghost use Rattle.import_pages.specs.PageImportStages.{HasRoom, IsKnown, HasRoom-prop, IsKnown-prop};

use crate::page_conditions::to_import;
use arrayvec::ArrayVec;
use import_parts::header_of;
use incoming::Incoming;
use leaf_engine::{ANSWERS, Leaf, Need, Place, Stop, Told, Write, need_at};
use mrtd_measure::Measure;
use sept_parts::{Mapping, map_write};
use stream_parts::Room;
use td_words::places::STREAM_COUNTER;
use td_words::{EntryState, Machine, PageKind, Reply, Value, word_address};

/// How many words a page has.
const WORDS: usize = 512;

/// What the conditions have shown of a page that comes in: the secure EPT page in which its entry
/// stands; itself; and where it is taken, how many pages the TD has so far.
#[derive(Clone, Copy, Debug, PartialEq, Eq)]
pub struct Filling {
    pub at: u16,
    pub page: u16,
    pub children: Option<u64>,
}

/// What they have shown of all: that, and the stream that counts the bundle.
#[derive(Clone, Copy, Debug, PartialEq, Eq)]
pub struct Importing {
    pub filling: Filling,
    pub room: Room,
}

/// IMPORT.MEM TDR SLOT PAGE: the words of a private page come in, with the bundle of a slot. Once the
/// conditions have passed, what they have shown is kept, and each write is made of the payload's word of
/// its number.
#[derive(Drop)]
pub struct PageImport<'a> {
    place: Place,
    tdr: u64,
    slot: u64,
    page: u64,
    input: Option<Incoming<'a>>,
    told: ArrayVec<u64, ANSWERS>,
    importing: Option<Importing>,
    written: usize,
    waits: bool,
    ghost machine: { IsMachine place.machine },
    ghost room: { waits ≡ true → HasRoom importing told.items } by { Prim.hlevel (HasRoom-prop importing told.items) },
    ghost known: { IsKnown place.machine tdr importing told.items } by { IsKnown-prop place.machine tdr importing told.items },
}

impl<'a> PageImport<'a> {
    ghost use Rattle.std.specs.Prelude.{◌≡◌, None};
    ghost use Rattle.td_words.specs.Limits.{IsMachine};
    ghost use Rattle.flat_core.specs.Inputs.{input_in};
    ghost use Rattle.leaf_engine.specs.Turns.{IsFresh};
    ghost use Rattle.import_pages.specs.PageImportTrees.{page_import_task};
    ghost use Rattle.import_pages.specs.PageImportStages.{EndsAs, rest_of};

    /// The leaf of a call at a place, with the bundle of its slot.
    pub fn leaf(
        place: Place,
        tdr: u64,
        slot: u64,
        page: u64,
        input: Option<Incoming<'a>>,
    ) -> PageImport<'a>
        requires { IsMachine place.machine }
        ensures task { ⟦<PageImport<'a> as Leaf>⟧.task result ≡ page_import_task place input.entry tdr slot page None }
        ensures fresh { let leaf = ⟦<PageImport<'a> as Leaf>⟧ in IsFresh (leaf.task result).tree (leaf.rest result) (leaf.tries result) (leaf.written result) (leaf.waits result) }
        ensures input { (result.slot ≡ slot) × (result.input ≡ input.entry) }
    {
        PageImport {
            place,
            tdr,
            slot,
            page,
            input,
            told: ArrayVec::new(),
            importing: None,
            written: 0,
            waits: false,
        }
    }

    /// The slot of its bundle.
    pub fn slot(&self) -> u64
        ensures { result ≡ self.now.slot }
    {
        self.slot
    }

    /// The same leaf, as far as it is, with this bundle in place of its own.
    pub fn with_input<'b>(self, input: Option<Incoming<'b>>) -> PageImport<'b>
        ensures call { (result.place ≡ self.entry.place) × (result.tdr ≡ self.entry.tdr) × (result.page ≡ self.entry.page) }
        ensures input { (result.slot ≡ self.entry.slot) × (result.input ≡ input.entry) }
        ensures progress { (result.told ≡ self.entry.told) × (result.importing ≡ self.entry.importing) × (result.written ≡ self.entry.written) × (result.waits ≡ self.entry.waits) }
    {
        let PageImport {
            place,
            tdr,
            slot,
            page,
            input: _,
            told,
            importing,
            written,
            waits,
        } = self;
        PageImport {
            place,
            tdr,
            slot,
            page,
            input,
            told,
            importing,
            written,
            waits,
        }
    }

    /// What is imported, once the conditions have passed.
    fn ended(&self) -> Option<Importing>
        ensures { let l = self.now in EndsAs l.place.machine (input_in l.input) l.tdr l.page (rest_of l.place.machine (input_in l.input) l.tdr l.slot l.page l.importing l.told.items) result }
    {
        match self.importing {
            Some(importing) => Some(importing),
            None => {
                let mut told = Told {
                    left: self.told.as_slice(),
                };
                match to_import(
                    &mut told,
                    self.place,
                    self.tdr,
                    self.slot,
                    self.page,
                    &self.input,
                ) {
                    Ok(importing) => Some(importing),
                    Err(_) => None,
                }
            }
        }
    }
}

impl<'a> Leaf for PageImport<'a> {
    ghost use Rattle.std.specs.Prelude.{◌≡◌, ℕ, ◌+◌, ◌-◌, ◌*◌, length, if◌then◌else◌, Option, None};
    ghost use Rattle.flat_core.specs.Opening.{Incoming as Arrived};
    ghost use Rattle.flat_core.specs.Inputs.{input_in};
    ghost use Rattle.import_pages.specs.PageImportTrees.{page_import_task};
    ghost use Rattle.import_pages.specs.PageImportStages.{rest_of};
    ghost use Rattle.import_pages.specs.PageImportMeanings.{page_import-means};

    ghost task = { λ l. page_import_task l.place l.input l.tdr l.slot l.page None };

    ghost rest = { λ l. rest_of l.place.machine (input_in l.input) l.tdr l.slot l.page l.importing l.told.items };

    ghost written = { λ l. l.written };

    ghost waits = { λ l. l.waits };

    ghost bound = { λ l. 2 * (21 - length l.told.items) + (516 - l.written) - (if l.waits then 1 else 0) };

    ghost tries = { λ l. 21 - length l.told.items };

    ghost Origin = { ℕ × Option Arrived };

    ghost origin = { λ l. (l.slot, l.input) };

    fn need(&mut self) -> Need {
        match self.importing {
            Some(_) => Need::Verdict(Reply::Done(Value::Nothing)),
            None => {
                let mut told = Told {
                    left: self.told.as_slice(),
                };
                match to_import(
                    &mut told,
                    self.place,
                    self.tdr,
                    self.slot,
                    self.page,
                    &self.input,
                ) {
                    Ok(importing) => {
                        self.importing = Some(importing);
                        Need::Verdict(Reply::Done(Value::Nothing))
                    }
                    Err(stop) => need_at(stop, &mut self.told, &mut self.waits),
                }
            }
        }
    }

    fn tell(&mut self, word: u64) {
        self.waits = false;
        self.told.push(word);
    }

    fn write(&mut self, _hasher: &mut Option<Measure>) -> Option<Write> {
        let importing = self.ended()?;
        let gpa = header_of(&self.input).gpa;
        let write = importing.write(
            self.place.machine,
            self.tdr as u16,
            gpa,
            &self.input,
            self.written,
        )?;
        self.written += 1;
        Some(write)
    }

    ghost means = { λ l. page_import-means l.place l.input l.tdr l.slot l.page None l.machine };
}

impl Importing {
    ghost use Rattle.std.specs.Prelude.{◌≡◌, ℕ, ◌+◌, ◌<◌, Option, MatchOption};
    ghost use Rattle.mrtd_measure.specs.declared.measures.Measure.{Measure};
    ghost use Rattle.flat_core.specs.Inputs.{input_in};
    ghost use Rattle.leaf_engine.specs.Decides.{HandsAt};
    ghost use Rattle.import_pages.specs.PageImportTrees.{counter_changes};
    ghost use Rattle.import_pages.specs.PageImportStages.{IsShown, one_behind, one_changes};

    /// The write of that number: first the words of the page, as the payload has them, and what comes
    /// behind them.
    fn write(
        self,
        machine: Machine,
        tdr: u16,
        gpa: u64,
        input: &Option<Incoming<'_>>,
        number: usize,
    ) -> Option<Write>
        requires { IsShown machine tdr self }
        ensures hands { (h : Option Measure) → HandsAt machine (one_changes machine.pages tdr gpa (input_in input.now).words self) number h h result }
        ensures few { MatchOption result Unit (λ w. number < 516) }
    {
        if number < WORDS {
            let word = word_of(input, number);
            Some(Write::store(word_address(self.filling.page, number as u16), word))
        } else {
            self.write_behind(machine, tdr, gpa, number - WORDS)
        }
    }

    /// The write of that number behind the words: where the page is taken, what maps it; and the counter
    /// of the stream.
    fn write_behind(self, machine: Machine, tdr: u16, gpa: u64, number: usize) -> Option<Write>
        requires { IsShown machine tdr self }
        ensures hands { (h : Option Measure) → HandsAt machine (one_behind machine.pages tdr gpa self) number h h result }
        ensures few { MatchOption result Unit (λ w. number < 4) }
    {
        match self.filling.children {
            Some(children) => {
                if number < 3 {
                    let mapping = Mapping {
                        tdr,
                        gpa,
                        level: 0,
                        page: self.filling.page,
                        kind: PageKind::Reg,
                        state: EntryState::Mapped,
                    };
                    map_write(machine, mapping, self.filling.at, children, number)
                } else {
                    self.count(machine, number - 3)
                }
            }
            None => self.count(machine, number),
        }
    }

    /// The write of that number where the stream counts the bundle.
    fn count(self, machine: Machine, number: usize) -> Option<Write>
        requires { (self.room.page < machine.pages) × (self.room.counter < 4294967295) }
        ensures hands { (h : Option Measure) → HandsAt machine (counter_changes self.room) number h h result }
        ensures few { MatchOption result Unit (λ w. number < 1) }
    {
        if number == 0 {
            Some(Write::store(
                word_address(self.room.page, STREAM_COUNTER),
                u64::from(self.room.counter) + 1,
            ))
        } else {
            None
        }
    }
}

ghost use Rattle.flat_core.specs.Inputs.{input_in};

/// A word of a bundle's payload, and 0 behind its last one.
fn word_of(input: &Option<Incoming<'_>>, number: usize) -> u64
    ensures { result ≡ (input_in input.now).words number }
{
    match input {
        Some(bundle) => match bundle.payload.get(number) {
            Some(word) => *word,
            None => 0,
        },
        None => 0,
    }
}
