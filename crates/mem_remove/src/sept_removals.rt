//! MEM.SEPT.REMOVE.

ghost use Rattle.std.specs.Prelude.{◌≡◌, ℕ, ◌-◌, ◌<◌, ◌≤◌, not, true, false, length, if◌then◌else◌, Some, None, MatchOption, MatchResult};
ghost use Rattle.td_words.specs.Limits.{IsMachine};
ghost use Rattle.mrtd_measure.specs.declared.measures.Measure.{Measure};
ghost use Rattle.leaf_engine.specs.Decides.{HandsAt};
ghost use Rattle.leaf_engine.specs.Inside.{StopIn};
ghost use Rattle.leaf_parts.specs.Parts.{Uses};
ghost use Rattle.mem_remove.specs.RemoveTrees.{is_used, remove_changes};
ghost use Rattle.mem_remove.specs.RemoveStages.{ComesTo, HasRoom, IsKnown, HasRoom-prop, IsKnown-prop};

use crate::named_entries::find_named;
use crate::removals::{give_back, remove};
use arrayvec::ArrayVec;
use leaf_engine::{ANSWERS, Act, Leaf, Need, Place, Stop, Told, Write, need_at};
use mrtd_measure::Measure;
use sept_parts::{GPAS, entry_told, is_aligned, is_upper};
use sept_walk::index;
use td_words::{EntryState, Reply, Status, word_address};

/// How many entries a secure EPT page has.
const ENTRIES: u16 = 512;

/// A secure EPT page that was found, which is held: the TDCS page of its TD, the secure EPT page in
/// which the entry stands that names it, and itself.
#[derive(Clone, Copy, Debug, PartialEq, Eq)]
pub struct Table {
    pub tdcs: u16,
    pub at: u16,
    pub page: u16,
}

/// MEM.SEPT.REMOVE TDR GPA LEVEL: a secure EPT page is the host's again, of which all entries are
/// FREE. Once the conditions have shown which one it is, its entries are told one by one.
#[derive(Drop)]
pub struct SeptRemove {
    place: Place,
    tdr: u64,
    gpa: u64,
    level: u64,
    told: ArrayVec<u64, ANSWERS>,
    table: Option<Table>,
    seen: u16,
    used: Option<u16>,
    later: ArrayVec<u64, ANSWERS>,
    written: usize,
    waits: bool,
    ghost machine: { IsMachine place.machine },
    ghost room: { waits ≡ true → HasRoom level table used told.items later.items } by { Prim.hlevel (HasRoom-prop level table used told.items later.items) },
    ghost known: { IsKnown place.machine tdr level table seen used told.items later.items } by { IsKnown-prop place.machine tdr level table seen used told.items later.items },
}

impl SeptRemove {
    ghost use Rattle.std.specs.Prelude.{◌≡◌};
    ghost use Rattle.td_words.specs.Limits.{IsMachine};
    ghost use Rattle.leaf_engine.specs.Turns.{IsFresh};
    ghost use Rattle.mem_remove.specs.RemoveTrees.{sept_remove_task};

    /// The leaf of a call at a place.
    pub fn leaf(place: Place, tdr: u64, gpa: u64, level: u64) -> SeptRemove
        requires { IsMachine place.machine }
        ensures task { ⟦<SeptRemove as Leaf>⟧.task result ≡ sept_remove_task place tdr gpa level }
        ensures fresh { let leaf = ⟦<SeptRemove as Leaf>⟧ in IsFresh (leaf.task result).tree (leaf.rest result) (leaf.tries result) (leaf.written result) (leaf.waits result) }
    {
        SeptRemove {
            place,
            tdr,
            gpa,
            level,
            told: ArrayVec::new(),
            table: None,
            seen: 0,
            used: None,
            later: ArrayVec::new(),
            written: 0,
            waits: false,
        }
    }
}

impl Leaf for SeptRemove {
    ghost use Rattle.std.specs.Prelude.{◌≡◌, ℕ, ◌+◌, ◌-◌, ◌*◌, length, if◌then◌else◌};
    ghost use Rattle.mem_remove.specs.RemoveTrees.{sept_remove_task};
    ghost use Rattle.mem_remove.specs.RemoveStages.{rest_of};
    ghost use Rattle.mem_remove.specs.SeptRemoveMeanings.{sept_remove-means};

    ghost task = { λ l. sept_remove_task l.place l.tdr l.gpa l.level };

    ghost rest = { λ l. rest_of l.place l.tdr l.gpa l.level l.table l.seen l.used l.told.items l.later.items };

    ghost written = { λ l. l.written };

    ghost waits = { λ l. l.waits };

    ghost bound = { λ l. 2 * (15 - length l.told.items) + 2 * (512 - l.seen) + 2 * (4 - length l.later.items) + (16 - l.written) - (if l.waits then 1 else 0) };

    ghost tries = { λ l. 15 - length l.told.items + (4 - length l.later.items) };

    ghost Origin = { Unit {0} };

    ghost origin = { λ l. tt };

    fn need(&mut self) -> Need {
        match self.table {
            Some(table) => match self.used {
                Some(first) => Need::Verdict(Reply::Refused(Status::SeptNotEmpty(first))),
                None if self.seen < ENTRIES => {
                    self.waits = true;
                    Need::Load(word_address(table.page, self.seen))
                }
                None => {
                    let told = Told {
                        left: self.later.as_slice(),
                    };
                    let tdr = self.tdr as u16;
                    match remove(told, self.place, tdr, table.tdcs, table.at, table.page) {
                        Ok(verdict) => Need::Verdict(verdict.reply),
                        Err(stop) => need_at(stop, &mut self.later, &mut self.waits),
                    }
                }
            },
            None => {
                let mut told = Told {
                    left: self.told.as_slice(),
                };
                match to_scan(&mut told, self.place, self.tdr, self.gpa, self.level) {
                    Ok(table) => {
                        self.table = Some(table);
                        self.waits = true;
                        Need::Load(word_address(table.page, 0))
                    }
                    Err(stop) => need_at(stop, &mut self.told, &mut self.waits),
                }
            }
        }
    }

    fn tell(&mut self, word: u64) {
        self.waits = false;
        match self.table {
            Some(_) if self.seen < ENTRIES => {
                self.used = used_at(self.place.machine.pages, word, self.seen);
                self.seen += 1;
            }
            Some(_) => self.later.push(word),
            None => self.told.push(word),
        }
    }

    fn write(&mut self, _hasher: &mut Option<Measure>) -> Option<Write> {
        let act = self.act()?;
        let at = index(self.level as u8, self.gpa);
        let machine = self.place.machine;
        let write = give_back(machine, self.tdr as u16, at, act, self.written)?;
        self.written += 1;
        Some(write)
    }

    ghost means = { λ l. sept_remove-means l.place l.tdr l.gpa l.level l.machine };
}

/// The index of an entry of that word, where it isn't FREE, in a machine of so many pages.
fn used_at(pages: u16, word: u64, index: u16) -> Option<u16>
    ensures { result ≡ (if is_used pages word then Some index else None) }
{
    let state = entry_told(pages, word).state;
    if state as u8 != EntryState::Free as u8 {
        Some(index)
    } else {
        None
    }
}

/// The conditions before the page's entries are looked at, and the entry that names it.
fn to_scan(told: &mut Told, place: Place, tdr: u64, gpa: u64, level: u64) -> Result<Table, Stop>
    ensures comes { ComesTo place tdr gpa level told.old.left.now told.new.left.now result }
    ensures uses { Uses (15 - level) told.old.left.now told.new.left.now result }
    ensures inside { MatchResult result (λ n. (tdr < place.machine.pages) × (level ≤ 3) × (n.tdcs < place.machine.pages) × (n.at < place.machine.pages) × (n.page < place.machine.pages)) (λ e. StopIn place.machine e) }
{
    let pages = place.machine.pages;
    told.check(tdr < u64::from(pages), Status::OperandInvalid(1))?;
    told.check(gpa < GPAS, Status::OperandInvalid(2))?;
    told.check(is_upper(level), Status::OperandInvalid(3))?;
    let height = level as u8;
    told.check(is_aligned(height, gpa), Status::OperandInvalid(2))?;
    let tdr = tdr as u16;
    let n = find_named(told, place, tdr, gpa, height, &[EntryState::NlBlocked])?;
    let entry = n.entry;
    Ok(Table {
        tdcs: n.tdcs,
        at: n.page,
        page: entry.page,
    })
}

impl SeptRemove {
    ghost use Rattle.std.specs.Prelude.{◌≡◌, ◌<◌, ◌≤◌, Some, [], MatchOption};
    ghost use Rattle.sept_walk.specs.SecureEpt.{index_at};
    ghost use Rattle.leaf_engine.specs.Trees.{changes_of};
    ghost use Rattle.mem_remove.specs.RemoveTrees.{remove_changes};
    ghost use Rattle.mem_remove.specs.RemoveStages.{rest_of};

    /// The act, where the words told decide on one.
    fn act(&self) -> Option<Act>
        ensures { let l = self.now in let rest = rest_of l.place l.tdr l.gpa l.level l.table l.seen l.used l.told.items l.later.items in
            MatchOption result (changes_of rest ≡ [])
            (λ a. (changes_of rest ≡ remove_changes l.tdr a.page (index_at l.level l.gpa) a.named a.children) × (l.tdr < l.place.machine.pages) × (l.level ≤ 3) × (a.page < l.place.machine.pages) × (a.named < l.place.machine.pages)) }
    {
        match self.table {
            Some(table) => self.removal(table),
            None => {
                let mut told = Told {
                    left: self.told.as_slice(),
                };
                let _ = to_scan(&mut told, self.place, self.tdr, self.gpa, self.level);
                None
            }
        }
    }

    /// The act, where a page's entries are told: where they all were FREE, and its block is tracked.
    fn removal(&self, table: Table) -> Option<Act>
        requires { self.now.table ≡ Some table }
        ensures { let l = self.now in let rest = rest_of l.place l.tdr l.gpa l.level l.table l.seen l.used l.told.items l.later.items in
            MatchOption result (changes_of rest ≡ [])
            (λ a. (changes_of rest ≡ remove_changes l.tdr a.page (index_at l.level l.gpa) a.named a.children) × (l.tdr < l.place.machine.pages) × (l.level ≤ 3) × (a.page < l.place.machine.pages) × (a.named < l.place.machine.pages)) }
    {
        match self.used {
            Some(_) => None,
            None if self.seen < ENTRIES => None,
            None => {
                let told = Told {
                    left: self.later.as_slice(),
                };
                let tdr = self.tdr as u16;
                match remove(told, self.place, tdr, table.tdcs, table.at, table.page) {
                    Ok(verdict) => Some(verdict.act),
                    Err(_) => None,
                }
            }
        }
    }
}
