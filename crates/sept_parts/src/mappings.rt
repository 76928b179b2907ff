//! A page of the host's that becomes a TD's, and that an entry comes to name which was FREE.

ghost use Rattle.std.specs.Prelude.{◌≡◌, ◌<◌, ◌≤◌, ◌++◌, List, Option, length, MatchOption};
ghost use Rattle.mrtd_measure.specs.declared.measures.Measure.{Measure};
ghost use Rattle.leaf_engine.specs.Changes.{Change};
ghost use Rattle.leaf_engine.specs.Decides.{Decides, HandsAt, ending};
ghost use Rattle.leaf_engine.specs.Inside.{DecisionIn, DecidesEarly};
ghost use Rattle.sept_parts.specs.MapTrees.{map_changes, map_tree, td_map_tree};

use crate::finds::{Found, Modes, found_in, td_find};
use leaf_engine::{Act, Place, Stop, Told, Verdict, Write};
use leaf_parts::{owner_word, raised, taken_page};
use sept_entry::Entry;
use sept_walk::index;
use td_words::places::TDR_CHILDREN;
use td_words::{EntryState, Machine, Mode, OpState, PageKind, pamt_address, word_address};

/// What a call maps: which page, as which kind, at the entry of a level that maps a GPA of a TD, and
/// the state of that entry then.
#[derive(Clone, Copy)]
pub struct Mapping {
    pub tdr: u16,
    pub gpa: u64,
    pub level: u8,
    pub page: u16,
    pub kind: PageKind,
    pub state: EntryState,
}

/// What comes behind the arguments, where nothing else is asked: the beginning of the row, and the
/// walk.
pub fn td_map(
    told: Told,
    place: Place,
    allowed: &[OpState],
    mapping: Mapping,
) -> Result<Verdict, Stop>
    requires { (mapping.tdr < place.machine.pages) × (mapping.page < place.machine.pages) × (mapping.level ≤ 3) }
    ensures decides { (fills : List Change) → Decides place.machine.pages (td_map_tree place.machine.pages allowed.now fills mapping) told.entry.left.now (ending (λ a. fills ++ map_changes place.machine.pages mapping a.page a.children) result) }
    ensures inside { DecisionIn place.machine (λ a. a.page < place.machine.pages) result }
    ensures early { DecidesEarly 16 (length told.entry.left.now) result }
{
    let mut told = told;
    let modes = Modes {
        op: Mode::Shared,
        tree: Mode::Exclusive,
    };
    let found = td_find(
        &mut told,
        place,
        mapping.tdr,
        modes,
        allowed,
        mapping.gpa,
        mapping.level,
    )?;
    map(&mut told, place, mapping, found)
}

/// What comes behind the walk: the entry is FREE, and the page is the host's.
fn map(told: &mut Told, place: Place, mapping: Mapping, found: Found) -> Result<Verdict, Stop>
    requires { (mapping.tdr < place.machine.pages) × (mapping.page < place.machine.pages) × (found.page < place.machine.pages) }
    ensures decides { (fills : List Change) → Decides place.machine.pages (map_tree place.machine.pages fills mapping found) told.old.left.now (ending (λ a. fills ++ map_changes place.machine.pages mapping a.page a.children) result) }
    ensures inside { DecisionIn place.machine (λ a. a.page < place.machine.pages) result }
    ensures early { DecidesEarly 3 (length told.old.left.now) result }
{
    let table = found.page;
    found_in(told, found, &[EntryState::Free])?;
    let children = taken_page(told, place, mapping.tdr, mapping.page)?;
    Ok(Verdict::done(Act {
        page: table,
        children,
        ..Act::NONE
    }))
}

/// The write of a number: the store of the entry, of the page's metadata, and of the child count.
pub fn map_write(
    machine: Machine,
    mapping: Mapping,
    table: u16,
    children: u64,
    number: usize,
) -> Option<Write>
    requires { (mapping.tdr < machine.pages) × (mapping.page < machine.pages) × (mapping.level ≤ 3) × (table < machine.pages) }
    ensures hands { (hand : Option Measure) → HandsAt machine (map_changes machine.pages mapping table children) number hand hand result }
    ensures few { MatchOption result Unit (λ w. number < 3) }
{
    let Mapping {
        tdr,
        gpa,
        level,
        page,
        kind,
        state,
    } = mapping;
    let write = match number {
        0 => {
            let entry = Entry {
                state,
                page,
                mark: 0,
            };
            Write::store(word_address(table, index(level, gpa)), entry.pack())
        }
        1 => Write::store(pamt_address(page), owner_word(kind, tdr)),
        2 => Write::store(
            word_address(tdr, TDR_CHILDREN),
            raised(machine.pages, children),
        ),
        _ => return None,
    };
    Some(write)
}
