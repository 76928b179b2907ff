//! `accept`.

ghost use Rattle.std.specs.Prelude.{◌≡◌, true, ◌<◌, ◌^◌, ◌≤◌, ◌||◌, length, MatchResult};
ghost use Rattle.td_words.specs.declared.names.Access.TheVariants as access;
ghost use Rattle.td_words.specs.declared.names.EntryState.TheVariants as entry;
ghost use Rattle.td_words.specs.declared.replies.Outcome.TheVariants.{EptViolation};
ghost use Rattle.td_words.specs.Address.{word_at};
ghost use Rattle.td_words.specs.Limits.{IsMachine};
ghost use Rattle.td_words.specs.Packing.{entry_word};
ghost use Rattle.step_core.specs.declared.steps.WordStep.TheVariants.{Store};
ghost use Rattle.sept_walk.specs.SecureEpt.{index_at};
ghost use Rattle.flat_core.specs.Tree.{same_state, may_read};
ghost use Rattle.word_rules.specs.Rules.{ThePage};
ghost use Rattle.word_rules.specs.Views.{look};
ghost use Rattle.leaf_engine.specs.Decides.{Decides, ending};
ghost use Rattle.leaf_engine.specs.Inside.{StopIn, DecisionIn, DecidesEarly};
ghost use Rattle.leaf_parts.specs.Parts.{Goes, Uses};
ghost use Rattle.sept_parts.specs.SeptTrees.{tree_lock_tree, root_page_tree};
ghost use Rattle.access_core.specs.AcceptTrees.{passed_tree, passed_walk, accept_changes, accept_named, accept_found, is_cleared_in};

use crate::guest_words::store_next;
use crate::walk_loads::{NO_PAGE, named_by};
use flat_core::allows;
use leaf_engine::{Act, Hand, Place, Plan, Stop, Told, Verdict, Write};
use leaf_parts::page_told;
use sept_entry::Entry;
use sept_parts::{entry, entry_told, is_mapped_on, root_page, tree_lock};
use sept_walk::index;
use td_words::places::{TDR_TDCS, VP_POSITION};
use td_words::{Access, EntryState, LockName, Mode, Outcome, Reply, lock_address, word_address};

/// `accept GPA` of a private GPA: the page of a PENDING entry is filled with zeros, and the guest may
/// access it.
#[derive(Drop)]
pub struct Accept {
    place: Place,
    tdr: u16,
    vp: u16,
    gpa: u64,
    ghost machine: { IsMachine place.machine },
    ghost inside: { (tdr < place.machine.pages) × (vp < place.machine.pages) },
    ghost private: { gpa < 2 ^ 47 },
}

impl Accept {
    ghost use Rattle.std.specs.Prelude.{◌≡◌, ◌<◌, ◌^◌};
    ghost use Rattle.td_words.specs.Limits.{IsMachine};
    ghost use Rattle.access_core.specs.AcceptTrees.{accept_task};

    /// The plan of an operation of a virtual processor, at a place.
    pub fn plan(place: Place, tdr: u16, vp: u16, gpa: u64) -> Accept
        requires machine { IsMachine place.machine }
        requires inside { (tdr < place.machine.pages) × (vp < place.machine.pages) }
        requires private { gpa < 2 ^ 47 }
        ensures { ⟦<Accept as Plan>⟧.task result ≡ accept_task place tdr vp gpa }
    {
        Accept {
            place,
            tdr,
            vp,
            gpa,
        }
    }
}

impl Plan for Accept {
    ghost use Rattle.std.specs.Prelude.{◌&&◌, nat_lt};
    ghost use Rattle.access_core.specs.AcceptTrees.{accept_changes, is_cleared_in, accept_task};
    ghost use Rattle.access_core.specs.AcceptMeanings.{accept-means};

    ghost task = { λ l. accept_task l.place l.tdr l.vp l.gpa };

    ghost changes = { λ l told a. accept_changes l.vp l.gpa a.page a.count a.cleared };

    ghost shown = { λ l told a. nat_lt a.page l.place.machine.pages && is_cleared_in l.place.machine.pages a.cleared };

    fn decide(&self, told: Told) -> Result<Verdict, Stop> {
        let mut told = told;
        let word = told.load(word_address(self.tdr, TDR_TDCS))?;
        let tdcs = page_told(self.place.machine.pages, word);
        let page = entry_page(&mut told, self.place, self.tdr, tdcs, self.gpa)?;
        find_named(told, self.place, page, self.vp, self.gpa)
    }

    // A page is filled with zeros before its entry becomes MAPPED, which is the act; where none is, the
    // store of the position is.
    fn write(&self, act: Act, _told: &[u64], number: usize, _hand: &mut Hand) -> Option<Write> {
        let next = store_next(self.vp, act.count);
        match act.cleared {
            None => match number {
                0 => Some(next),
                _ => None,
            },
            Some(page) => match number {
                0 => Some(Write::Zero(page)),
                1 => Some(store_mapped(act.page, self.gpa, page)),
                2 => Some(next),
                _ => None,
            },
        }
    }

    ghost means = { λ l. accept-means l.place l.tdr l.vp l.gpa l.machine l.private };
}

/// How an access is answered that the entry doesn't allow.
fn violation(gpa: u64) -> Reply
    ensures { result ≡ Reply.Exited (EptViolation gpa access.Write) }
{
    Reply::Exited(Outcome::EptViolation {
        gpa,
        access: Access::Write,
    })
}

/// The secure EPT page in which the entry stands that maps a GPA, under T.
fn entry_page(told: &mut Told, place: Place, tdr: u16, tdcs: u16, gpa: u64) -> Result<u16, Stop>
    requires { (tdr < place.machine.pages) × (tdcs < place.machine.pages) }
    ensures goes { Goes place.machine.pages (λ f. tree_lock_tree tdr tdcs Mode.Shared (root_page_tree place.machine.pages tdr (λ root. passed_walk place.machine.pages gpa root f))) told.old.left.now told.new.left.now result }
    ensures uses { Uses 5 told.old.left.now told.new.left.now result }
    ensures inside { MatchResult result (λ p. p < place.machine.pages) (λ e. StopIn place.machine e) }
{
    tree_lock(told, place, tdcs, Mode::Shared)?;
    let root = root_page(told, place, tdr)?;
    passed_walk(told, place, root, gpa)
}

/// By a walk from the root, over entries that are NL_MAPPED.
fn passed_walk(told: &mut Told, place: Place, root: u16, gpa: u64) -> Result<u16, Stop>
    requires { root < place.machine.pages }
    ensures goes { Goes place.machine.pages (λ f. passed_walk place.machine.pages gpa root f) told.old.left.now told.new.left.now result }
    ensures uses { Uses 3 told.old.left.now told.new.left.now result }
    ensures inside { MatchResult result (λ p. p < place.machine.pages) (λ e. StopIn place.machine e) }
{
    let second = passed(told, place, root, gpa, 3)?;
    let first = passed(told, place, second, gpa, 2)?;
    passed(told, place, first, gpa, 1)
}

/// The page that an upper entry leads to.
fn passed(told: &mut Told, place: Place, page: u16, gpa: u64, level: u8) -> Result<u16, Stop>
    requires { (page < place.machine.pages) × (level ≤ 3) }
    ensures goes { Goes place.machine.pages (λ f. passed_tree place.machine.pages gpa page level f) told.old.left.now told.new.left.now result }
    ensures uses { Uses 1 told.old.left.now told.new.left.now result }
    ensures inside { MatchResult result (λ p. p < place.machine.pages) (λ e. StopIn place.machine e) }
{
    let upper = entry(told, place, page, gpa, level)?;
    told.check_or(is_mapped_on(upper), violation(gpa))?;
    Ok(upper.page)
}

/// The entry names a page.
fn find_named(told: Told, place: Place, at: u16, vp: u16, gpa: u64) -> Result<Verdict, Stop>
    requires { (at < place.machine.pages) × (vp < place.machine.pages) }
    ensures decides { Decides place.machine.pages (accept_found place.machine vp gpa at) told.entry.left.now (ending (λ a. accept_changes vp gpa a.page a.count a.cleared) result) }
    ensures inside { DecisionIn place.machine (λ a. (a.page < place.machine.pages) × (is_cleared_in place.machine.pages a.cleared ≡ true)) result }
    ensures early { DecidesEarly 4 (length told.entry.left.now) result }
{
    let mut told = told;
    let named = named_told(told.load(word_address(at, index(0, gpa)))?);
    told.check_or(named != NO_PAGE, violation(gpa))?;
    let page = page_told(place.machine.pages, named);
    accept_named(told, place, at, page, vp, gpa)
}

/// The page is held, and the entry lets it be accepted.
fn accept_named(
    told: Told,
    place: Place,
    at: u16,
    page: u16,
    vp: u16,
    gpa: u64,
) -> Result<Verdict, Stop>
    requires { (at < place.machine.pages) × (page < place.machine.pages) × (vp < place.machine.pages) }
    ensures decides { Decides place.machine.pages (accept_named place.machine vp gpa at page) told.entry.left.now (ending (λ a. accept_changes vp gpa a.page a.count a.cleared) result) }
    ensures inside { DecisionIn place.machine (λ a. (a.page < place.machine.pages) × (is_cleared_in place.machine.pages a.cleared ≡ true)) result }
    ensures early { DecidesEarly 3 (length told.entry.left.now) result }
{
    let mut told = told;
    told.lock(LockName::Page(page), lock_address(page), Mode::Exclusive)?;
    let word = told.load(word_address(at, index(0, gpa)))?;
    let state = entry_told(place.machine.pages, word).state;
    told.check_or(may_be_accepted(state), violation(gpa))?;
    let position = told.load(word_address(vp, VP_POSITION))?;
    let cleared = if is_pending(state) { Some(page) } else { None };
    Ok(Verdict::done(Act {
        page: at,
        count: position,
        cleared,
        ..Act::NONE
    }))
}

/// The page that a word's entry names, and a number that is no page's where it names none.
fn named_told(word: u64) -> u64
    ensures { result ≡ look ThePage word }
{
    match Entry::unpack(word) {
        Some(entry) => named_by(entry),
        None => NO_PAGE,
    }
}

fn is_pending(state: EntryState) -> bool
    ensures { result ≡ same_state state entry.Pending }
{
    state as u8 == EntryState::Pending as u8
}

/// A page that may be read already stays as it is.
fn may_be_accepted(state: EntryState) -> bool
    ensures { result ≡ same_state state entry.Pending || may_read state }
{
    is_pending(state) || allows(state, Access::Read)
}

/// The store of an entry that becomes MAPPED.
fn store_mapped(at: u16, gpa: u64, page: u16) -> Write
    ensures { result ≡ Write.Word (Store (word_at at (index_at 0 gpa)) (entry_word (record { state = entry.Mapped; page = page; mark = 0 }))) }
{
    let entry = Entry {
        state: EntryState::Mapped,
        page,
        mark: 0,
    };
    Write::store(word_address(at, index(0, gpa)), entry.pack())
}
