//! MEM.PAGE.RELOCATE.

ghost use Rattle.td_words.specs.Limits.{IsMachine};

use leaf_engine::{Act, Hand, Place, Plan, Stop, Told, Verdict, Write};
use leaf_parts::{host_page, owner_word};
use mem_remove::{REMOVED, entry_of, find_named, tracked, unblocked_state};
use sept_parts::{GPAS, is_aligned};
use sept_walk::index;
use td_words::{EntryState, Machine, PageKind, Status, pamt_address, word_address};

/// MEM.PAGE.RELOCATE TDR GPA PAGE: a private page moves to another page, once nobody can use a
/// translation to it.
#[derive(Drop)]
pub struct PageRelocate {
    place: Place,
    tdr: u64,
    gpa: u64,
    page: u64,
    ghost machine: { IsMachine place.machine },
}

impl PageRelocate {
    ghost use Rattle.std.specs.Prelude.{◌≡◌};
    ghost use Rattle.relocate_core.specs.RelocateTrees.{page_relocate_task};

    /// The plan of a call at a place.
    pub fn plan(place: Place, tdr: u64, gpa: u64, page: u64) -> PageRelocate
        requires { IsMachine place.machine }
        ensures { ⟦<PageRelocate as Plan>⟧.task result ≡ page_relocate_task place tdr gpa page }
    {
        PageRelocate {
            place,
            tdr,
            gpa,
            page,
        }
    }
}

impl Plan for PageRelocate {
    ghost use Rattle.std.specs.Prelude.{◌&&◌, not, ◌==◌, nat_lt};
    ghost use Rattle.sept_walk.specs.SecureEpt.{index_at};
    ghost use Rattle.relocate_core.specs.RelocateTrees.{page_relocate_task, all_changes};
    ghost use Rattle.relocate_core.specs.RelocateMeanings.{page_relocate-means};

    ghost task = { λ l. page_relocate_task l.place l.tdr l.gpa l.page };

    ghost changes = { λ l told a. all_changes l.tdr a.page (index_at 0 l.gpa) a.state a.named l.page };

    ghost shown = { λ l told a. nat_lt l.tdr l.place.machine.pages && nat_lt l.page l.place.machine.pages && nat_lt a.page l.place.machine.pages && nat_lt a.named l.place.machine.pages && not (l.page == a.named) };

    fn decide(&self, told: Told) -> Result<Verdict, Stop> {
        let mut told = told;
        are_in_range(&mut told, self.place.machine, self.tdr, self.gpa, self.page)?;
        let tdr = self.tdr as u16;
        let named = find_named(&mut told, self.place, tdr, self.gpa, 0, &REMOVED)?;
        another_page(&mut told, self.place, self.page as u16, named.entry.page)?;
        tracked(&mut told, self.place, named.tdcs, named.entry.page)?;
        Ok(Verdict::done(Act {
            page: named.page,
            named: named.entry.page,
            state: named.entry.state,
            ..Act::NONE
        }))
    }

    // The copy; the entry, whose store is the act; the metadata of the new page; and the old page is
    // cleared and given back.
    fn write(&self, act: Act, _told: &[u64], number: usize, _hand: &mut Hand) -> Option<Write> {
        let page = self.page as u16;
        let write = match number {
            0 => {
                let from = act.named;
                Write::Copy { from, to: page }
            }
            1 => {
                let entry = entry_of(unblocked_state(act.state), page);
                Write::store(word_address(act.page, index(0, self.gpa)), entry)
            }
            2 => {
                let owned = owner_word(PageKind::Reg, self.tdr as u16);
                Write::store(pamt_address(page), owned)
            }
            3 => Write::Zero(act.named),
            4 => Write::store(pamt_address(act.named), 0),
            _ => return None,
        };
        Some(write)
    }

    ghost means = { λ l. page_relocate-means l.place l.tdr l.gpa l.page l.machine };
}

ghost use Rattle.std.specs.Prelude.{◌≡◌, ℕ, ◌<◌, ◌==◌, not, true, MatchResult};
ghost use Rattle.leaf_engine.specs.Inside.{StopIn};
ghost use Rattle.leaf_parts.specs.Arguments.{checked};
ghost use Rattle.leaf_parts.specs.Parts.{Goes, Uses};
ghost use Rattle.relocate_core.specs.RelocateTrees.{relocate_arguments, another_tree};

/// The argument rules.
fn are_in_range(
    told: &mut Told,
    machine: Machine,
    tdr: u64,
    gpa: u64,
    page: u64,
) -> Result<(), Stop>
    ensures goes { Goes machine.pages (λ f. checked (relocate_arguments machine tdr gpa page) (f tt)) told.old.left.now told.new.left.now result }
    ensures uses { Uses 0 told.old.left.now told.new.left.now result }
    ensures inside { MatchResult result (λ u. (tdr < machine.pages) × (page < machine.pages)) (λ e. StopIn machine e) }
{
    let pages = u64::from(machine.pages);
    told.check(tdr < pages, Status::OperandInvalid(1))?;
    told.check(gpa < GPAS, Status::OperandInvalid(2))?;
    told.check(page < pages, Status::OperandInvalid(3))?;
    told.check(page != tdr, Status::OperandInvalid(3))?;
    told.check(is_aligned(0, gpa), Status::OperandInvalid(2))
}

/// The page is another one than the entry names, and the host's.
fn another_page(told: &mut Told, place: Place, page: u16, old: u16) -> Result<(), Stop>
    requires { page < place.machine.pages }
    ensures goes { Goes place.machine.pages (λ f. another_tree page old (f tt)) told.old.left.now told.new.left.now result }
    ensures uses { Uses 2 told.old.left.now told.new.left.now result }
    ensures inside { MatchResult result (λ u. not (page == old) ≡ true) (λ e. StopIn place.machine e) }
{
    told.check(page != old, Status::PageMetadataIncorrect(page))?;
    host_page(told, place, page)
}
