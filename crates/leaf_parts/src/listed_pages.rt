//! A page of the host's that becomes the next of those that its TD lists.

ghost use Rattle.std.specs.Prelude.{◌≡◌, ℕ, ◌<◌, Option, length, MatchOption};
ghost use Rattle.mrtd_measure.specs.declared.measures.Measure.{Measure};
ghost use Rattle.leaf_engine.specs.Decides.{Decides, HandsAt, ending};
ghost use Rattle.leaf_engine.specs.Inside.{DecisionIn, DecidesEarly};
ghost use Rattle.leaf_parts.specs.ListTrees.{IsListIn, list_changes, listed_tree};

use crate::host_pages::taken_page;
use crate::words::{owner_word, raised};
use leaf_engine::{Act, Place, Stop, Told, Verdict, Write};
use td_words::places::TDR_CHILDREN;
use td_words::{Machine, PageKind, pamt_address, word_address};

/// A list of a TD's pages of a kind: the control page where it stands, the number of its first word
/// there and of that of its count, and the number of the word of a listed page that tells its index,
/// where one does.
#[derive(Clone, Copy)]
pub struct PageList {
    pub kind: PageKind,
    pub page: u16,
    pub first: u16,
    pub counted: u16,
    pub index: Option<u16>,
}

impl PageList {
    /// The page is the host's, and becomes the next one where there are so many. The act tells the
    /// control page, and both counts.
    pub fn take(
        self,
        told: Told,
        place: Place,
        tdr: u16,
        page: u16,
        count: u64,
    ) -> Result<Verdict, Stop>
        requires { (tdr < place.machine.pages) × (page < place.machine.pages) }
        ensures decides { (list : ℕ → PageList) → list self.page ≡ self → Decides place.machine.pages (listed_tree self place.machine.pages tdr page count) told.entry.left.now (ending (λ a. list_changes (list a.page) place.machine.pages tdr page a.count a.children) result) }
        ensures inside { DecisionIn place.machine (λ a. (a.page ≡ self.page) × (a.count ≡ count)) result }
        ensures early { DecidesEarly 3 (length told.entry.left.now) result }
    {
        let mut told = told;
        let children = taken_page(&mut told, place, tdr, page)?;
        Ok(Verdict::done(Act {
            page: self.page,
            count,
            children,
            ..Act::NONE
        }))
    }

    /// The write of that number of the act.
    pub fn write(
        self,
        machine: Machine,
        tdr: u16,
        page: u16,
        act: Act,
        number: usize,
    ) -> Option<Write>
        requires { IsListIn machine self act.count × (tdr < machine.pages) × (page < machine.pages) }
        ensures hands { (h : Option Measure) → HandsAt machine (list_changes self machine.pages tdr page act.count act.children) number h h result }
        ensures few { MatchOption result Unit (λ w. number < 6) }
    {
        let write = match number {
            0 => {
                let listed = word_address(self.page, self.first + act.count as u16);
                Write::store(listed, u64::from(page))
            }
            1 => Write::Zero(page),
            2 => Write::store(pamt_address(page), owner_word(self.kind, tdr)),
            3 => Write::store(word_address(self.page, self.counted), act.count + 1),
            4 => Write::store(
                word_address(tdr, TDR_CHILDREN),
                raised(machine.pages, act.children),
            ),
            5 => Write::store(word_address(page, self.index?), act.count),
            _ => return None,
        };
        Some(write)
    }
}
