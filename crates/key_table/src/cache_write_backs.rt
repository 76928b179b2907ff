//! PHYMEM.CACHE.WB.

ghost use Rattle.std.specs.Prelude.{◌≡◌, ◌≤◌, [], length};
ghost use Rattle.leaf_engine.specs.Decides.{Decides, ending};
ghost use Rattle.leaf_engine.specs.Inside.{DecisionIn, DecidesEarly};
ghost use Rattle.key_table.specs.CacheTrees.{mark_keys, marks};

use crate::words::marked;
use leaf_engine::{Act, Hand, Place, Plan, Stop, Told, Verdict, Write};
use td_words::places::{KEY_FIRST, KEY_LOCK};
use td_words::{LockName, Machine, Mode, key_address};

/// PHYMEM.CACHE.WB: every flushed HKID is marked as written back.
#[derive(Drop)]
pub struct CacheWb {
    place: Place,
    ghost few_hkids: { place.machine.hkids ≤ 15 },
}

impl CacheWb {
    ghost use Rattle.std.specs.Prelude.{◌≡◌, ◌≤◌};
    ghost use Rattle.key_table.specs.CacheTrees.{cache_task};

    /// The plan of a call at a place.
    pub fn plan(place: Place) -> CacheWb
        requires { place.machine.hkids ≤ 15 }
        ensures { ⟦<CacheWb as Plan>⟧.task result ≡ cache_task place }
    {
        CacheWb { place }
    }
}

impl Plan for CacheWb {
    ghost use Rattle.std.specs.Prelude.{nat_lt};
    ghost use Rattle.key_table.specs.CacheTrees.{cache_task, cache_changes};
    ghost use Rattle.key_table.specs.CacheMeanings.{cache-means};

    ghost task = { λ l. cache_task l.place };

    ghost changes = { λ l told a. cache_changes l.place.machine told };

    ghost shown = { λ l told a. nat_lt l.place.machine.hkids (length told) };

    fn decide(&self, told: Told) -> Result<Verdict, Stop> {
        let mut told = told;
        let pages = self.place.machine.pages;
        told.lock(
            LockName::Keys,
            key_address(pages, KEY_LOCK),
            Mode::Exclusive,
        )?;
        mark_keys(told, self.place.machine)
    }

    // The words are stored with the flushed ones marked. They were told behind the answer of K.
    #[tactic(auto, using(crate::proofs::Marking::hands_told, crate::proofs::Marking::none_told))]
    fn write(&self, _act: Act, told: &[u64], number: usize, _hand: &mut Hand) -> Option<Write> {
        let machine = self.place.machine;
        if number < usize::from(machine.hkids) {
            let at = key_address(machine.pages, KEY_FIRST + number as u16);
            Some(Write::store(at, marked(told[number + 1])))
        } else {
            None
        }
    }

    ghost means = { λ l. cache-means l.place };
}

/// Loads the words of all HKIDs.
fn mark_keys(told: Told, machine: Machine) -> Result<Verdict, Stop>
    requires { machine.hkids ≤ 15 }
    ensures decides { Decides machine.pages (mark_keys 3 machine.hkids []) told.entry.left.now (ending (λ a. marks 3 machine.hkids told.entry.left.now) result) }
    ensures inside { DecisionIn machine (λ a. machine.hkids ≤ length told.entry.left.now) result }
    ensures early { DecidesEarly 15 (length told.entry.left.now) result }
{
    let mut answers = told;
    let mut number = KEY_FIRST;
    let mut left = machine.hkids;
    while left > 0 {
        answers.load(key_address(machine.pages, number))?;
        number += 1;
        left -= 1;
    }
    Ok(Verdict::done(Act::NONE))
}
