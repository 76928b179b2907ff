//! Leaves, need by need.

ghost use Rattle.std.specs.Prelude.{◌≡◌, ℕ, ◌<◌, ◌≤◌, Bool, true, false, Option, List, [], MatchOption};
ghost use Rattle.leaf_engine.specs.Trees.{Tree, settle, fed, passed, changes_left};
ghost use Rattle.leaf_engine.specs.Decides.{Wants, HandsNext};
ghost use Rattle.leaf_engine.specs.Inside.{NeedInside, Lowers, LowersTries, is_load};
ghost use Rattle.leaf_engine.specs.Means.{Task, MeansRow};

use crate::needs::{Need, Write};
use mrtd_measure::Measure;

/// What a call or a guest's operation does, need by need: locks and words first, then a reply, and
/// then the changes of its act.
pub trait Leaf {
    /// Where it was made for, the whole of its tree, and its row.
    ghost task: { Self → Task };

    /// What is left of its tree.
    ghost rest: { Self → Tree };

    /// How many of the changes of its end it has handed out.
    ghost written: { Self → ℕ };

    /// Whether it waits for the word of a load.
    ghost waits: { Self → Bool };

    /// How many more needs and writes it can give at most.
    ghost bound: { Self → ℕ };

    /// How many more locks it can ask for at most.
    ghost tries: { Self → ℕ };

    /// What it was made of, which stays.
    ghost Origin: { Type 0 };

    ghost origin: { Self → Origin };

    /// What it needs next. A lock counts as granted at the next call.
    fn need(&mut self) -> Need
        requires { waits self.old ≡ false }
        ensures gives { Wants (task self.old).place.machine.pages (settle (rest self.old)) result }
        ensures rest { rest self.new ≡ passed (settle (rest self.old)) }
        ensures inside { NeedInside (task self.old).place.machine result }
        ensures waits { waits self.new ≡ is_load result }
        ensures bound { Lowers result (bound self.old) (bound self.new) }
        ensures tries { LowersTries result (tries self.old) (tries self.new) }
        ensures same { (task self.new ≡ task self.old) × (written self.new ≡ written self.old) }
        ensures origin { origin self.new ≡ origin self.old };

    /// The word that it waits for.
    fn tell(&mut self, word: u64)
        requires { waits self.old ≡ true }
        ensures rest { rest self.new ≡ fed (rest self.old) word }
        ensures waits { waits self.new ≡ false }
        ensures bound { bound self.new ≤ bound self.old }
        ensures tries { tries self.new ≤ tries self.old }
        ensures same { (task self.new ≡ task self.old) × (written self.new ≡ written self.old) }
        ensures origin { origin self.new ≡ origin self.old };

    /// The next write of its act, made with the hasher in hand.
    fn write(&mut self, hasher: &mut Option<Measure>) -> Option<Write>
        ensures next { HandsNext (task self.old).place.machine (changes_left (rest self.old) (written self.old)) (changes_left (rest self.new) (written self.new)) hasher.old hasher.new result }
        ensures rest { rest self.new ≡ rest self.old }
        ensures waits { waits self.new ≡ waits self.old }
        ensures bound { MatchOption result (bound self.new ≤ bound self.old) (λ w. bound self.new < bound self.old) }
        ensures tries { tries self.new ≤ tries self.old }
        ensures same { task self.new ≡ task self.old }
        ensures origin { origin self.new ≡ origin self.old };

    ghost means: { (l : Self) → MeansRow (task l) };
}
