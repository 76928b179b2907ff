//! What word steps are made on.

ghost use Rattle.std.specs.Prelude.{◌≡◌, ◌<◌, List, [], ◌∷◌, ◌++◌};
ghost use Rattle.td_words.specs.declared.machines.Machine.{Machine};
ghost use Rattle.step_core.specs.Items.{SwapDid};
ghost use Rattle.step_core.specs.declared.items.Taken.{Taken};
ghost use Rattle.step_core.specs.declared.items.Taken.TheVariants.{Stepped};
ghost use Rattle.step_core.specs.Words.{word_count, address_of, StoreAnswersZero};

use crate::steps::WordStep;
use mrtd_measure::Measure;

/// The words of a machine, and a slot for the hasher of each HKID: slot h - 1 belongs to HKID h.
pub trait Bench {
    /// The machine whose words and slots these are.
    ghost machine: { Self → Machine };

    /// From the first bench these items, in this order, led to the second.
    ghost did: { Self → List Taken → Self → Type 0 };

    /// Makes a step. The answer is the word before it, and 0 for a store.
    fn perform(&mut self, step: WordStep) -> u64
        requires { address_of step < word_count (machine self.old) }
        ensures machine { machine self.new ≡ machine self.old }
        ensures store { StoreAnswersZero step result }
        ensures did { did self.old (Stepped step result ∷ []) self.new };

    /// Puts a hasher, or none, into a slot and answers what was there: one item, told where the swap
    /// gives its slot back. Where another swap on that slot is under way, `put` is dropped and the
    /// answer is None.
    fn swap(&mut self, slot: u8, put: Option<Measure>) -> Option<Measure>
        requires { slot < (machine self.old).hkids }
        ensures machine { machine self.new ≡ machine self.old }
        ensures did { SwapDid (did self.old) slot put result self.new };

    /// Doing nothing leads from a bench to itself.
    ghost did_none: { (b : Self) → did b [] b };

    /// What was done first, and what was done then, were done one after the other.
    ghost did_more: { (a b c : Self) (xs ys : List Taken) → did a xs b → did b ys c → did a (xs ++ ys) c };
}
