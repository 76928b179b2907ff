//! The plan of each call that goes by one and takes a bundle.

use import_core::{AbortByToken, ImportToken};
use import_states::{ImportImmutable, ImportVp};
use incoming::Incoming;
use leaf_engine::{Act, Hand, Plan, Stop, Told, Verdict, Write};

/// A plan of any of these calls, with the bundle of its slot.
#[derive(Drop)]
pub enum BundlePlan<'a> {
    ImportToken(ImportToken<'a>),
    AbortByToken(AbortByToken<'a>),
    ImportImmutable(ImportImmutable<'a>),
    ImportVp(ImportVp<'a>),
}

impl<'a> Plan for BundlePlan<'a> {
    ghost use Rattle.leaf_table.specs.BundlePlans.{bundle_plan_task, bundle_plan_changes, bundle_plan_shown, bundle_plans-mean};

    ghost task = { λ p. bundle_plan_task p };

    ghost changes = { λ p told a. bundle_plan_changes p told a };

    ghost shown = { λ p told a. bundle_plan_shown p told a };

    fn decide(&self, told: Told) -> Result<Verdict, Stop> {
        match self {
            BundlePlan::ImportToken(plan) => plan.decide(told),
            BundlePlan::AbortByToken(plan) => plan.decide(told),
            BundlePlan::ImportImmutable(plan) => plan.decide(told),
            BundlePlan::ImportVp(plan) => plan.decide(told),
        }
    }

    fn write(&self, act: Act, told: &[u64], number: usize, hand: &mut Hand) -> Option<Write> {
        match self {
            BundlePlan::ImportToken(plan) => plan.write(act, told, number, hand),
            BundlePlan::AbortByToken(plan) => plan.write(act, told, number, hand),
            BundlePlan::ImportImmutable(plan) => plan.write(act, told, number, hand),
            BundlePlan::ImportVp(plan) => plan.write(act, told, number, hand),
        }
    }

    ghost means = { bundle_plans-mean };
}

impl<'a> BundlePlan<'a> {
    ghost use Rattle.std.specs.Prelude.{◌≡◌, Option};
    ghost use Rattle.flat_core.specs.Opening.{Incoming as Arrived};
    ghost use Rattle.leaf_table.specs.BundlePlans.{plan_input, plan_slot, task_with};

    /// The slot of its bundle.
    pub fn slot(&self) -> u64
        ensures { result ≡ plan_slot self.now }
    {
        match self {
            BundlePlan::ImportToken(plan) => plan.slot(),
            BundlePlan::AbortByToken(plan) => plan.slot(),
            BundlePlan::ImportImmutable(plan) => plan.slot(),
            BundlePlan::ImportVp(plan) => plan.slot(),
        }
    }

    /// The same plan, with this bundle in place of its own.
    pub fn with_input<'b>(self, input: Option<Incoming<'b>>) -> BundlePlan<'b>
        ensures task { (b : Option Arrived) → task_with b result ≡ task_with b self.entry }
        ensures input { (plan_slot result ≡ plan_slot self.entry) × (plan_input result ≡ input.entry) }
    {
        match self {
            BundlePlan::ImportToken(plan) => BundlePlan::ImportToken(plan.with_input(input)),
            BundlePlan::AbortByToken(plan) => BundlePlan::AbortByToken(plan.with_input(input)),
            BundlePlan::ImportImmutable(plan) => {
                BundlePlan::ImportImmutable(plan.with_input(input))
            }
            BundlePlan::ImportVp(plan) => BundlePlan::ImportVp(plan.with_input(input)),
        }
    }
}
