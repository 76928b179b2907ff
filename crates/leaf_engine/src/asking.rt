//! The word steps of a leaf between two events: its loads, and its writes.

ghost use Rattle.std.specs.Prelude.{◌≡◌, ◌≤◌, false};
ghost use Rattle.leaf_engine.specs.declared.needs.Write.TheVariants.{Swap};
ghost use Rattle.leaf_engine.specs.Trees.{changes_left};
ghost use Rattle.leaf_engine.specs.Inside.{WriteInside, NeedInside, LowersTries};
ghost use Rattle.leaf_engine.specs.Turns.{need_of, Asked, Made, Changed};

use crate::leaves::Leaf;
use crate::needs::{Need, Write};
use mrtd_measure::Measure;
use std::mem;
use step_core::{Bench, WordStep, copy_page, zero_page};
use td_words::{LockName, Mode, Reply};

/// What a leaf comes to after its loads.
#[derive(Clone, Copy, Debug, PartialEq, Eq)]
pub enum Choice {
    Lock { name: LockName, at: u32, mode: Mode },
    Verdict(Reply),
}

/// Makes the loads of a leaf up to its next try or its reply.
pub fn ask<L: Leaf, B: Bench>(leaf: &mut L, bench: &mut B) -> Choice
    requires machine { (L.task leaf.old).place.machine ≡ B.machine bench.old }
    requires ready { L.waits leaf.old ≡ false }
    ensures asked { Asked (B.did bench.old) (L.task leaf.old).place.machine.pages (L.rest leaf.old) bench.new (L.rest leaf.new) result }
    ensures inside { NeedInside (B.machine bench.old) (need_of result) }
    ensures ready { L.waits leaf.new ≡ false }
    ensures tries { LowersTries (need_of result) (L.tries leaf.old) (L.tries leaf.new) }
    ensures same { (B.machine bench.new ≡ B.machine bench.old) × (L.task leaf.new ≡ L.task leaf.old) × (L.written leaf.new ≡ L.written leaf.old) }
    ensures origin { L.origin leaf.new ≡ L.origin leaf.old }
{
    loop {
        match leaf.need() {
            Need::Lock { name, at, mode } => return Choice::Lock { name, at, mode },
            Need::Verdict(reply) => return Choice::Verdict(reply),
            Need::Load(at) => {
                let word = bench.perform(WordStep::Load(at));
                leaf.tell(word);
            }
        }
    }
}

/// Makes the changes of a leaf's act, in order, with the hasher in hand.
pub fn change<L: Leaf, B: Bench>(leaf: &mut L, hasher: &mut Option<Measure>, bench: &mut B)
    requires { (L.task leaf.old).place.machine ≡ B.machine bench.old }
    ensures changed { Changed (B.did bench.old) (B.machine bench.old) (changes_left (L.rest leaf.old) (L.written leaf.old)) hasher.old bench.new hasher.new }
    ensures same { (B.machine bench.new ≡ B.machine bench.old) × (L.task leaf.new ≡ L.task leaf.old) × (L.rest leaf.new ≡ L.rest leaf.old) × (L.waits leaf.new ≡ L.waits leaf.old) }
    ensures tries { L.tries leaf.new ≤ L.tries leaf.old }
    ensures origin { L.origin leaf.new ≡ L.origin leaf.old }
{
    while let Some(write) = leaf.write(hasher) {
        make(write, hasher, bench);
    }
}

/// Makes one write.
pub fn make<B: Bench>(write: Write, hasher: &mut Option<Measure>, bench: &mut B)
    requires { WriteInside (B.machine bench.old) write }
    ensures made { Made (B.did bench.old) write hasher.old bench.new hasher.new }
    ensures machine { B.machine bench.new ≡ B.machine bench.old }
{
    match write {
        Write::Word(step) => {
            bench.perform(step);
        }
        Write::Zero(page) => zero_page(bench, page),
        Write::Copy { from, to } => copy_page(bench, from, to),
        Write::Swap(slot) => swap(slot, hasher, bench),
    }
}

// Exchanges the hasher in a slot with the one in hand. It is apart from its caller, since a function
// clears the places of its large values where it begins.
#[inline(never)]
fn swap<B: Bench>(slot: u8, hasher: &mut Option<Measure>, bench: &mut B)
    requires { WriteInside (B.machine bench.old) (Swap slot) }
    ensures made { Made (B.did bench.old) (Swap slot) hasher.old bench.new hasher.new }
    ensures machine { B.machine bench.new ≡ B.machine bench.old }
{
    let put = mem::replace(hasher, None);
    *hasher = bench.swap(slot, put);
}
