//! A bench over words that others use too.

ghost use Rattle.std.specs.Prelude.{◌≡◌, ◌+◌, ◌<◌};
ghost use Rattle.step_core.specs.Words.{word_count};
ghost use Rattle.trace_table.specs.Views.{guards, IsAtRest};

use crate::passes::Pass;
use crate::plays::{Adds, Benches, Exchanges, Gives, Loads, Stores, Subs, Takes};
use crate::tables::{GUARDS, SharedTable};
use crate::told::{Cells, Place};
use mrtd_measure::Measure;
use step_core::{Bench, WordStep};
use td_words::Machine;

/// One logical processor's way to the words of a table. Contracts see what `bench_of` gives: its
/// machine, its table, whether it is the first bench, how many benches it has out, and its lists.
#[derive(Drop)]
pub struct SharedBench<'t> {
    machine: Machine,
    table: &'t Cells,
    seat: Place,
    ghost few: { machine.hkids < guards },
    ghost wide: { table.now.table_id.words ≡ guards + word_count machine },
    ghost deep: { table.now.table_id.slots ≡ machine.hkids },
    ghost key: { table.now.key ≡ machine },
    ghost at_table: { seat.table_id ≡ table.now.table_id },
    ghost rest: { IsAtRest seat },
}

impl<'t> SharedBench<'t> {
    ghost use Rattle.std.specs.Prelude.{true, false};
    ghost use Rattle.trace_table.specs.Benches.{bench_of, pass_of, table_of, new_bench, has_one_out, has_taken_in};

    /// The bench of a pass of this table.
    pub fn new(table: &'t SharedTable, pass: Pass) -> SharedBench<'t>
        requires { (pass_of pass).table ≡ table_of table.now }
        ensures machine { (bench_of result).machine ≡ table.now.machine }
        ensures pass { (bench_of result).pass ≡ pass_of pass }
    {
        let Pass { seat } = pass;
        SharedBench {
            machine: table.machine,
            table: &table.table.shared,
            seat,
        }
    }

    /// One more bench of the table, whose list is empty. It isn't the first.
    pub fn split(&mut self) -> SharedBench<'t>
        requires { (bench_of self.old).pass.first ≡ true }
        ensures out { bench_of self.new ≡ has_one_out (bench_of self.old) }
        ensures new { bench_of result ≡ new_bench (bench_of self.old) }
    {
        SharedBench {
            machine: self.machine,
            table: self.table,
            seat: self.table.split_seat::<Benches>(&mut self.seat),
        }
    }

    /// Takes a bench in that was made by `split`: its list is kept behind the others.
    pub fn join(&mut self, other: SharedBench<'t>)
        requires table { (bench_of other).pass.table ≡ (bench_of self.old).pass.table }
        requires first { (bench_of self.old).pass.first ≡ true }
        requires other { (bench_of other).pass.first ≡ false }
        ensures { bench_of self.new ≡ has_taken_in (bench_of self.old) (bench_of other.entry) }
    {
        let SharedBench {
            machine: _,
            table: _,
            seat: other,
        } = other;
        self.table.join_seat::<Benches>(&mut self.seat, other);
    }

    /// The pass with the bench's lists.
    pub fn into_pass(self) -> Pass
        ensures { pass_of result ≡ (bench_of self.entry).pass }
    {
        let SharedBench {
            machine: _,
            table: _,
            seat,
        } = self;
        Pass { seat }
    }
}

impl<'t> Bench for SharedBench<'t> {
    ghost use Rattle.trace_table.specs.Benches.{machine_of, BenchDid};
    ghost use Rattle.trace_table.specs.Growing.{bench_did-none, bench_did-more};

    ghost machine = { machine_of };

    ghost did = { BenchDid };

    ghost did_none = { bench_did-none };

    ghost did_more = { bench_did-more };

    fn perform(&mut self, step: WordStep) -> u64 {
        match step {
            WordStep::Load(at) => self
                .table
                .load::<Loads>(&mut self.seat, GUARDS + at as usize),
            WordStep::Store(at, word) => {
                self.table
                    .store::<Stores>(&mut self.seat, GUARDS + at as usize, word);
                0
            }
            WordStep::Add(at, word) => {
                self.table
                    .fetch_add::<Adds>(&mut self.seat, GUARDS + at as usize, word)
            }
            WordStep::Sub(at, word) => {
                self.table
                    .fetch_sub::<Subs>(&mut self.seat, GUARDS + at as usize, word)
            }
            WordStep::Exchange { at, old, new } => {
                self.table
                    .compare_exchange::<Exchanges>(&mut self.seat, GUARDS + at as usize, old, new)
            }
        }
    }

    fn swap(&mut self, slot: u8, put: Option<Measure>) -> Option<Measure> {
        let guard = slot as usize;
        if self
            .table
            .compare_exchange::<Takes>(&mut self.seat, guard, 0, 1)
            == 0
        {
            let taken = self.table.exchange(&mut self.seat, guard, put);
            self.table.store::<Gives>(&mut self.seat, guard, 0);
            taken
        } else {
            None
        }
    }
}
