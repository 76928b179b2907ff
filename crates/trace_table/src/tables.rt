//! The table, from its start to its close.

ghost use Rattle.std.specs.Prelude.{◌≡◌, ◌+◌, ◌<◌, ◌≤◌, replicate, IfOk};
ghost use Rattle.std.specs.Slots.{slots_len, IsFull};
ghost use Rattle.step_core.specs.Words.{word_count};
ghost use Rattle.trace_table.specs.Views.{guards};

use crate::closing::{drop_slots, machine_words};
use crate::passes::Pass;
use crate::told::{Ended, Place, Whole};
use atomic_table::Table;
use mrtd_measure::Measure;
use std::alloc::{AllocError, Global};
use std::marker::Model;
use td_words::places::KEY_FIRST;
use td_words::{Machine, OutOfMemory};

/// The words that stand before the machine's own: one for each slot, which is 0 exactly where the
/// slot is at home. There are as many as a u8 can name slots.
pub const GUARDS: usize = 256;

/// The words and slots of a machine, for several threads.
#[derive(Drop)]
pub struct SharedTable {
    pub(crate) machine: Machine,
    pub(crate) table: Whole,
    ghost few: { machine.hkids < guards },
    ghost wide: { table.shared.table_id.words ≡ guards + word_count machine },
    ghost deep: { table.shared.table_id.slots ≡ machine.hkids },
    ghost key: { table.shared.key ≡ machine },
}

/// A machine's words in the order of their addresses, as the steps on them left them. They lie where
/// the table had them.
pub struct Words {
    ended: Ended,
    ghost words_full: { IsFull ended.words },
    ghost slots_full: { IsFull ended.slots },
    ghost room: { guards ≤ slots_len ended.words },
}

impl Model for Words {
    ghost use Rattle.std.specs.Prelude.{drop};
    ghost use Rattle.std.specs.Slots.{slots_items};
    ghost use Rattle.trace_table.specs.Merges.{WordsSeen};
    ghost use Rattle.trace_table.specs.Views.{guards};

    ghost Value = { WordsSeen };

    ghost view = { λ w. record { words = drop guards (slots_items w.ended.words) } };
}

impl Drop for Words {
    fn drop(self) {
        let Words { ended } = self;
        drop_slots(ended);
    }
}

impl Words {
    /// A copy of the words.
    pub fn copied(&self, alloc: Global) -> Result<Vec<u64>, OutOfMemory>
        ensures { IfOk result (λ v. v.items ≡ self.now.words) }
    {
        machine_words(&self.ended, alloc).map_err(|_| OutOfMemory)
    }
}

fn zeros(alloc: Global, count: usize) -> Result<Vec<u64>, AllocError>
    ensures { IfOk result (λ v. v.items ≡ replicate count 0) }
{
    vec![in alloc; 0u64; count]
}

impl SharedTable {
    ghost use Rattle.std.specs.Prelude.{true, IfOk};
    ghost use Rattle.trace_table.specs.Merges.{MergesTo};
    ghost use Rattle.trace_table.specs.Benches.{table_of, pass_of, first_pass};

    /// Every word is 0, and no slot has a hasher. The pass is the first one.
    pub fn start(alloc: Global, machine: Machine) -> Result<(SharedTable, Pass), OutOfMemory>
        ensures machine { IfOk result (λ r. r.0.machine ≡ machine) }
        ensures pass { IfOk result (λ r. pass_of r.1 ≡ first_pass (table_of r.0)) }
    {
        let count = 514 * machine.pages as usize + KEY_FIRST as usize + machine.hkids as usize;
        let Ok(words) = zeros(alloc, GUARDS + count) else {
            return Err(OutOfMemory);
        };
        let made: Result<(Whole, Place), _> = Table::vacant(
            alloc,
            &words,
            machine.hkids as usize,
            &machine,
        );
        let Ok((table, seat)) = made else {
            return Err(OutOfMemory);
        };
        Ok((SharedTable { machine, table }, Pass { seat }))
    }

    /// The machine's words at the end. No list is missing: the pass is the first one, which has no
    /// bench out.
    pub fn close(self, pass: Pass) -> Words
        requires table { (pass_of pass).table ≡ table_of self }
        requires first { (pass_of pass).first ≡ true }
        requires none_out { (pass_of pass).out ≡ 0 }
        ensures { MergesTo self.machine (pass_of pass).lists result.words }
    {
        let SharedTable { machine: _, table } = self;
        let Pass { seat } = pass;
        Words {
            ended: table.close_with(seat),
        }
    }
}
