//! What a seat at the table knows, and the rule that all steps keep.

use atomic_table::{Closed, Seat, Shared, Table, TableRule};
use mrtd_measure::Measure;
use std::alloc::Global;
use std::collections::LinkedList;
use step_core::Taken;
use td_words::Machine;

/// A slot that a seat has out, and what it took out of it. No value of it is made.
pub struct Swap {
    pub slot: u8,
    pub taken: Option<Measure>,
}

/// Whether it is the first seat, and how many others that one has out; the lists that it keeps, its
/// own first; and the swap that it has under way. No value of it is made.
pub struct Told {
    pub first: bool,
    pub out: u64,
    pub lists: LinkedList<LinkedList<Taken>>,
    pub under_way: Option<Swap>,
}

/// The rule of the table.
pub struct Traced;

impl TableRule<Option<Measure>, Told, Machine> for Traced {
    ghost use Rattle.trace_table.specs.Kept.{Kept};
    ghost use Rattle.trace_table.specs.Views.{first_told};

    ghost holds = { Kept };

    ghost first = { λ m. first_told };
}

pub type Cells = Shared<Option<Measure>, Told, Machine, Traced>;

pub type Place = Seat<Option<Measure>, Told>;

pub type Whole = Table<Option<Measure>, Told, Machine, Traced, Global>;

pub type Ended = Closed<Option<Measure>, Global>;
