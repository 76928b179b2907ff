//! A machine's size, the guest code of a virtual processor, and a migration bundle in its slot.

use crate::calls::GuestOp;
use std::marker::Model;

/// How many logical processors (1 to 8), pages (8 to 1,024) and HKIDs (1 to 15, numbered from 1)
/// a machine has.
#[derive(Clone, Copy, Debug, PartialEq, Eq)]
pub struct Machine {
    pub lps: u8,
    pub pages: u16,
    pub hkids: u8,
}

/// The operations of the virtual processor of that index of the TD whose TDR is that page.
#[derive(Drop)]
pub struct Code {
    pub tdr: u16,
    pub index: u8,
    pub ops: Vec<GuestOp>,
}

impl Model for Code {
    ghost use Rattle.td_words.specs.Seen.{CodeSeen};

    ghost Value = { CodeSeen };

    ghost view = { λ c. record { tdr = c.tdr; index = c.index; ops = c.ops.items } };
}

/// A sealed bundle at its slot, 0 to 4,095.
#[derive(Drop)]
pub struct SlotBundle {
    pub slot: u16,
    pub bytes: Vec<u8>,
}

impl Model for SlotBundle {
    ghost use Rattle.td_words.specs.Seen.{BundleSeen};

    ghost Value = { BundleSeen };

    ghost view = { λ b. record { slot = b.slot; bytes = b.bytes.items } };
}

/// Memory wasn't found. It is the one answer without a cause of its own.
#[derive(Clone, Copy, Debug, PartialEq, Eq)]
pub struct OutOfMemory;
