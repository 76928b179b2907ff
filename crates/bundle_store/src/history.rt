//! What was done with files and an output. Contracts alone read it: it takes no memory, and nothing
//! of it is there as the program runs.

ghost use Rattle.std.specs.Prelude.{◌≡◌, List};
ghost use Rattle.bundle_store.specs.History.{Loaded, Saved, Put};

use crate::outside::{LoadFault, PutFault, SaveFault};
use std::marker::Model;

/// The loads, saves and puts so far, the oldest first.
#[derive(Drop)]
pub struct History {
    pub ghost loads: { List Loaded },
    pub ghost saves: { List Saved },
    pub ghost puts: { List Put },
}

impl Model for History {
    ghost use Rattle.std.specs.Borrow.{ftrue};

    ghost also_owns = { λ _. ftrue };
}

/// What has just been done, with what was given and what came of it.
#[derive(Clone, Copy, Drop)]
pub enum Note<'a> {
    Load(&'a str, &'a Result<Vec<u8>, LoadFault>),
    Save(&'a str, &'a [u8], &'a Result<(), SaveFault>),
    Put(&'a [u8], &'a Result<(), PutFault>),
}

impl History {
    ghost use Rattle.bundle_store.specs.Noted.{nothing_done, noted};

    /// Nothing so far.
    pub fn new() -> History
        ensures { result ≡ nothing_done }
    {
        History {}
    }

    /// This history, and then what the note says.
    pub fn and(&self, _note: &Note<'_>) -> History
        ensures { result ≡ noted self.now _note.now }
    {
        History {}
    }
}
