//! Files and an output, as the program sees them.

ghost use Rattle.std.specs.Prelude.{◌≡◌, ◌≤◌, ◌++◌, ◌∷◌, [], List, ℕ, Option, IfSome, IfNone, OnOk, OnErr};
ghost use Rattle.bundle_store.specs.Outside.{LoadsTold, LoadsUntold, LoadCause, SavesTold, SaveCause, PutsTold, PutCause};
ghost use Rattle.bundle_store.specs.History.{Loaded, Saved, Put};

use std::alloc::Global;

/// Why nothing was loaded.
#[derive(Clone, Copy, Debug, PartialEq, Eq)]
pub enum LoadFault {
    /// The name isn't there.
    Absent,
    /// The contents are longer than was asked for.
    TooLong,
    /// Reading failed.
    Failed,
    OutOfMemory,
}

/// Why nothing was saved.
#[derive(Clone, Copy, Debug, PartialEq, Eq)]
pub enum SaveFault {
    /// Writing failed.
    Failed,
    OutOfMemory,
}

/// Why an output didn't take all the bytes.
#[derive(Clone, Copy, Debug, PartialEq, Eq)]
pub enum PutFault {
    /// Writing failed.
    Failed,
    OutOfMemory,
}

/// Contents by name. No count ever falls, and a count that stands at 2^64 - 1 stays there. A history
/// has all that was ever done, the oldest first.
pub trait Files {
    /// What each name has, where it is told.
    ghost contents: { Self → Option (List ℕ → Option (List ℕ)) };

    /// How often reading failed.
    ghost read_faults: { Self → ℕ };

    /// How often writing failed.
    ghost write_faults: { Self → ℕ };

    /// How many bytes were read.
    ghost bytes_read: { Self → ℕ };

    /// What each load handed out or answered, and for which name.
    ghost loads: { Self → List Loaded };

    /// What each save was given, for which name, and what it answered.
    ghost saves: { Self → List Saved };

    /// The contents of a name, if they are at most `most` bytes.
    fn load(&mut self, alloc: Global, name: &str, most: u64) -> Result<Vec<u8>, LoadFault>
        ensures told { IfSome (contents self.old) (λ c. LoadsTold (c name.now) most result) }
        ensures untold { IfNone (contents self.old) (LoadsUntold (read_faults self.old) (read_faults self.new) (bytes_read self.old) (bytes_read self.new) most result) }
        // Failed comes only where the count of read faults rose, and want of memory leaves it as it was.
        ensures cause { LoadCause (read_faults self.old) (read_faults self.new) result }
        ensures same { contents self.new ≡ contents self.old }
        ensures later { read_faults self.old ≤ read_faults self.new }
        ensures more { bytes_read self.old ≤ bytes_read self.new }
        ensures writes { write_faults self.new ≡ write_faults self.old }
        ensures noted { loads self.new ≡ loads self.old ++ record { name = name.now; answer = result } ∷ [] }
        ensures saves { saves self.new ≡ saves self.old };

    /// Gives a name these bytes.
    fn save(&mut self, alloc: Global, name: &str, bytes: &[u8]) -> Result<(), SaveFault>
        ensures told { OnOk result (SavesTold (contents self.old) name.now bytes.now (contents self.new)) }
        // Where contents are told, they are as before after each fault.
        ensures kept { OnErr result (contents self.new ≡ contents self.old) }
        // Failed comes only where the count of write faults rose, which else is as it was.
        ensures cause { SaveCause (write_faults self.old) (write_faults self.new) result }
        ensures later { write_faults self.old ≤ write_faults self.new }
        ensures noted { saves self.new ≡ saves self.old ++ record { name = name.now; bytes = bytes.now; answer = result } ∷ [] }
        ensures loads { loads self.new ≡ loads self.old }
        ensures reads { read_faults self.new ≡ read_faults self.old }
        ensures bytes { bytes_read self.new ≡ bytes_read self.old };
}

/// Where bytes go. No count ever falls, and a count that stands at 2^64 - 1 stays there. The history
/// has all puts that there ever were, the oldest first.
pub trait Sink {
    /// The bytes so far, where they are told.
    ghost told: { Self → Option (List ℕ) };

    /// How often a put failed.
    ghost faults: { Self → ℕ };

    /// What each put was given, and what it answered.
    ghost puts: { Self → List Put };

    /// Adds these bytes. A put that fails may have added a front of them.
    fn put(&mut self, bytes: &[u8]) -> Result<(), PutFault>
        ensures told { PutsTold (told self.old) bytes.now (told self.new) result }
        // Failed comes only where the count of faults rose, which else is as it was.
        ensures cause { PutCause (faults self.old) (faults self.new) result }
        ensures later { faults self.old ≤ faults self.new }
        ensures noted { puts self.new ≡ puts self.old ++ record { bytes = bytes.now; answer = result } ∷ [] };
}
