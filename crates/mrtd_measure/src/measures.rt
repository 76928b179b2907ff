//! The measurement of a TD while it is built, and the extension of a run-time register.

ghost use Rattle.std.specs.Prelude.{◌≡◌, ℕ, List, [], ◌++◌};
ghost use Rattle.sha2.specs.Hashers.{Holds384};
ghost use Rattle.sha2.specs.Sha512.{sha384};
ghost use Rattle.mrtd_measure.specs.Records.{page_record, chunk_records};

use sha2::{Digest, Sha384};
use std::marker::Model;

/// The hash of the records so far (Base Architecture, "TD Measurement").
#[derive(Drop)]
pub struct Measure {
    hasher: Sha384,
}

impl Model for Measure {
    ghost use Rattle.sha2.specs.declared.Sha384.{Sha384};

    ghost Value = { Sha384 };

    ghost view = { λ m. m.hasher };
}

impl Measure {
    /// No record yet.
    pub fn new() -> Measure
        ensures { Holds384 result [] }
    {
        Measure {
            hasher: Sha384::new(),
        }
    }

    /// Measures that a page was added at a GPA: one record.
    pub fn add_page(&mut self, gpa: u64)
        ensures { (m : List ℕ) → Holds384 self.old m → Holds384 self.new (m ++ page_record gpa) }
    {
        self.hasher.update(b"MEM.PAGE.ADD");
        self.hasher.update(&[0u8; 4]);
        self.hasher.update(&gpa.to_le_bytes());
        self.hasher.update(&[0u8; 104]);
    }

    /// Measures a chunk at a GPA and its bytes: three records.
    pub fn extend_chunk(&mut self, gpa: u64, chunk: &[u8; 256])
        ensures { (m : List ℕ) → Holds384 self.old m → Holds384 self.new (m ++ chunk_records gpa chunk.now) }
    {
        self.hasher.update(b"MR.EXTEND");
        self.hasher.update(&[0u8; 7]);
        self.hasher.update(&gpa.to_le_bytes());
        self.hasher.update(&[0u8; 104]);
        self.hasher.update(chunk);
    }

    /// Another measure with the same records.
    pub fn copy(&self) -> Measure
        ensures { result ≡ self.now }
    {
        let Ok(hasher) = self.hasher.clone() else {
            unreachable!()
        };
        Measure { hasher }
    }

    /// The SHA-384 of the records so far.
    pub fn digest(&self) -> [u8; 48]
        ensures { (m : List ℕ) → Holds384 self.now m → result ≡ sha384 m }
    {
        self.copy().finish()
    }

    /// MRTD: the SHA-384 of all records.
    pub fn finish(self) -> [u8; 48]
        ensures { (m : List ℕ) → Holds384 self m → result ≡ sha384 m }
    {
        self.hasher.finalize()
    }
}

/// The value of an RTMR after an extension by 48 bytes (Base Architecture, "Run-Time Measurement
/// Registers"): the SHA-384 of the old value followed by these.
pub fn rtmr_next(old: &[u8; 48], given: &[u8; 48]) -> [u8; 48]
    ensures { result ≡ sha384 (old.now ++ given.now) }
{
    let mut hasher = Sha384::new();
    hasher.update(old);
    hasher.update(given);
    hasher.finalize()
}
