//! The bundles that came in, by their slots.

use std::alloc::Global;
use std::marker::Model;
use td_words::{Header, HeaderField, OutOfMemory};

/// A bundle that came in: its header, or the first fault of its form; whether its tag is that of its
/// bytes; and the words that it opens to, none where the tag isn't.
#[derive(Drop)]
pub struct Incoming<'a> {
    pub header: &'a Result<Header, HeaderField>,
    pub opens: bool,
    pub payload: &'a [u64],
}

impl<'a> Model for Incoming<'a> {
    ghost use Rattle.flat_core.specs.Opening.{Incoming as Arrived};
    ghost use Rattle.incoming.specs.Opened.{clear_of};

    ghost Value = { Arrived };

    ghost view = { λ b. record { header = clear_of b.header.now; opens = b.opens; payload = b.payload.now } };
}

/// One of the bundles: its slot, what is told of it, and from which of all words its own go up to which.
#[derive(Clone, Copy)]
struct Kept {
    slot: u16,
    header: Result<Header, HeaderField>,
    opens: bool,
    from: usize,
    to: usize,
}

/// Bundles in the order of their slots, of which no two are the same.
#[derive(Drop)]
pub struct IncomingBundles {
    kept: Vec<Kept>,
    words: Vec<u64>,
}

impl Model for IncomingBundles {
    ghost use Rattle.std.specs.Prelude.{List, map, length};
    ghost use Rattle.incoming.specs.Arrivals.{SlotIncoming, arrived, StandWithin, SlotsRise};

    ghost Value = { List SlotIncoming };

    ghost view = { λ b. map (arrived b.words.items) b.kept.items };

    ghost invariant = { λ b. StandWithin (length b.words.items) b.kept.items × SlotsRise b.kept.items };
}

impl IncomingBundles {
    ghost use Rattle.std.specs.Prelude.{◌≡◌, ◌<◌, ℕ, [], ◌∷◌, ◌++◌, map, OnOk, OnErr, All};
    ghost use Rattle.incoming.specs.Opened.{clear_of};
    ghost use Rattle.incoming.specs.Arrivals.{at_slot};

    /// No bundle yet.
    pub fn new(alloc: Global) -> IncomingBundles
        ensures { result ≡ [] }
    {
        IncomingBundles {
            kept: Vec::new(alloc),
            words: Vec::new(alloc),
        }
    }

    /// The bundle in that slot, if there is one.
    pub fn get(&self, slot: u64) -> Option<Incoming<'_>>
        ensures { result ≡ at_slot self.now slot }
    {
        match self
            .kept
            .binary_search_by_key(&slot, |kept| u64::from(kept.slot))
        {
            Ok(at) => {
                let kept = &self.kept[at];
                Some(Incoming {
                    header: &kept.header,
                    opens: kept.opens,
                    payload: &self.words[kept.from..kept.to],
                })
            }
            Err(_) => None,
        }
    }

    // Adds a bundle whose slot is above all others.
    pub(crate) fn push(&mut self, slot: u16, bundle: Incoming<'_>) -> Result<(), OutOfMemory>
        requires { All (λ n. n < slot) (map (λ b. b.slot) self.old) }
        ensures added { OnOk result (self.new ≡ self.old ++ record { slot = slot; bundle = bundle.entry } ∷ []) }
        ensures same { OnErr result (self.new ≡ self.old) }
    {
        let from = self.words.len();
        let Ok(()) = self.words.extend_from_slice(bundle.payload) else {
            return Err(OutOfMemory);
        };
        let to = self.words.len();
        match self.kept.push(Kept {
            slot,
            header: *bundle.header,
            opens: bundle.opens,
            from,
            to,
        }) {
            Ok(()) => Ok(()),
            Err(_) => Err(OutOfMemory),
        }
    }

    /// Adds a bundle in its slot, between the others. Where that slot has one, this stays.
    pub fn insert(&mut self, slot: u16, bundle: Incoming<'_>) -> Result<(), OutOfMemory>
        ensures added { OnOk result ((n : ℕ) → at_slot self.new n ≡ at_slot (self.old ++ record { slot = slot; bundle = bundle.entry } ∷ []) n) }
        ensures same { OnErr result (self.new ≡ self.old) }
    {
        let Err(at) = self.kept.binary_search_by_key(&slot, |kept| kept.slot) else {
            return Ok(());
        };
        let from = self.words.len();
        let Ok(()) = self.words.extend_from_slice(bundle.payload) else {
            return Err(OutOfMemory);
        };
        let to = self.words.len();
        match self.kept.insert(
            at,
            Kept {
                slot,
                header: *bundle.header,
                opens: bundle.opens,
                from,
                to,
            },
        ) {
            Ok(()) => Ok(()),
            Err(_) => Err(OutOfMemory),
        }
    }
}
