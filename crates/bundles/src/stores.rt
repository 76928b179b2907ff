//! The bundles of a logical processor.

use crate::made::Bundle;
use std::alloc::Global;
use std::marker::Model;
use td_words::{Header, OutOfMemory};

/// One of the bundles: its slot and header, and from which of all payload words its own go up to which.
#[derive(Clone, Copy)]
struct Kept {
    slot: u16,
    header: Header,
    from: usize,
    to: usize,
}

/// Bundles in the order in which they were made, and room for more.
#[derive(Drop)]
pub struct Bundles {
    kept: Vec<Kept>,
    words: Vec<u64>,
}

impl Model for Bundles {
    ghost use Rattle.std.specs.Prelude.{◌-◌, length, map, vec_capacity};
    ghost use Rattle.bundles.specs.Stores.{Stored, made_of, StandWithin};

    ghost Value = { Stored };

    ghost view = { λ b. record { made = map (made_of b.words.items) b.kept.items; room = vec_capacity b.kept - length b.kept.items; word_room = vec_capacity b.words - length b.words.items } };

    ghost invariant = { λ b. StandWithin (length b.words.items) b.kept.items };
}

impl Bundles {
    ghost use Rattle.std.specs.Prelude.{◌≡◌, ◌+◌, ◌<◌, ◌≤◌, [], ◌∷◌, ◌++◌, length, slice_get, IfOk};

    /// No bundle yet, with room for so many, and for so many payload words in all. All the memory that
    /// they need is taken here.
    pub fn new(alloc: Global, bundles: usize, words: usize) -> Result<Bundles, OutOfMemory>
        ensures made { IfOk result (λ b. b.made ≡ []) }
        ensures room { IfOk result (λ b. bundles ≤ b.room) }
        ensures word_room { IfOk result (λ b. words ≤ b.word_room) }
    {
        let Ok(kept) = Vec::with_capacity(alloc, bundles) else {
            return Err(OutOfMemory);
        };
        let Ok(words) = Vec::with_capacity(alloc, words) else {
            return Err(OutOfMemory);
        };
        Ok(Bundles { kept, words })
    }

    /// How many there are.
    pub fn len(&self) -> usize
        ensures { result ≡ length self.now.made }
    {
        self.kept.len()
    }

    /// That bundle, counted from 0, if there are so many.
    pub fn get(&self, i: usize) -> Option<Bundle<'_>>
        ensures { result ≡ slice_get self.now.made i }
    {
        match self.kept.get(i) {
            Some(kept) => Some(Bundle {
                slot: kept.slot,
                header: kept.header,
                payload: &self.words[kept.from..kept.to],
            }),
            None => None,
        }
    }

    /// Adds a bundle at the end, for which there is room.
    pub fn push(&mut self, bundle: Bundle<'_>)
        requires room { 0 < self.old.room }
        requires word_room { length bundle.payload ≤ self.old.word_room }
        ensures made { self.new.made ≡ self.old.made ++ bundle.entry ∷ [] }
        ensures room { self.old.room ≤ self.new.room + 1 }
        ensures word_room { self.old.word_room ≤ self.new.word_room + length bundle.entry.payload }
    {
        let from = self.words.len();
        let Ok(()) = self.words.extend_from_slice(bundle.payload) else {
            unreachable!()
        };
        let to = self.words.len();
        let Ok(()) = self.kept.push(Kept {
            slot: bundle.slot,
            header: bundle.header,
            from,
            to,
        })
        else {
            unreachable!()
        };
    }
}
