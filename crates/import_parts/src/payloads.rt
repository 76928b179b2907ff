//! The words of a bundle's payload, which are stored one after another.

ghost use Rattle.std.specs.Prelude.{◌≡◌, ◌+◌, ◌<◌, ◌≤◌, Option, MatchOption};
ghost use Rattle.mrtd_measure.specs.declared.measures.Measure.{Measure};
ghost use Rattle.flat_core.specs.Inputs.{input_in};
ghost use Rattle.leaf_engine.specs.Decides.{HandsAt};
ghost use Rattle.import_parts.specs.WordPuts.{put_words};

use incoming::Incoming;
use leaf_engine::Write;
use td_words::{Machine, word_address};

/// The word of that number, which is 0 behind the last one, and where there is no bundle.
pub fn word_given(input: &Option<Incoming<'_>>, number: usize) -> u64
    ensures { result ≡ (input_in input.now).words number }
{
    match input {
        Some(bundle) => match bundle.payload.get(number) {
            Some(word) => *word,
            None => 0,
        },
        None => 0,
    }
}

/// Where words of a payload are stored: in which page, the place of the payload's first word in it, the
/// number of the first word that is stored, and how many are.
#[derive(Clone, Copy, Debug, PartialEq, Eq)]
pub struct Run {
    pub page: u16,
    pub at: u16,
    pub from: u16,
    pub count: u16,
}

impl Run {
    /// The store of that number.
    pub fn write(
        self,
        machine: Machine,
        input: &Option<Incoming<'_>>,
        number: usize,
    ) -> Option<Write>
        requires { (self.page < machine.pages) × (self.at + self.from + self.count ≤ 512) }
        ensures hands { (h : Option Measure) → HandsAt machine (put_words self.page self.at (input_in input.now).words self.from self.count) number h h result }
        ensures few { MatchOption result Unit (λ w. number < self.count) }
    {
        if number >= usize::from(self.count) {
            return None;
        }
        let word = self.from + number as u16;
        Some(Write::store(
            word_address(self.page, self.at + word),
            word_given(input, usize::from(word)),
        ))
    }
}
