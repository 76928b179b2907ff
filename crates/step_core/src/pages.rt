//! Clearing and copying a page's content words. They go eight by eight, which the compiler writes out.

ghost use Rattle.std.specs.Prelude.{◌≡◌, ◌≢◌, ◌<◌};
ghost use Rattle.step_core.specs.Pages.{clearing, Copies};

use crate::benches::Bench;
use crate::steps::WordStep;
use td_words::word_address;

/// Clears a page: 512 stores of 0, in the order of its words.
pub fn zero_page<B: Bench>(bench: &mut B, page: u16)
    requires { page < (B.machine bench.old).pages }
    ensures machine { B.machine bench.new ≡ B.machine bench.old }
    ensures did { B.did bench.old (clearing page 512) bench.new }
{
    for eight in 0..64u16 {
        for one in 0..8u16 {
            bench.perform(WordStep::Store(word_address(page, 8 * eight + one), 0));
        }
    }
}

/// Copies a page's words to another page: 512 pairs of a load and a store, in the order of the
/// words.
pub fn copy_page<B: Bench>(bench: &mut B, from: u16, to: u16)
    requires from_in_machine { from < (B.machine bench.old).pages }
    requires to_in_machine { to < (B.machine bench.old).pages }
    requires apart { from ≢ to }
    ensures machine { B.machine bench.new ≡ B.machine bench.old }
    ensures did { Copies (B.did bench.old) from to 512 bench.new }
{
    for eight in 0..64u16 {
        for one in 0..8u16 {
            let index = 8 * eight + one;
            let seen = bench.perform(WordStep::Load(word_address(from, index)));
            bench.perform(WordStep::Store(word_address(to, index), seen));
        }
    }
}
