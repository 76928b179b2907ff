//! The word steps that the turns are made of.

ghost use Rattle.std.specs.Prelude.{◌≡◌, ◌+◌, ◌<◌, ◌%◌, ◌^◌, [], ◌∷◌};
ghost use Rattle.td_words.specs.Address.{word_at};
ghost use Rattle.step_core.specs.Words.{word_count};
ghost use Rattle.step_core.specs.declared.items.Taken.TheVariants.{Stepped};
ghost use Rattle.guest_turns.specs.Turns.{HasMoved};

use step_core::{Bench, WordStep};
use td_words::places::VP_POSITION;
use td_words::word_address;

/// The position of a virtual processor, and a word that it moved there.
#[derive(Clone, Copy)]
pub struct Moved {
    pub position: u64,
    pub word: u64,
}

/// The word at an address.
pub fn load<B: Bench>(bench: &mut B, at: u32) -> u64
    requires { at < word_count (B.machine bench.old) }
    ensures did { B.did bench.old (Stepped (WordStep.Load at) result ∷ []) bench.new }
    ensures machine { B.machine bench.new ≡ B.machine bench.old }
{
    bench.perform(WordStep::Load(at))
}

/// Stores a word, and then the position behind an operation that was at this one.
pub fn store_both<B: Bench>(bench: &mut B, to: u32, word: u64, vp: u16, position: u64)
    requires to { to < word_count (B.machine bench.old) }
    requires inside { vp < (B.machine bench.old).pages }
    ensures did { B.did bench.old (Stepped (WordStep.Store to word) 0 ∷ Stepped (WordStep.Store (word_at vp 4) ((position + 1) % 2 ^ 64)) 0 ∷ []) bench.new }
    ensures machine { B.machine bench.new ≡ B.machine bench.old }
{
    bench.perform(WordStep::Store(to, word));
    bench.perform(WordStep::Store(word_address(vp, VP_POSITION), position.wrapping_add(1)));
}

/// Stores the word of one address at another one, as an operation of a virtual processor, which is
/// completed.
pub fn move_word<B: Bench>(bench: &mut B, vp: u16, from: u32, to: u32) -> Moved
    requires inside { vp < (B.machine bench.old).pages }
    requires from { from < word_count (B.machine bench.old) }
    requires to { to < word_count (B.machine bench.old) }
    ensures moved { HasMoved (B.did bench.old) vp from to bench.new result }
    ensures machine { B.machine bench.new ≡ B.machine bench.old }
{
    let position = load(bench, word_address(vp, VP_POSITION));
    let word = load(bench, from);
    store_both(bench, to, word, vp, position);
    Moved { position, word }
}
