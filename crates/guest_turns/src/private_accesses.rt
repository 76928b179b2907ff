//! Loads and stores of private words, through a cached translation. Each answers the word that it moved.

ghost use Rattle.std.specs.Prelude.{◌≡◌, ℕ, ◌<◌};
ghost use Rattle.td_words.specs.declared.replies.Reply.TheVariants.{Done};
ghost use Rattle.td_words.specs.declared.replies.Value.TheVariants.{Number};
ghost use Rattle.access_core.specs.ReachTrees.{private_load_tree, private_store_tree};
ghost use Rattle.guest_turns.specs.Turns.{MadeAtOnce};

use crate::words::move_word;
use access_core::{register_address, word_of_gpa};
use step_core::Bench;
use td_words::word_address;

/// `load R GPA` of a private GPA, where a translation to that page is cached.
pub fn load_private<B: Bench>(bench: &mut B, vp: u16, register: u8, gpa: u64, page: u16) -> u64
    requires inside { (vp < (B.machine bench.old).pages) × (page < (B.machine bench.old).pages) }
    requires few { register < 8 }
    ensures made { (line : ℕ) → MadeAtOnce (B.did bench.old) (B.machine bench.old) (private_load_tree vp line register gpa page) bench.new (Done (Number result)) }
    ensures machine { B.machine bench.new ≡ B.machine bench.old }
{
    let from = word_address(page, word_of_gpa(gpa));
    let moved = move_word(bench, vp, from, register_address(vp, register));
    moved.word
}

/// `store R GPA` of a private GPA, where a translation to that page is cached that lets write.
pub fn store_private<B: Bench>(bench: &mut B, vp: u16, register: u8, gpa: u64, page: u16) -> u64
    requires inside { (vp < (B.machine bench.old).pages) × (page < (B.machine bench.old).pages) }
    requires few { register < 8 }
    ensures made { MadeAtOnce (B.did bench.old) (B.machine bench.old) (private_store_tree vp register gpa page) bench.new (Done (Number result)) }
    ensures machine { B.machine bench.new ≡ B.machine bench.old }
{
    let to = word_address(page, word_of_gpa(gpa));
    let moved = move_word(bench, vp, register_address(vp, register), to);
    moved.word
}
