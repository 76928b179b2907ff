//! `set`, `secret` and `add`.

ghost use Rattle.std.specs.Prelude.{◌≡◌, ◌<◌};
ghost use Rattle.td_words.specs.declared.replies.Reply.TheVariants.{Done};
ghost use Rattle.td_words.specs.declared.replies.Value.TheVariants.{Nothing};
ghost use Rattle.access_core.specs.OperationTrees.{set_tree, add_tree};
ghost use Rattle.guest_turns.specs.Turns.{MadeAtOnce};

use crate::words::{load, store_both};
use access_core::register_address;
use step_core::Bench;
use td_words::places::VP_POSITION;
use td_words::word_address;

/// `set R V` of a virtual processor: a register gets a value.
pub fn set_register<B: Bench>(bench: &mut B, vp: u16, register: u8, value: u64)
    requires inside { vp < (B.machine bench.old).pages }
    requires few { register < 8 }
    ensures made { MadeAtOnce (B.did bench.old) (B.machine bench.old) (set_tree vp register value) bench.new (Done Nothing) }
    ensures machine { B.machine bench.new ≡ B.machine bench.old }
{
    let position = load(bench, word_address(vp, VP_POSITION));
    store_both(bench, register_address(vp, register), value, vp, position);
}

/// `add R S`: a register gets its sum with another one, modulo 2^64.
pub fn add_registers<B: Bench>(bench: &mut B, vp: u16, register: u8, other: u8)
    requires inside { vp < (B.machine bench.old).pages }
    requires few { register < 8 }
    requires other_few { other < 8 }
    ensures made { MadeAtOnce (B.did bench.old) (B.machine bench.old) (add_tree vp register other) bench.new (Done Nothing) }
    ensures machine { B.machine bench.new ≡ B.machine bench.old }
{
    let sum_at = register_address(vp, register);
    let position = load(bench, word_address(vp, VP_POSITION));
    let first = load(bench, sum_at);
    let second = load(bench, register_address(vp, other));
    store_both(bench, sum_at, first.wrapping_add(second), vp, position);
}
