//! Words that operations of guests load and store, and what a guest physical address names.

ghost use Rattle.std.specs.Prelude.{◌≡◌, ◌+◌, ◌%◌, ◌^◌, ◌<◌, slice_index};
ghost use Rattle.td_words.specs.Address.{word_at};
ghost use Rattle.flat_core.specs.Tree.{word_of_gpa};
ghost use Rattle.flat_core.specs.Guest.{shared_page};
ghost use Rattle.step_core.specs.declared.steps.WordStep.TheVariants.{Store};

use leaf_engine::Write;
use td_words::places::{VP_POSITION, VP_REGISTERS};
use td_words::word_address;

/// Private GPAs are below this one, and shared GPAs begin with it.
const SHARED: u64 = 1 << 47;

/// The answer of that number, and 0 where it isn't told yet.
pub fn answer(told: &[u64], number: usize) -> u64
    ensures { result ≡ slice_index told.now number }
{
    match told.get(number) {
        Some(word) => *word,
        None => 0,
    }
}

/// Where a register stands.
pub fn register_address(vp: u16, register: u8) -> u32
    requires { register < 8 }
    ensures { result ≡ word_at vp (8 + register) }
{
    word_address(vp, VP_REGISTERS + u16::from(register))
}

/// The position behind an operation that was at that one.
pub fn store_next(vp: u16, position: u64) -> Write
    ensures { result ≡ Write.Word (Store (word_at vp 4) ((position + 1) % 2 ^ 64)) }
{
    Write::store(word_address(vp, VP_POSITION), position.wrapping_add(1))
}

/// The host's page that a shared GPA names.
pub fn shared_page(gpa: u64) -> u64
    ensures { result ≡ shared_page gpa }
{
    gpa.saturating_sub(SHARED) / 4096
}

/// The word of its page that a GPA is in.
pub fn word_of_gpa(gpa: u64) -> u16
    ensures word { result ≡ word_of_gpa gpa }
    ensures below { result < 512 }
{
    (gpa % 4096 / 8) as u16
}
