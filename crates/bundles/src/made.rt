//! A bundle that was made.

use std::marker::Model;
use td_words::Header;

/// A bundle before it is sealed: its slot, 0 to 4,095; its header, whose tag is left out of account; and
/// the words of its payload, which stand elsewhere.
#[derive(Drop)]
pub struct Bundle<'a> {
    pub slot: u16,
    pub header: Header,
    pub payload: &'a [u64],
}

impl<'a> Model for Bundle<'a> {
    ghost use Rattle.flat_core.specs.World.{Made};
    ghost use Rattle.flat_core.specs.Opening.{clear_header};

    ghost Value = { Made };

    ghost view = { λ b. record { slot = b.slot; header = clear_header b.header; payload = b.payload.now } };
}
