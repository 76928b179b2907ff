//! What a bench tells.

use crate::steps::WordStep;
use mrtd_measure::Measure;

/// A word step with its answer; a hasher, or none, that was put into a slot, with what was taken
/// out of it; or a swap that found another one on its slot under way. A swap is told once, where it
/// gives its slot back. No value of it is made.
pub enum Taken {
    Stepped(WordStep, u64),
    Swapped(u8, Option<Measure>, Option<Measure>),
    Missed(u8),
}
