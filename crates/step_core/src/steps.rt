//! The atomic steps on words.

/// One step on the word at an address. `Add` and `Sub` wrap; `Exchange` stores `new` where the word
/// is `old`.
#[derive(Clone, Copy, Debug, PartialEq, Eq)]
pub enum WordStep {
    Load(u32),
    Store(u32, u64),
    Add(u32, u64),
    Sub(u32, u64),
    Exchange { at: u32, old: u64, new: u64 },
}
