//! Words that scripts and inputs give.
//!
//! That an opening of a script in form gives words of 64 bits, where its inputs do, and has lists of at
//! most 256 operations: what the laws of words and of containers ask of it. And that inputs do. A layer
//! above may use the law as the contract of the function of `laws`, and what `come_in_as_words` ensures.
#![tactic(auto)]

mod inputs;
mod laws;

pub use inputs::come_in_as_words;
pub use laws::scripts_give_words;
