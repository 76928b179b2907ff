//! The lines of HOST.READ and HOST.WRITE.

ghost use Rattle.std.specs.Prelude.{ℕ, ◌≡◌, ◌∷◌, [], Some, Ok, map, MatchOption};
ghost use Rattle.line_words.specs.Number.{number};
ghost use Rattle.line_words.specs.Words.{words};
ghost use Rattle.script_text.specs.Line.{call_in};

use crate::lines::Entry;
use crate::operations::last_number;
use line_words::{behind_name, next_number};
use td_words::Call;

// The two numbers that a text's words are. None tells nothing.
fn two_numbers(text: &[u8]) -> Option<(u64, u64)>
    ensures { MatchOption result Unit (λ n. map number (words text.now) ≡ Some n.0 ∷ Some n.1 ∷ []) }
{
    let (first, rest) = next_number(text)?;
    let first = first?;
    let second = last_number(rest)?;
    Some((first, second))
}

// The three numbers that a text's words are. None tells nothing.
fn three_numbers(text: &[u8]) -> Option<(u64, u64, u64)>
    ensures { MatchOption result Unit (λ n. map number (words text.now) ≡ Some n.0 ∷ Some n.1 ∷ Some n.2 ∷ []) }
{
    let (first, rest) = next_number(text)?;
    let first = first?;
    let (second, third) = two_numbers(rest)?;
    Some((first, second, third))
}

/// The host access that a text says in a processor's block, where it begins with its mnemonic, and no
/// reason holds that it is none. None tells nothing.
#[tactic(auto, using(crate::proofs::CallLines::read_said, crate::proofs::CallLines::write_said))]
pub fn short_access(text: &[u8]) -> Option<Call>
    ensures { MatchOption result Unit (λ c. (lp : ℕ) → call_in lp (words text.now) ≡ Ok (Entry.Call lp c)) }
{
    if let Some(rest) = behind_name("HOST.READ", text) {
        let (page, word) = two_numbers(rest)?;
        Some(Call::HostRead { page, word })
    } else if let Some(rest) = behind_name("HOST.WRITE", text) {
        let (page, word, value) = three_numbers(rest)?;
        Some(Call::HostWrite { page, word, value })
    } else {
        None
    }
}
