//! Numbers of a script.

ghost use Rattle.std.specs.Prelude.{◌≡◌, ◌<◌, ◌≤◌, true, Some, [], ◌∷◌, length, map, take, MatchOption};
ghost use Rattle.std.specs.List.{list_all};
ghost use Rattle.line_words.specs.Number.{digit, is_digit, number_on, digits_in, number};
ghost use Rattle.line_words.specs.Words.{words};

use crate::words::next_word;

/// A digit's value; 99 where the byte is no digit.
fn digit(byte: u8) -> u8
    ensures { result ≡ digit byte }
{
    match byte {
        b'0'..=b'9' => byte - b'0',
        b'a'..=b'f' => byte - b'a' + 10,
        b'A'..=b'F' => byte - b'A' + 10,
        _ => 99,
    }
}

fn digits_at(base: u8, word: &[u8]) -> Option<u64>
    ensures { result ≡ number_on base 0 word.now }
{
    let mut value = 0u64;
    for byte in word {
        let digit = digit(*byte);
        if digit >= base {
            return None;
        }
        let scaled = value.checked_mul(u64::from(base))?;
        value = scaled.checked_add(u64::from(digit))?;
    }
    Some(value)
}

// Behind any number up to this a digit may stand, whichever it is.
const SAFE: u64 = u64::MAX / 10 - 1;

// The same in base ten, with one test a digit: what this test doesn't pass is read again.
fn decimal_at(word: &[u8]) -> Option<u64>
    ensures { result ≡ number_on 10 0 word.now }
{
    let mut value = 0u64;
    for byte in word {
        if *byte < b'0' || *byte > b'9' || value > SAFE {
            return digits_at(10, word);
        }
        value = value * 10 + u64::from(*byte - b'0');
    }
    Some(value)
}

fn in_base(base: u8, word: &[u8]) -> Option<u64>
    ensures { result ≡ digits_in base word.now }
{
    if word.is_empty() {
        return None;
    }
    digits_at(base, word)
}

/// The number that a word is: decimal digits, or `0x` and hexadecimal digits, below 2^64.
pub fn number(word: &[u8]) -> Option<u64>
    ensures { result ≡ number word.now }
{
    if word.len() >= 2 && word[0] == b'0' && word[1] == b'x' {
        in_base(16, &word[2..])
    } else if word.is_empty() {
        None
    } else {
        decimal_at(word)
    }
}

// How many digits a text begins with, and their number. It ends early where a further digit may not fit.
fn digits_front(text: &[u8]) -> (usize, u64)
    ensures inside { result.0 ≤ length text.now }
    ensures digits { list_all is_digit (take result.0 text.now) ≡ true }
    ensures value { number_on 10 0 (take result.0 text.now) ≡ Some result.1 }
{
    let mut value = 0u64;
    let mut at = 0;
    while at < text.len() && b'0' <= text[at] && text[at] <= b'9' && value <= SAFE {
        value = value * 10 + u64::from(text[at] - b'0');
        at += 1;
    }
    (at, value)
}

// The number that a text's first word is, and what stands behind it, where the text begins with a few
// decimal digits. None tells nothing.
#[tactic(auto, using(crate::proofs::Decimals::last_number))]
fn short_number(text: &[u8]) -> Option<(u64, &[u8])>
    ensures cut { MatchOption result Unit (λ x. map number (words text.now) ≡ Some x.0 ∷ map number (words x.1.now)) }
    ensures shorter { MatchOption result Unit (λ x. length x.1.now < length text.now) }
{
    let (end, value) = digits_front(text);
    if end == 0 {
        return None;
    }
    if end == text.len() {
        return Some((value, &text[end..]));
    }
    if text[end] != b' ' {
        return None;
    }
    Some((value, &text[end + 1..]))
}

/// What the first word of a text is as a number, and what stands behind the space after it. None
/// exactly where the text has no word.
pub fn next_number(text: &[u8]) -> Option<(Option<u64>, &[u8])>
    ensures cut { MatchOption result (words text.now ≡ []) (λ x. map number (words text.now) ≡ x.0 ∷ map number (words x.1.now)) }
    ensures shorter { MatchOption result Unit (λ x. length x.1.now < length text.now) }
{
    if let Some((value, rest)) = short_number(text) {
        return Some((Some(value), rest));
    }
    let (word, rest) = next_word(text)?;
    Some((number(word), rest))
}

/// Writes what the first words of a text are as numbers, as many as there is room for, and answers how
/// many they are.
pub fn first_numbers(text: &[u8], numbers: &mut [Option<u64>]) -> usize
    ensures same { length numbers.new ≡ length numbers.old }
    ensures inside { result ≤ length numbers.old }
    ensures numbers { take result numbers.new ≡ map number (take (length numbers.old) (words text.now)) }
{
    let mut rest = text;
    for place in 0..numbers.len() {
        let Some((number, more)) = next_number(rest) else {
            return place;
        };
        numbers[place] = number;
        rest = more;
    }
    numbers.len()
}
