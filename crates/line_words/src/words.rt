//! Lines and words.

ghost use Rattle.std.specs.Prelude.{ℕ, ◌≡◌, ◌≢◌, ◌+◌, ◌<◌, ◌≤◌, slice_index, ◌==◌, true, false, [], ◌∷◌, length, position, MatchOption};
ghost use Rattle.std.specs.List.{slice_split};
ghost use Rattle.line_words.specs.Words.{pieces, words, is_printable_byte, is_printable, without_front_spaces, is_comment, is_skipped};

use std::simd::prelude::*;

/// The first place at which that byte stands.
pub fn place_of(bytes: &[u8], byte: u8) -> Option<usize>
    ensures { result ≡ position (λ b. b == byte) bytes.now }
{
    bytes.iter().position(|b| *b == byte)
}

fn is_printable_byte(byte: u8) -> bool
    ensures { result ≡ is_printable_byte byte }
{
    0x20 <= byte && byte <= 0x7e
}

// How many of sixteen bytes stand before the first that isn't printable; 16 where all are.
fn printable_run(bytes: &[u8], from: usize) -> usize
    requires { from + 16 ≤ length bytes.now }
    ensures most { result ≤ 16 }
    ensures before { (k : ℕ) → from ≤ k → k < from + result → is_printable_byte (slice_index bytes.now k) ≡ true }
    ensures here { result < 16 → is_printable_byte (slice_index bytes.now (from + result)) ≡ false }
{
    // The printable bytes are the first 95 from the space on.
    let from_space = u8x16::from_slice(&bytes[from..]) + u8x16::splat(0xe0);
    let others = from_space.simd_gt(u8x16::splat(94)).to_bitmask();
    if others == 0 {
        16
    } else {
        others.trailing_zeros() as usize
    }
}

// The first place from that one on whose byte isn't printable; the length where all are.
fn unprintable_from(bytes: &[u8], from: usize) -> usize
    requires inside { from ≤ length bytes.now }
    requires before { (k : ℕ) → k < from → is_printable_byte (slice_index bytes.now k) ≡ true }
    ensures inside { result ≤ length bytes.now }
    ensures before { (k : ℕ) → k < result → is_printable_byte (slice_index bytes.now k) ≡ true }
    ensures here { result < length bytes.now → is_printable_byte (slice_index bytes.now result) ≡ false }
{
    let mut at = from;
    while at < bytes.len() && is_printable_byte(bytes[at]) {
        at += 1;
    }
    at
}

// The first place whose byte isn't printable; the length where all are.
fn unprintable_place(bytes: &[u8]) -> usize
    ensures inside { result ≤ length bytes.now }
    ensures before { (k : ℕ) → k < result → is_printable_byte (slice_index bytes.now k) ≡ true }
    ensures here { result < length bytes.now → is_printable_byte (slice_index bytes.now result) ≡ false }
{
    let mut from = 0;
    while from + 16 <= bytes.len() {
        let run = printable_run(bytes, from);
        if run < 16 {
            return from + run;
        }
        from += 16;
    }
    unprintable_from(bytes, from)
}

/// A line, whether each of its bytes is printable ASCII, and what stands behind its newline.
#[derive(Clone, Copy)]
pub struct Line<'a> {
    pub bytes: &'a [u8],
    pub is_printable: bool,
    pub rest: &'a [u8],
}

/// The first line, judged. None exactly where no newline stands.
#[tactic(auto, using(crate::proofs::Printable::printable_front, crate::proofs::Printable::good_cut, crate::proofs::Pieces::cut_none, crate::proofs::Pieces::short_some))]
pub fn next_line(bytes: &[u8]) -> Option<Line<'_>>
    ensures cut { MatchOption result (pieces bytes.now ≡ bytes.now ∷ []) (λ x. pieces bytes.now ≡ x.bytes.now ∷ pieces x.rest.now) }
    ensures printable { MatchOption result Unit (λ x. x.is_printable ≡ is_printable x.bytes.now) }
    ensures shorter { MatchOption result Unit (λ x. length x.rest.now < length bytes.now) }
{
    let place = unprintable_place(bytes);
    if place < bytes.len() && bytes[place] == b'\n' {
        return Some(Line {
            bytes: &bytes[..place],
            is_printable: true,
            rest: &bytes[place + 1..],
        });
    }
    let end = place_of(bytes, b'\n')?;
    Some(Line {
        bytes: &bytes[..end],
        is_printable: false,
        rest: &bytes[end + 1..],
    })
}

/// The first line, and what stands behind its newline. None exactly where no newline stands.
pub fn first_line(bytes: &[u8]) -> Option<(&[u8], &[u8])>
    ensures cut { MatchOption result (pieces bytes.now ≡ bytes.now ∷ []) (λ x. pieces bytes.now ≡ x.0.now ∷ pieces x.1.now) }
    ensures shorter { MatchOption result Unit (λ x. length x.1.now < length bytes.now) }
{
    let line = next_line(bytes)?;
    Some((line.bytes, line.rest))
}

/// What stands behind the spaces that a text begins with.
#[tactic(auto, using(crate::proofs::NextWords::front_kept))]
pub fn without_front_spaces(bytes: &[u8]) -> &[u8]
    ensures exact { result.now ≡ without_front_spaces bytes.now }
    ensures same { words result.now ≡ words bytes.now }
    ensures front { 0 < length result.now → slice_index result.now 0 ≢ 32 }
    ensures shorter { length result.now ≤ length bytes.now }
{
    let mut rest = bytes;
    while !rest.is_empty() && rest[0] == b' ' {
        rest = &rest[1..];
    }
    rest
}

#[tactic(auto, using(crate::proofs::Pieces::space_below))]
fn word_and_rest(text: &[u8]) -> (&[u8], &[u8])
    requires some { 0 < length text.now }
    requires front { slice_index text.now 0 ≢ 32 }
    ensures cut { words text.now ≡ result.0.now ∷ words result.1.now }
    ensures shorter { length result.1.now < length text.now }
{
    match place_of(text, b' ') {
        None => (text, &text[text.len()..]),
        Some(end) => (&text[..end], &text[end + 1..]),
    }
}

/// The first word of a text, and what stands behind the space after it. None exactly where the
/// text has no word.
pub fn next_word(bytes: &[u8]) -> Option<(&[u8], &[u8])>
    ensures cut { MatchOption result (words bytes.now ≡ []) (λ x. words bytes.now ≡ x.0.now ∷ words x.1.now) }
    ensures shorter { MatchOption result Unit (λ x. length x.1.now < length bytes.now) }
{
    let text = without_front_spaces(bytes);
    if text.is_empty() {
        return None;
    }
    Some(word_and_rest(text))
}

/// Whether a line has no words, or is a comment.
#[tactic(auto, using(crate::proofs::NextWords::first_byte, crate::proofs::NextWords::no_word))]
pub fn is_skipped(line: &[u8]) -> bool
    ensures { result ≡ is_skipped (words line.now) }
{
    let text = without_front_spaces(line);
    text.is_empty() || text[0] == b'#'
}

/// Whether a first word begins a comment.
pub fn is_comment(word: &[u8]) -> bool
    ensures { result ≡ is_comment word.now }
{
    word.first() == Some(&b'#')
}
