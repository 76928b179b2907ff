//! The streams of a TD, and a word of each of their pages.

ghost use Rattle.std.specs.Prelude.{◌≡◌, ◌+◌, ◌<◌, ◌≤◌, length, MatchResult};
ghost use Rattle.std.specs.List.{All};
ghost use Rattle.arrayvec.specs.ArrayVec.{ArrayVec};
ghost use Rattle.leaf_engine.specs.Inside.{StopIn, StopEarly};
ghost use Rattle.leaf_parts.specs.Parts.{Goes, Feeds, Uses};
ghost use Rattle.stream_parts.specs.Streams.{streams_told, page_tree, pages_from, pages_tree, sum_from, sum_tree};

use arrayvec::ArrayVec;
use leaf_engine::{Stop, Told};
use leaf_parts::page_told;
use td_words::places::{TDCS_STREAM_COUNT, TDCS_STREAMS};
use td_words::{Machine, word_address};

/// At most how many streams a TD has.
pub const STREAMS: usize = 4;

/// The pages of a TD's streams, in the order of their numbers.
pub fn stream_pages(
    told: &mut Told,
    machine: Machine,
    tdcs: u16,
) -> Result<ArrayVec<u16, STREAMS>, Stop>
    requires { tdcs < machine.pages }
    ensures goes { Goes machine.pages (λ f. pages_tree machine.pages tdcs f) told.old.left.now told.new.left.now result }
    ensures feeds { Feeds (λ f. pages_tree machine.pages tdcs f) told.old.left.now told.new.left.now result }
    ensures early { MatchResult result (λ ps. length told.old.left.now ≡ 1 + length ps.items + length told.new.left.now) (λ e. StopEarly 5 (length told.old.left.now) e) }
    ensures inside { MatchResult result (λ ps. All (λ p. p < machine.pages) ps.items × (length ps.items ≤ 4)) (λ e. StopIn machine e) }
{
    let count = told.load(word_address(tdcs, TDCS_STREAM_COUNT))?;
    pages_from(told, machine, tdcs, 0, streams_told(count), ArrayVec::new())
}

/// The number of a TD's streams that is told, and 4 where it is more, which never stands where it is
/// told.
fn streams_told(count: u64) -> u16
    ensures { (result ≡ streams_told count) × (result ≤ 4) }
{
    if count < 4 { count as u16 } else { 4 }
}

/// Those of so many streams from that number on, behind those of the streams before them.
fn pages_from(
    told: &mut Told,
    machine: Machine,
    tdcs: u16,
    number: u16,
    left: u16,
    pages: ArrayVec<u16, STREAMS>,
) -> Result<ArrayVec<u16, STREAMS>, Stop>
    requires small { (tdcs < machine.pages) × (number + left ≤ 4) }
    requires pages { (length pages.items ≡ number) × All (λ p. p < machine.pages) pages.items }
    ensures goes { Goes machine.pages (λ f. pages_from machine.pages tdcs number left pages f) told.old.left.now told.new.left.now result }
    ensures feeds { Feeds (λ f. pages_from machine.pages tdcs number left pages f) told.old.left.now told.new.left.now result }
    ensures uses { Uses left told.old.left.now told.new.left.now result }
    ensures inside { MatchResult result (λ ps. All (λ p. p < machine.pages) ps.items × (length ps.items ≡ number + left)) (λ e. StopIn machine e) }
{
    if left == 0 {
        return Ok(pages);
    }
    let page = stream_page(told, machine, tdcs, number)?;
    let mut pages = pages;
    pages.push(page);
    pages_from(told, machine, tdcs, number + 1, left - 1, pages)
}

/// The page of the stream of that number.
pub fn stream_page(told: &mut Told, machine: Machine, tdcs: u16, number: u16) -> Result<u16, Stop>
    requires { (tdcs < machine.pages) × (number < 4) }
    ensures goes { Goes machine.pages (λ f. page_tree machine.pages tdcs number f) told.old.left.now told.new.left.now result }
    ensures feeds { Feeds (λ f. page_tree machine.pages tdcs number f) told.old.left.now told.new.left.now result }
    ensures uses { Uses 1 told.old.left.now told.new.left.now result }
    ensures inside { MatchResult result (λ p. p < machine.pages) (λ e. StopIn machine e) }
{
    let stream = told.load(word_address(tdcs, TDCS_STREAMS + number))?;
    Ok(page_told(machine.pages, stream))
}

/// The sum of that word of these pages, modulo 2^64.
pub fn stream_sum(told: &mut Told, machine: Machine, pages: &[u16], at: u16) -> Result<u64, Stop>
    requires { All (λ p. p < machine.pages) pages.now × (at < 512) }
    ensures goes { Goes machine.pages (λ f. sum_tree at pages.now f) told.old.left.now told.new.left.now result }
    ensures feeds { Feeds (λ f. sum_tree at pages.now f) told.old.left.now told.new.left.now result }
    ensures uses { Uses (length pages.now) told.old.left.now told.new.left.now result }
    ensures inside { MatchResult result (λ n. Unit {0}) (λ e. StopIn machine e) }
{
    sum_from(told, machine, pages, at, 0)
}

/// And of what came before.
fn sum_from(
    told: &mut Told,
    machine: Machine,
    pages: &[u16],
    at: u16,
    sum: u64,
) -> Result<u64, Stop>
    requires { All (λ p. p < machine.pages) pages.now × (at < 512) }
    ensures goes { Goes machine.pages (λ f. sum_from at pages.now sum f) told.old.left.now told.new.left.now result }
    ensures feeds { Feeds (λ f. sum_from at pages.now sum f) told.old.left.now told.new.left.now result }
    ensures uses { Uses (length pages.now) told.old.left.now told.new.left.now result }
    ensures inside { MatchResult result (λ n. Unit {0}) (λ e. StopIn machine e) }
{
    match pages {
        [] => Ok(sum),
        [page, rest @ ..] => {
            let word = told.load(word_address(*page, at))?;
            sum_from(told, machine, rest, at, sum.wrapping_add(word))
        }
    }
}
