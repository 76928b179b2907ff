//! The words of a TD's virtual processors.

ghost use Rattle.std.specs.Prelude.{◌≡◌, ◌+◌, ◌*◌, ◌<◌, ◌≤◌, length, MatchResult};
ghost use Rattle.leaf_engine.specs.Inside.{StopIn, StopEarly};
ghost use Rattle.leaf_parts.specs.Parts.{Goes, Feeds, Uses};
ghost use Rattle.leaf_parts.specs.Vps.{vp_tree, vps_from, vps_tree};

use crate::words::{page_told, vps_told};
use leaf_engine::{Stop, Told};
use td_words::places::{TDCS_VP_COUNT, TDCS_VPS};
use td_words::{Machine, word_address};

/// A word of each virtual processor of a TD: the TDCS page, which names their pages, the number of
/// the word in its page, and what it is compared with.
#[derive(Clone, Copy, Debug, PartialEq, Eq)]
pub struct VpWord {
    pub tdcs: u16,
    pub at: u16,
    pub word: u64,
}

/// How many of a TD's virtual processors have another word there.
pub fn vps_apart(told: &mut Told, machine: Machine, asked: VpWord) -> Result<u64, Stop>
    requires { (asked.tdcs < machine.pages) × (asked.at < 512) }
    ensures goes { Goes machine.pages (λ f. vps_tree machine.pages asked f) told.old.left.now told.new.left.now result }
    ensures feeds { Feeds (λ f. vps_tree machine.pages asked f) told.old.left.now told.new.left.now result }
    ensures early { MatchResult result (λ n. length told.old.left.now ≤ 17 + length told.new.left.now) (λ e. StopEarly 17 (length told.old.left.now) e) }
    ensures inside { MatchResult result (λ n. Unit {0}) (λ e. StopIn machine e) }
{
    let count = told.load(word_address(asked.tdcs, TDCS_VP_COUNT))?;
    apart_from(told, machine, asked, 0, vps_told(count), 0)
}

/// Of those from that number on, and of those before them.
fn apart_from(
    told: &mut Told,
    machine: Machine,
    asked: VpWord,
    number: u16,
    left: u16,
    apart: u64,
) -> Result<u64, Stop>
    requires { (asked.tdcs < machine.pages) × (asked.at < 512) × (number + left ≤ 8) × (apart ≤ number) }
    ensures goes { Goes machine.pages (λ f. vps_from machine.pages asked number left apart f) told.old.left.now told.new.left.now result }
    ensures feeds { Feeds (λ f. vps_from machine.pages asked number left apart f) told.old.left.now told.new.left.now result }
    ensures uses { Uses (2 * left) told.old.left.now told.new.left.now result }
    ensures inside { MatchResult result (λ n. Unit {0}) (λ e. StopIn machine e) }
{
    if left == 0 {
        return Ok(apart);
    }
    let word = vp_word(told, machine, asked, number)?;
    let more = u64::from(word != asked.word);
    apart_from(told, machine, asked, number + 1, left - 1, apart + more)
}

/// The word of the one of that number.
fn vp_word(told: &mut Told, machine: Machine, asked: VpWord, number: u16) -> Result<u64, Stop>
    requires { (asked.tdcs < machine.pages) × (asked.at < 512) × (number < 8) }
    ensures goes { Goes machine.pages (λ f. vp_tree machine.pages asked number f) told.old.left.now told.new.left.now result }
    ensures feeds { Feeds (λ f. vp_tree machine.pages asked number f) told.old.left.now told.new.left.now result }
    ensures uses { Uses 2 told.old.left.now told.new.left.now result }
    ensures inside { MatchResult result (λ w. Unit {0}) (λ e. StopIn machine e) }
{
    let vp = told.load(word_address(asked.tdcs, TDCS_VPS + number))?;
    let page = page_told(machine.pages, vp);
    told.load(word_address(page, asked.at))
}
