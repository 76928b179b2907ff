//! `rtmr`.

ghost use Rattle.std.specs.Prelude.{◌≡◌, ℕ, ◌+◌, ◌*◌, ◌<◌, ◌≤◌, ◌++◌, length, MatchResult};
ghost use Rattle.td_words.specs.Place.{Word};
ghost use Rattle.flat_core.specs.Digests.{digest_word, digest_bytes, six_words};
ghost use Rattle.leaf_engine.specs.Decides.{Decides, ending};
ghost use Rattle.leaf_engine.specs.Inside.{StopIn, DecisionIn, DecidesEarly};
ghost use Rattle.leaf_parts.specs.Parts.{Goes, Uses};
ghost use Rattle.access_core.specs.RtmrTrees.{with_words, extension, extend_held, rtmr_changes};

use crate::guest_words::store_next;
use leaf_engine::{Act, Hand, Place, Plan, Stop, Told, Verdict, Write};
use leaf_parts::{page_told, put_bytes};
use mrtd_measure::rtmr_next;
use td_words::places::{TDCS_RTMR_LOCK, TDCS_RTMRS, TDR_TDCS, VP_POSITION, VP_REGISTERS};
use td_words::{LockName, Mode, Reply, Value, word_address};

/// `rtmr I`, at a call line: an RTMR is extended by registers 0 to 5.
#[derive(Drop)]
pub struct Rtmr {
    place: Place,
    tdr: u16,
    vp: u16,
    line: usize,
    index: u8,
    ghost inside: { (tdr < place.machine.pages) × (vp < place.machine.pages) },
    ghost few: { index < 4 },
}

impl Rtmr {
    ghost use Rattle.std.specs.Prelude.{◌≡◌, ◌<◌};
    ghost use Rattle.access_core.specs.RtmrTrees.{rtmr_task};

    /// The plan of an operation of a virtual processor, at a place.
    pub fn plan(place: Place, tdr: u16, vp: u16, line: usize, index: u8) -> Rtmr
        requires inside { (tdr < place.machine.pages) × (vp < place.machine.pages) }
        requires few { index < 4 }
        ensures { ⟦<Rtmr as Plan>⟧.task result ≡ rtmr_task place tdr vp line index }
    {
        Rtmr {
            place,
            tdr,
            vp,
            line,
            index,
        }
    }
}

impl Plan for Rtmr {
    ghost use Rattle.std.specs.Prelude.{◌&&◌, nat_lt, nat_le, length, drop};
    ghost use Rattle.access_core.specs.RtmrTrees.{rtmr_changes, rtmr_task};
    ghost use Rattle.access_core.specs.RtmrMeanings.{rtmr-means};

    ghost task = { λ l. rtmr_task l.place l.tdr l.vp l.line l.index };

    ghost changes = { λ l told a. rtmr_changes l.vp l.index a.page a.count (drop 2 told) };

    ghost shown = { λ l told a. nat_lt a.page l.place.machine.pages && nat_le 15 (length told) };

    fn decide(&self, told: Told) -> Result<Verdict, Stop> {
        let mut told = told;
        let word = told.load(word_address(self.tdr, TDR_TDCS))?;
        let tdcs = page_told(self.place.machine.pages, word);
        told.lock(
            LockName::Rtmr,
            word_address(tdcs, TDCS_RTMR_LOCK),
            Mode::Exclusive,
        )?;
        extend(told, self.place, tdcs, self.vp, self.index)
    }

    // The store of the first word is the act; then come the others, and the position. The new value is
    // hashed again for each word, from what was told, since an act has no room for it: that is one
    // block.
    fn write(&self, act: Act, told: &[u64], number: usize, _hand: &mut Hand) -> Option<Write> {
        match number {
            0..=5 => {
                let words = extension(&told[2..8], &told[8..14]);
                let at = TDCS_RTMRS + 6 * u16::from(self.index) + number as u16;
                Some(Write::store(word_address(act.page, at), words[number]))
            }
            6 => Some(store_next(self.vp, act.count)),
            _ => None,
        }
    }

    ghost means = { λ l. rtmr-means l.place l.tdr l.vp l.line l.index l.few };
}

/// Under R of the TD alone the old value is told, and the registers.
fn extend(told: Told, place: Place, tdcs: u16, vp: u16, index: u8) -> Result<Verdict, Stop>
    requires { (tdcs < place.machine.pages) × (vp < place.machine.pages) × (index < 4) }
    ensures decides { (line : ℕ) → Decides place.machine.pages (extend_held vp line index tdcs) told.entry.left.now (ending (λ a. rtmr_changes vp index a.page a.count told.entry.left.now) result) }
    ensures inside { DecisionIn place.machine (λ a. (a.page < place.machine.pages) × (13 ≤ length told.entry.left.now)) result }
    ensures early { DecidesEarly 13 (length told.entry.left.now) result }
{
    let mut told = told;
    let old = six_told(&mut told, place, tdcs, TDCS_RTMRS + 6 * u16::from(index))?;
    let given = six_told(&mut told, place, vp, VP_REGISTERS)?;
    let position = told.load(word_address(vp, VP_POSITION))?;
    Ok(Verdict {
        reply: Reply::Done(Value::Digest(digest(&extension(&old, &given)))),
        act: Act {
            page: tdcs,
            count: position,
            ..Act::NONE
        },
    })
}

/// Six words of a page, from that one on.
fn six_told(told: &mut Told, place: Place, page: u16, from: u16) -> Result<[u64; 6], Stop>
    requires { (page < place.machine.pages) × (from + 6 ≤ 512) }
    ensures goes { Goes place.machine.pages (λ f. with_words (λ k. Word page (from + k)) 0 6 f) told.old.left.now told.new.left.now result }
    ensures told { MatchResult result (λ ws. told.old.left.now ≡ ws ++ told.new.left.now) (λ e. Unit {0}) }
    ensures uses { Uses 6 told.old.left.now told.new.left.now result }
    ensures inside { MatchResult result (λ ws. length ws ≡ 6) (λ e. StopIn place.machine e) }
{
    let a = told.load(word_address(page, from))?;
    let b = told.load(word_address(page, from + 1))?;
    let c = told.load(word_address(page, from + 2))?;
    let d = told.load(word_address(page, from + 3))?;
    let e = told.load(word_address(page, from + 4))?;
    let f = told.load(word_address(page, from + 5))?;
    Ok([a, b, c, d, e, f])
}

/// The words of an RTMR's new value.
fn extension(old: &[u64], given: &[u64]) -> [u64; 6]
    requires { (length old.now ≡ 6) × (length given.now ≡ 6) }
    ensures { result ≡ six_words (extension old.now given.now) }
{
    let mut was = [0; 48];
    put_bytes(old, &mut was);
    let mut by = [0; 48];
    put_bytes(given, &mut by);
    let next = rtmr_next(&was, &by);
    [
        digest_word(&next, 0),
        digest_word(&next, 1),
        digest_word(&next, 2),
        digest_word(&next, 3),
        digest_word(&next, 4),
        digest_word(&next, 5),
    ]
}

/// The word of that number among a digest's.
fn digest_word(digest: &[u8; 48], k: usize) -> u64
    requires { k < 6 }
    ensures { result ≡ digest_word digest.now k }
{
    let mut bytes = [0; 8];
    bytes.copy_from_slice(&digest[8 * k..8 * k + 8]);
    u64::from_le_bytes(bytes)
}

/// The bytes of a digest's words.
fn digest(words: &[u64; 6]) -> [u8; 48]
    ensures { result ≡ digest_bytes words.now }
{
    let mut bytes = [0; 48];
    put_bytes(words, &mut bytes);
    bytes
}
