//! `report`.

ghost use Rattle.std.specs.Prelude.{◌≡◌, ℕ, ◌+◌, ◌<◌, ◌≤◌, true, false, [], ◌∷◌, take, drop, length, MatchOption, MatchResult, Err};
ghost use Rattle.td_words.specs.Address.{word_at};
ghost use Rattle.flat_core.specs.Digests.{digest_bytes};
ghost use Rattle.leaf_engine.specs.Decides.{HandsAt, need_for, told_then};
ghost use Rattle.leaf_engine.specs.Inside.{StopIn, TriesEarly, is_load};
ghost use Rattle.leaf_parts.specs.Parts.{Uses};
ghost use Rattle.access_core.specs.OperationTrees.{put_next};
ghost use Rattle.access_core.specs.ReportTrees.{AreLong, ReportComes};

use crate::guest_words::store_next;
use arrayvec::ArrayVec;
use leaf_engine::{Hand, Leaf, Need, Place, Stop, Told, Write};
use leaf_parts::{page_told, put_bytes};
use mrtd_measure::Measure;
use report_core::Facts;
use td_words::places::{
    TDCS_MRTD, TDCS_RTMR_LOCK, TDCS_RTMRS, TDR_TDCS, VP_POSITION, VP_REGISTERS,
};
use td_words::{LockName, Machine, Mode, Reply, Value, word_address};

/// At most how many tries and words the leaf has: the TDCS page, R, MRTD, the RTMRs, the registers and
/// the position.
const ANSWERS: usize = 41;

/// `report`, at a call line: the guest's facts are noted. It is told more words than a plan is.
#[derive(Drop)]
pub struct Report {
    place: Place,
    tdr: u16,
    vp: u16,
    line: usize,
    told: ArrayVec<u64, ANSWERS>,
    written: usize,
    waits: bool,
    ghost inside: { (tdr < place.machine.pages) × (vp < place.machine.pages) },
    ghost room: { waits ≡ true → length told.items < 41 },
}

/// What a report is made of, in words, and the position of its virtual processor.
#[derive(Drop)]
pub struct Reported<'a> {
    mrtd: &'a [u64],
    rtmrs: &'a [u64],
    registers: &'a [u64],
    position: u64,
}

impl<'a> Reported<'a> {
    ghost use Rattle.std.specs.Prelude.{◌≡◌};
    ghost use Rattle.access_core.specs.ReportTrees.{facts_told, AreLong};

    /// What they tell.
    fn facts(&self) -> Facts
        requires { AreLong self.now }
        ensures { result ≡ facts_told self.now.mrtd.now self.now.rtmrs.now self.now.registers.now }
    {
        let mut given = [0; 64];
        put_bytes(self.registers, &mut given);
        Facts {
            mrtd: digest(self.mrtd),
            rtmr0: digest(&self.rtmrs[..6]),
            rtmr1: digest(&self.rtmrs[6..12]),
            rtmr2: digest(&self.rtmrs[12..18]),
            rtmr3: digest(&self.rtmrs[18..24]),
            given,
        }
    }
}

impl Report {
    ghost use Rattle.std.specs.Prelude.{◌≡◌, [], ◌∷◌};
    ghost use Rattle.leaf_engine.specs.Besides.{reported};
    ghost use Rattle.leaf_engine.specs.Decides.{DecidesAs};
    ghost use Rattle.leaf_engine.specs.Trees.{answer_of, changes_of, feed};
    ghost use Rattle.leaf_engine.specs.Turns.{IsFresh};
    ghost use Rattle.access_core.specs.OperationTrees.{put_next};
    ghost use Rattle.access_core.specs.ReportTrees.{report_task, report_tree};

    /// The leaf of an operation of a virtual processor, at a place.
    pub fn leaf(place: Place, tdr: u16, vp: u16, line: usize) -> Report
        requires inside { (tdr < place.machine.pages) × (vp < place.machine.pages) }
        ensures task { ⟦<Report as Leaf>⟧.task result ≡ report_task place tdr vp line }
        ensures fresh { let leaf = ⟦<Report as Leaf>⟧ in IsFresh (leaf.task result).tree (leaf.rest result) (leaf.tries result) (leaf.written result) (leaf.waits result) }
    {
        Report {
            place,
            tdr,
            vp,
            line,
            told: ArrayVec::new(),
            written: 0,
            waits: false,
        }
    }

    /// The facts that it notes, once all is told.
    pub fn facts(&self) -> Option<Facts>
        ensures { result ≡ reported (answer_of (⟦<Report as Leaf>⟧.rest self.now)).notes }
    {
        match words_reported(self.told.as_slice(), self.place, self.tdr, self.vp) {
            Ok(words) => Some(words.facts()),
            Err(_) => None,
        }
    }

    /// Whether all is told, and else what comes next.
    fn decided(&self) -> Result<(), Stop>
        ensures decides { DecidesAs self.now.place.machine.pages (report_tree self.now.place.machine self.now.tdr self.now.vp self.now.line) self.now.told.items result }
        ensures inside { MatchResult result (λ u. Unit {0}) (λ e. StopIn self.now.place.machine e) }
        ensures early { MatchResult result (λ u. Unit {0}) (λ e. TriesEarly 2 41 (length self.now.told.items) e) }
    {
        match words_reported(self.told.as_slice(), self.place, self.tdr, self.vp) {
            Ok(_) => Ok(()),
            Err(stop) => Err(stop),
        }
    }

    /// The position of the virtual processor, once all is told.
    fn position(&self) -> Option<u64>
        ensures { MatchOption result (changes_of (feed (report_tree self.now.place.machine self.now.tdr self.now.vp self.now.line) self.now.told.items) ≡ [])
            (λ at. changes_of (feed (report_tree self.now.place.machine self.now.tdr self.now.vp self.now.line) self.now.told.items) ≡ put_next self.now.vp at ∷ []) }
    {
        match words_reported(self.told.as_slice(), self.place, self.tdr, self.vp) {
            Ok(words) => Some(words.position),
            Err(_) => None,
        }
    }
}

impl Leaf for Report {
    ghost use Rattle.std.specs.Prelude.{◌≡◌, ℕ, ◌+◌, ◌-◌, ◌*◌, length, if◌then◌else◌};
    ghost use Rattle.leaf_engine.specs.Trees.{feed};
    ghost use Rattle.access_core.specs.ReportTrees.{report_task, report_tree};
    ghost use Rattle.access_core.specs.ReportMeanings.{report-means};

    ghost task = { λ l. report_task l.place l.tdr l.vp l.line };

    ghost rest = { λ l. feed (report_tree l.place.machine l.tdr l.vp l.line) l.told.items };

    ghost written = { λ l. l.written };

    ghost waits = { λ l. l.waits };

    ghost bound = { λ l. 2 * (41 - length l.told.items) + (1 - l.written) - (if l.waits then 1 else 0) };

    ghost tries = { λ l. 2 - length l.told.items };

    ghost Origin = { Unit {0} };

    ghost origin = { λ l. tt };

    fn need(&mut self) -> Need {
        match self.decided() {
            Ok(()) => Need::Verdict(Reply::Done(Value::Nothing)),
            Err(stop) => need_more(stop, &mut self.told, &mut self.waits),
        }
    }

    fn tell(&mut self, word: u64) {
        self.waits = false;
        self.told.push(word);
    }

    fn write(&mut self, hasher: &mut Option<Measure>) -> Option<Write> {
        let position = self.position()?;
        let write = report_write(self.place.machine, self.vp, position, self.written, hasher)?;
        self.written += 1;
        Some(write)
    }

    ghost means = { λ l. report-means l.place l.tdr l.vp l.line };
}

/// What is needed where a decision stops. A lock counts as granted at the next one.
fn need_more(stop: Stop, told: &mut ArrayVec<u64, ANSWERS>, waits: &mut bool) -> Need
    requires early { TriesEarly 2 41 (length told.old.items) stop }
    requires ready { waits.old ≡ false }
    ensures need { result ≡ need_for (Err stop) }
    ensures told { told.new.items ≡ told_then told.old.items stop }
    ensures waits { waits.new ≡ is_load result }
{
    match stop {
        Stop::Lock { name, at, mode } => {
            told.push(0);
            Need::Lock { name, at, mode }
        }
        Stop::Load(at) => {
            *waits = true;
            Need::Load(at)
        }
        Stop::Refused(reply) => Need::Verdict(reply),
    }
}

/// The write of that number: the one store, of the position, is the act.
fn report_write(
    machine: Machine,
    vp: u16,
    position: u64,
    number: usize,
    hand: &mut Hand,
) -> Option<Write>
    requires { vp < machine.pages }
    ensures hands { HandsAt machine (put_next vp position ∷ []) number hand.old hand.new result }
    ensures few { MatchOption result Unit (λ w. number < 1) }
{
    match number {
        0 => Some(store_next(vp, position)),
        _ => None,
    }
}

/// What was told, under R of the TD, which others may have too.
fn words_reported<'a>(
    told: &'a [u64],
    place: Place,
    tdr: u16,
    vp: u16,
) -> Result<Reported<'a>, Stop>
    requires { (tdr < place.machine.pages) × (vp < place.machine.pages) }
    ensures comes { (line : ℕ) → ReportComes place tdr vp line told.now result }
    ensures inside { MatchResult result (λ x. AreLong x) (λ e. StopIn place.machine e) }
    ensures early { MatchResult result (λ x. Unit {0}) (λ e. TriesEarly 2 41 (length told.now) e) }
{
    let mut told = Told { left: told };
    let word = told.load(word_address(tdr, TDR_TDCS))?;
    let tdcs = page_told(place.machine.pages, word);
    told.lock(
        LockName::Rtmr,
        word_address(tdcs, TDCS_RTMR_LOCK),
        Mode::Shared,
    )?;
    let mrtd = words_told(&mut told, place, tdcs, TDCS_MRTD, 6)?;
    let rtmrs = words_told(&mut told, place, tdcs, TDCS_RTMRS, 24)?;
    let registers = words_told(&mut told, place, vp, VP_REGISTERS, 8)?;
    let position = told.load(word_address(vp, VP_POSITION))?;
    Ok(Reported {
        mrtd,
        rtmrs,
        registers,
        position,
    })
}

/// So many words of a page, from that one on.
fn words_told<'a>(
    told: &mut Told<'a>,
    place: Place,
    page: u16,
    from: u16,
    count: u16,
) -> Result<&'a [u64], Stop>
    requires { (page < place.machine.pages) × (from + count ≤ 512) }
    ensures told { MatchResult result (λ ws. (count ≤ length told.old.left.now) × (ws.now ≡ take count told.old.left.now) × (told.new.left.now ≡ drop count told.old.left.now))
        (λ e. (length told.old.left.now < count) × (e ≡ Stop.Load (word_at page (from + length told.old.left.now)))) }
    ensures uses { Uses count told.old.left.now told.new.left.now result }
    ensures inside { MatchResult result (λ ws. length ws.now ≡ count) (λ e. StopIn place.machine e) }
{
    let left = told.left;
    let length = left.len();
    if length < count as usize {
        return Err(Stop::Load(word_address(page, from + length as u16)));
    }
    told.left = &left[count as usize..];
    Ok(&left[..count as usize])
}

/// The bytes of a digest's words.
fn digest(words: &[u64]) -> [u8; 48]
    requires { length words.now ≡ 6 }
    ensures { result ≡ digest_bytes words.now }
{
    let mut bytes = [0; 48];
    put_bytes(words, &mut bytes);
    bytes
}
