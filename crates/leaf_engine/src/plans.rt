//! Plans: a leaf as a function of the words that it was told.

ghost use Rattle.std.specs.Prelude.{◌≡◌, ℕ, ◌+◌, ◌-◌, ◌*◌, ◌<◌, Bool, true, false, List, [], ◌∷◌, length, drop, Err, MatchOption, MatchResult};
ghost use Rattle.td_words.specs.declared.replies.Reply.TheVariants.{Refused};
ghost use Rattle.leaf_engine.specs.Changes.{Change};
ghost use Rattle.leaf_engine.specs.Trees.{feed, changes_of};
ghost use Rattle.leaf_engine.specs.Decides.{Decides, HandsAt, ending, need_for, told_then};
ghost use Rattle.leaf_engine.specs.Inside.{DecisionIn, DecidesEarly, StopEarly, is_load};
ghost use Rattle.leaf_engine.specs.Means.{Task, MeansRow};

use crate::leaves::Leaf;
use crate::needs::{Hand, Need, Write};
use arrayvec::ArrayVec;
use mrtd_measure::Measure;
use td_words::{EntryState, LockName, Mode, Reply, Status, Value};

/// At most how many locks and loads a plan has.
pub const ANSWERS: usize = 32;

/// Why a plan goes no further: it wants a lock or a word, or one of its conditions fails.
#[derive(Clone, Copy, Debug, PartialEq, Eq)]
pub enum Stop {
    Lock { name: LockName, at: u32, mode: Mode },
    Load(u32),
    Refused(Reply),
}

/// What a plan's writes depend on besides what its call is given and was told: of these what the call
/// uses, and 0 elsewhere.
#[derive(Clone, Copy, Debug, PartialEq, Eq)]
pub struct Act {
    /// The TDCS page, or the secure EPT page in which an entry stands.
    pub page: u16,
    /// The HKID that the TDR page tells.
    pub hkid: u64,
    /// How many pages or virtual processors the TD has of a kind, before; where a guest is entered or
    /// left, the epoch of that entry; of a guest's operation, its position.
    pub count: u64,
    /// The child count, before.
    pub children: u64,
    /// The page that a secure EPT entry names.
    pub named: u16,
    /// The state of that entry, before.
    pub state: EntryState,
    /// TD_EPOCH, before.
    pub epoch: u64,
    /// The page that is filled with zeros before, where one is.
    pub cleared: Option<u16>,
}

impl Act {
    /// Of a call whose writes depend on nothing besides.
    pub const NONE: Act = Act {
        page: 0,
        hkid: 0,
        count: 0,
        children: 0,
        named: 0,
        state: EntryState::Free,
        epoch: 0,
        cleared: None,
    };
}

/// What a plan ends with: its reply, and its act.
#[derive(Clone, Copy, Debug, PartialEq, Eq)]
pub struct Verdict {
    pub reply: Reply,
    pub act: Act,
}

impl Verdict {
    ghost use Rattle.td_words.specs.declared.replies.Reply.TheVariants.{Done};
    ghost use Rattle.td_words.specs.declared.replies.Value.TheVariants.{Nothing};

    /// Of a call that answers nothing.
    pub fn done(act: Act) -> Verdict
        ensures { result ≡ record { reply = Done Nothing; act = act } }
    {
        Verdict {
            reply: Reply::Done(Value::Nothing),
            act,
        }
    }

    /// Of a call that changes nothing.
    pub fn answer(value: Value) -> Verdict
        ensures { result.reply ≡ Done value }
    {
        Verdict {
            reply: Reply::Done(value),
            act: Act::NONE,
        }
    }
}

/// The answers that a plan was told, as it goes through them.
#[derive(Drop)]
pub struct Told<'a> {
    pub left: &'a [u64],
}

impl<'a> Told<'a> {
    /// A condition of a call.
    pub fn check(&self, holds: bool, status: Status) -> Result<(), Stop>
        ensures { MatchResult result (λ u. holds ≡ true) (λ e. (holds ≡ false) × (e ≡ Stop.Refused (Refused status))) }
    {
        self.check_or(holds, Reply::Refused(status))
    }

    /// A condition, with the reply where it fails.
    pub fn check_or(&self, holds: bool, reply: Reply) -> Result<(), Stop>
        ensures { MatchResult result (λ u. holds ≡ true) (λ e. (holds ≡ false) × (e ≡ Stop.Refused reply)) }
    {
        if holds {
            Ok(())
        } else {
            Err(Stop::Refused(reply))
        }
    }

    /// The try of the lock whose word stands at an address.
    pub fn lock(&mut self, name: LockName, at: u32, mode: Mode) -> Result<(), Stop>
        ensures { MatchResult result (λ u. (word : ℕ) × (self.old.left.now ≡ word ∷ self.new.left.now))
            (λ e. (self.old.left.now ≡ []) × (e ≡ Stop.Lock name at mode)) }
    {
        match self.left {
            [] => Err(Stop::Lock { name, at, mode }),
            [_, further @ ..] => {
                self.left = further;
                Ok(())
            }
        }
    }

    /// The word at an address.
    pub fn load(&mut self, at: u32) -> Result<u64, Stop>
        ensures { MatchResult result (λ word. self.old.left.now ≡ word ∷ self.new.left.now)
            (λ e. (self.old.left.now ≡ []) × (e ≡ Stop.Load at)) }
    {
        match self.left {
            [] => Err(Stop::Load(at)),
            [word, further @ ..] => {
                self.left = further;
                Ok(*word)
            }
        }
    }
}

/// A row as a function of the words that it was told.
pub trait Plan {
    ghost use Rattle.leaf_engine.specs.declared.plans.Act.{Act};

    /// Where it was made for, its tree, and its row.
    ghost task: { Self → Task };

    /// All changes of an act, in order, where it was told these words.
    ghost changes: { Self → List ℕ → Act → List Change };

    /// What its conditions have shown of an act.
    ghost shown: { Self → List ℕ → Act → Bool };

    /// How far it comes with these words.
    fn decide(&self, told: Told) -> Result<Verdict, Stop>
        ensures decides { let xs = told.entry.left.now in Decides (task self.now).place.machine.pages (task self.now).tree xs (ending (changes self.now xs) result) }
        ensures inside { DecisionIn (task self.now).place.machine (λ a. shown self.now told.entry.left.now a ≡ true) result }
        ensures early { DecidesEarly 32 (length told.entry.left.now) result };

    /// The write of that number of an act, made with the hasher in hand.
    fn write(&self, act: Act, told: &[u64], number: usize, hand: &mut Hand) -> Option<Write>
        requires { shown self.now told.now act ≡ true }
        ensures hands { HandsAt (task self.now).place.machine (changes self.now told.now act) number hand.old hand.new result }
        ensures few { MatchOption result Unit (λ w. number < 24) };

    ghost means: { (p : Self) → MeansRow (task p) };
}

/// What is needed where a decision stops. A lock counts as granted at the next one.
pub fn need_at(stop: Stop, told: &mut ArrayVec<u64, ANSWERS>, waits: &mut bool) -> Need
    requires early { StopEarly 32 (length told.old.items) stop }
    requires ready { waits.old ≡ false }
    ensures need { result ≡ need_for (Err stop) }
    ensures told { told.new.items ≡ told_then told.old.items stop }
    ensures waits { waits.new ≡ is_load result }
{
    match stop {
        Stop::Lock { name, at, mode } => {
            told.push(0);
            Need::Lock { name, at, mode }
        }
        Stop::Load(at) => {
            *waits = true;
            Need::Load(at)
        }
        Stop::Refused(reply) => Need::Verdict(reply),
    }
}

ghost use Rattle.std.specs.Prelude.{IfSome};
ghost use Rattle.std.proofs.Props.{props};

/// How far a leaf is that goes by a plan, apart from the plan: what it was told, and how many writes of its
/// act it has handed out.
#[derive(Drop)]
pub struct Progress {
    told: ArrayVec<u64, ANSWERS>,
    written: usize,
    waits: bool,
    ghost room: { waits ≡ true → length told.items < 32 },
}

/// A leaf that goes by a plan. The act is kept once it was decided.
#[derive(Drop)]
pub struct Planned<P: Plan + Drop> {
    plan: P,
    told: ArrayVec<u64, ANSWERS>,
    act: Option<Act>,
    written: usize,
    waits: bool,
    ghost room: { waits ≡ true → length told.items < 32 },
    ghost known: { IfSome act (λ a. (changes_of (feed (P.task plan).tree told.items) ≡ P.changes plan told.items a) × (P.shown plan told.items a ≡ true)) } by { Prim.hlevel props },
}

impl<P: Plan + Drop> Planned<P> {
    ghost use Rattle.std.specs.Prelude.{◌≡◌};
    ghost use Rattle.leaf_engine.specs.Turns.{IsFresh};

    /// Nothing is told yet.
    pub fn new(plan: P) -> Planned<P>
        ensures plan { result.plan ≡ plan }
        ensures fresh { let leaf = ⟦<Planned<P> as Leaf>⟧ in IsFresh (leaf.task result).tree (leaf.rest result) (leaf.tries result) (leaf.written result) (leaf.waits result) }
    {
        Planned {
            plan,
            told: ArrayVec::new(),
            act: None,
            written: 0,
            waits: false,
        }
    }

    /// The plan, and how far it is by that.
    pub fn into_parts(self) -> (P, Progress)
        ensures plan { result.0 ≡ self.plan }
        ensures told { result.1.told ≡ self.told }
        ensures written { (result.1.written ≡ self.written) × (result.1.waits ≡ self.waits) }
    {
        let Planned {
            plan,
            told,
            act: _,
            written,
            waits,
        } = self;
        (
            plan,
            Progress {
                told,
                written,
                waits,
            },
        )
    }

    /// As far by this plan. Its act is decided anew.
    pub fn resumed(plan: P, progress: Progress) -> Planned<P>
        ensures plan { result.plan ≡ plan }
        ensures told { result.told ≡ progress.told }
        ensures written { (result.written ≡ progress.written) × (result.waits ≡ progress.waits) }
    {
        let Progress {
            told,
            written,
            waits,
        } = progress;
        Planned {
            plan,
            told,
            act: None,
            written,
            waits,
        }
    }

    /// The plan that it goes by.
    pub fn plan(&self) -> &P
        ensures { result.now ≡ self.now.plan }
    {
        &self.plan
    }

    /// The words that it was told, in order; 0 for each lock that was granted.
    pub fn told(&self) -> &[u64]
        ensures { result.now ≡ self.now.told.items }
    {
        self.told.as_slice()
    }

    /// The act, where its words decide on one.
    fn act(&self) -> Option<Act>
        ensures { MatchOption result (changes_of (feed (P.task self.now.plan).tree self.now.told.items) ≡ [])
            (λ a. (changes_of (feed (P.task self.now.plan).tree self.now.told.items) ≡ P.changes self.now.plan self.now.told.items a) × (P.shown self.now.plan self.now.told.items a ≡ true)) }
    {
        match self.act {
            Some(act) => Some(act),
            None => match self.plan.decide(Told {
                left: self.told.as_slice(),
            }) {
                Ok(verdict) => Some(verdict.act),
                Err(_) => None,
            },
        }
    }
}

ghost use Rattle.std.specs.Prelude.{if◌then◌else◌};

impl<P: Plan + Drop> Leaf for Planned<P> {
    ghost use Rattle.std.specs.Prelude.{◌≡◌, ℕ, ◌+◌, ◌-◌, ◌*◌, length, if◌then◌else◌};
    ghost use Rattle.leaf_engine.specs.Trees.{feed};

    ghost task = { λ l. P.task l.plan };

    ghost rest = { λ l. feed (P.task l.plan).tree l.told.items };

    ghost written = { λ l. l.written };

    ghost waits = { λ l. l.waits };

    ghost bound = { λ l. 2 * (32 - length l.told.items) + (24 - l.written) - (if l.waits then 1 else 0) };

    ghost tries = { λ l. 32 - length l.told.items };

    ghost Origin = { P };

    ghost origin = { λ l. l.plan };

    fn need(&mut self) -> Need {
        match self.plan.decide(Told {
            left: self.told.as_slice(),
        }) {
            Ok(verdict) => {
                self.act = Some(verdict.act);
                Need::Verdict(verdict.reply)
            }
            Err(stop) => {
                self.act = None;
                need_at(stop, &mut self.told, &mut self.waits)
            }
        }
    }

    fn tell(&mut self, word: u64) {
        self.waits = false;
        self.act = None;
        self.told.push(word);
    }

    fn write(&mut self, hasher: &mut Option<Measure>) -> Option<Write> {
        let act = self.act()?;
        let write = self
            .plan
            .write(act, self.told.as_slice(), self.written, hasher)?;
        self.written += 1;
        Some(write)
    }

    ghost means = { λ l. P.means l.plan };
}
