//! What is kept of a shared access between its events.

ghost use Rattle.std.specs.Prelude.{◌≡◌, ◌<◌, [], ◌∷◌};
ghost use Rattle.flat_core.specs.Guest.{shared_page};
ghost use Rattle.guest_turns.specs.Pages.{page_lock};

use leaf_engine::{Event, HeldLock};
use td_words::{Access, Reply};

/// How far a shared access is: its page's lock was denied, which is to be undone; it is held, and the act
/// comes next; or the act was made, an EPT violation or the access of a word by the operation at that
/// position, and the lock is to be given back.
#[derive(Clone, Copy)]
pub enum SharedStage {
    Denied,
    Locked,
    Violated,
    Completed { position: u64, word: u64 },
}

/// A shared access on its way: which one of a virtual processor, at which call line, how far it is, and
/// the lock of its page.
#[derive(Clone, Copy)]
pub struct SharedRun {
    pub access: Access,
    pub register: u8,
    pub vp: u16,
    pub page: u16,
    pub line: usize,
    pub gpa: u64,
    pub stage: SharedStage,
    pub lock: [HeldLock; 1],
    pub ghost few: { register < 8 },
    pub ghost named: { page ≡ shared_page gpa },
    pub ghost page_lock: { lock ≡ page_lock gpa ∷ [] },
}

/// A turn's event, the reply that its act comes to, where it is the act, and the reply at the last
/// event. Whatever makes a turn writes it into its place: handed back, it would be moved wherever two ways
/// meet.
#[derive(Clone, Copy)]
pub struct LeafTurn {
    pub event: Event,
    pub act: Option<Reply>,
    pub reply: Option<Reply>,
}

impl LeafTurn {
    ghost use Rattle.std.specs.Prelude.{◌≡◌, None};
    ghost use Rattle.leaf_engine.specs.declared.events.Event.TheVariants.{Act};

    /// A place for a turn, before it is made.
    pub fn unmade() -> LeafTurn
        ensures { result ≡ record { event = Act; act = None; reply = None } }
    {
        LeafTurn {
            event: Event::Act,
            act: None,
            reply: None,
        }
    }
}
