//! What is kept of a host access between its events.

ghost use Rattle.std.specs.Prelude.{◌≡◌, ◌<◌, [], ◌∷◌};
ghost use Rattle.guest_turns.specs.Pages.{lock_of};

use leaf_engine::HeldLock;

/// HOST.READ, or HOST.WRITE of a value.
#[derive(Clone, Copy)]
pub enum HostAccess {
    Read,
    Write { value: u64 },
}

/// What a host access came to with its act: the word that it loaded, which is 0 where the page isn't the
/// host's; that its value was stored; or that it wasn't, since the page isn't the host's.
#[derive(Clone, Copy)]
pub enum HostEnd {
    Loaded { word: u64 },
    Stored,
    NotHost,
}

/// How far a host access is: its page's lock was denied, which is to be undone; it is held, and the act
/// comes next; or the act was made, and the lock is to be given back.
#[derive(Clone, Copy)]
pub enum HostStage {
    Denied,
    Locked,
    Ended(HostEnd),
}

/// A host access on its way: which one, of which word of a page, how far it is, and the lock of its page.
#[derive(Clone, Copy)]
pub struct HostRun {
    pub access: HostAccess,
    pub page: u16,
    pub word: u16,
    pub stage: HostStage,
    pub lock: [HeldLock; 1],
    pub ghost in_page: { word < 512 },
    pub ghost page_lock: { lock ≡ lock_of page ∷ [] },
}
