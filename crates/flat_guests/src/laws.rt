//! Laws of guest memory and of told words, as contracts of functions that do nothing.

ghost use Rattle.flat_guests.specs.Memory.{EventsRemember, ListsRemember};
ghost use Rattle.flat_guests.specs.Told.{EventsTellTheirs};

/// What a TD's guest knows of its private pages after each event: MNG.CREATE begins with nothing
/// known, MEM.PAGE.ADD with the source's words, IMPORT.MEM with those of its bundle, `accept` of a page
/// that is PENDING with zeros, a private store puts its word, MEM.PAGE.REMOVE and PHYMEM.PAGE.RECLAIM
/// end what is known of the page, and nothing else changes it.
pub fn memory_events()
    ensures { EventsRemember }
{}

/// What it knows once the pages of a list have come in: of each its 512 words of the bundle.
pub fn list_memories()
    ensures { ListsRemember }
{}

/// The act of a shared `store` and that of `vmcall` each tell the host one word, the register's or
/// the next one to tell, behind all that were told before; no other event tells any.
pub fn told_events()
    ensures { EventsTellTheirs }
{}
