//! Laws of virtual processors, and of what is noted of TDs, as contracts of functions that do nothing.

ghost use Rattle.vcpu_laws.specs.Images.{PausesAreNoted, CommitsAreNoted};
ghost use Rattle.vcpu_laws.specs.Vcpus.{EventsChangeVcpus};

/// What is noted of a TD after each event: the act of EXPORT.PAUSE notes as the pause of the TD's
/// session, and that of IMPORT.COMMIT as what its import gave, just what the TD has in the world before
/// it: what its guest knows of its private pages, MRTD, RTMRs, and the registers and positions of its
/// virtual processors in the order of their indexes. No other event changes what is noted, of this
/// session or another.
pub fn note_events()
    ensures pauses { PausesAreNoted }
    ensures commits { CommitsAreNoted }
{}

/// What registers, position and state a virtual processor has after each event: VP.CREATE begins it with
/// zeros at position 0, VP.INIT sets register 0 and makes it READY, IMPORT.STATE.VP gives it those of its
/// bundle and makes it READY, and each operation and access of its own guest that succeeds moves it on by
/// one position, where `set`, `secret`, `add` and a load set one register. Nothing else changes any of
/// them: no entry, exit, pause, commit or abort does, and no event of another virtual processor's guest.
pub fn vcpu_events()
    ensures { EventsChangeVcpus }
{}
