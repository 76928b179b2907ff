//! Laws of lock words, as contracts of functions that do nothing.

ghost use Rattle.lock_words.specs.Grips.{GripsAreApart, GripsStayApart, GripsAreWhole};
ghost use Rattle.lock_words.specs.Reached.{SoundnessIsKept, SoundLocksStand, EveryTdrIsHeld, EveryLockStands, EveryTryStands};
ghost use Rattle.lock_words.specs.LockWords.{LockWordsFollow, LockStepsShown, TdLocksStay, HeadsStand, StartFollows, RunsFollow};

/// Where nobody holds a lock beside one who holds it alone, the grips of two processors are apart:
/// at the start of every run, and after every schedule. What a processor has alone it has.
pub fn grips_are_apart()
    ensures where_locks_exclude { GripsAreApart }
    ensures in_every_run { GripsStayApart }
    ensures whole { GripsAreWhole }
{
    flat_core::lock_law();
}

/// The word of each lock follows each event of a processor, and tells whether a try is granted; so
/// it is at the start of every run and, of at most eight processors, after every schedule.
pub fn lock_words_follow()
    ensures follow { LockWordsFollow }
    ensures start { StartFollows }
    ensures runs { RunsFollow }
{
    flat_core::end_laws();
}

/// Words that show a state still show it after a try, an undo or a release of any lock, which is
/// one step on that lock's word.
pub fn lock_steps_shown()
    ensures { LockStepsShown }
{
    flat_core::event_laws();
}

/// The lock words of a TD stay where they are, and the TD stands, through the acts of others while
/// P of its TDR page is held. It stands where the beginning of its row passes.
pub fn td_locks_stay()
    ensures stay { TdLocksStay }
    ensures stand { HeadsStand }
{}

/// Whoever holds, or is being refused, a lock of a TD holds P of its TDR page, and the locks that are
/// held, or being refused, stand; and both are so of a lock that a call tries. So it is where locks are
/// sound, as at the start of every run and after each event, whatever bundles have come in; and so
/// after any schedule.
pub fn reached_locks_stand()
    ensures kept { SoundnessIsKept }
    ensures sound { SoundLocksStand }
    ensures tdrs { EveryTdrIsHeld }
    ensures stand { EveryLockStands }
    ensures tried { EveryTryStands }
{}
