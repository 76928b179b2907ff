ghost use Rattle.std.specs.Prelude.{◌≤◌};

use crate::{Walk, Walked};
use sept_entry::Entry;
use td_words::EntryState;

/// Bits 39 and up are 5, and the nine bits of levels 2, 1 and 0 are 6, 7 and 8.
const GPA: u64 = 0x281_80e0_8000;

fn entry(state: EntryState, page: u16) -> Entry {
    Entry {
        state,
        page,
        mark: 0,
    }
}

/// What a walk ends with that passes so many entries and is then told one of that state.
fn end(wanted: u8, passed: u8, state: EntryState) -> Walked
    requires { wanted ≤ 3 }
{
    let mut walk = Walk::new(10, GPA, wanted);
    for _ in 0..passed {
        walk.tell(entry(EntryState::NlMapped, 11));
    }
    walk.tell(entry(state, 0))
}

#[test]
fn four_levels_are_walked_by_hand(rt: HostRuntime) {
    let mut walk = Walk::new(10, GPA, 0);
    // words 5, 6 and 7 of pages 10, 11 and 12, and the page that each names
    for (address, page) in [(5147, 11), (5662, 12), (6177, 13)] {
        assert_eq!(rt; walk.address(), address);
        assert_eq!(rt; walk.tell(entry(EntryState::NlMapped, page)), Walked::More);
    }
    assert_eq!(rt; walk.address(), 6692);
    let mapped = entry(EntryState::Mapped, 14);
    assert_eq!(rt; walk.tell(mapped), Walked::Found(mapped));
}

#[test]
fn a_walk_fails_above_its_level_alone(rt: HostRuntime) {
    let free = Walked::Found(entry(EntryState::Free, 0));
    assert_eq!(rt; end(0, 0, EntryState::Free), Walked::Failed(3));
    assert_eq!(rt; end(0, 1, EntryState::NlBlocked), Walked::Failed(2));
    assert_eq!(rt; end(0, 2, EntryState::Free), Walked::Failed(1));
    assert_eq!(rt; end(0, 3, EntryState::Free), free);
    assert_eq!(rt; end(1, 1, EntryState::Free), Walked::Failed(2));
    assert_eq!(rt; end(1, 2, EntryState::Free), free);
    assert_eq!(rt; end(2, 0, EntryState::NlBlocked), Walked::Failed(3));
    assert_eq!(rt; end(2, 1, EntryState::Free), free);
    assert_eq!(rt; end(3, 0, EntryState::Free), free);
}
