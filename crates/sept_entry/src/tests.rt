use crate::Entry;
use td_words::EntryState;

#[test]
fn words_are_those_of_the_table(rt: HostRuntime) {
    let dirty = Entry {
        state: EntryState::ExportedDirty,
        page: 1023,
        mark: 3,
    };
    assert_eq!(rt; dirty.pack(), 0x3_0000_3ff9);
    assert_eq!(rt; Entry::unpack(0x3_0000_3ff9), Some(dirty));
    // a page in FREE, a page that no machine has, an export without a mark, a mark without an
    // export, a spare bit, and no state
    for word in [0x10, 0x4001, 0x19, 0x1_0000_0011, 0x10_0001, 0xb] {
        assert_eq!(rt; Entry::unpack(word), None);
    }
}
