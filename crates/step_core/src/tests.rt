use crate::{
    Bench, PlainBench, Tried, WordStep, copy_page, free, try_exclusive, try_shared, undo, zero_page,
};
use mrtd_measure::Measure;
use td_words::{Machine, Mode};

const MACHINE: Machine = Machine {
    lps: 2,
    pages: 8,
    hkids: 1,
};

#[test]
fn a_lock_word_counts_sharers_and_the_refused(rt: HostRuntime) {
    let Ok(mut bench) = PlainBench::new(rt.alloc(), MACHINE) else {
        panic!(rt; "out of memory")
    };
    assert_eq!(rt; try_shared(&mut bench, 514), Tried::Granted);
    assert_eq!(rt; try_shared(&mut bench, 514), Tried::Granted);
    assert_eq!(rt; try_exclusive(&mut bench, 514), Tried::Denied(2));
    free(&mut bench, 514, Mode::Shared);
    free(&mut bench, 514, Mode::Shared);
    assert_eq!(rt; bench.word(514), 0);
    assert_eq!(rt; try_exclusive(&mut bench, 514), Tried::Granted);
    assert_eq!(rt;
        try_shared(&mut bench, 514),
        Tried::Denied(0x8000_0000_0000_0000)
    );
    assert_eq!(rt; bench.word(514), 0x8000_0000_0000_0001);
    undo(&mut bench, 514);
    free(&mut bench, 514, Mode::Exclusive);
    assert_eq!(rt; bench.word(514), 0);
}

#[test]
fn steps_pages_and_slots_change_as_they_say(rt: HostRuntime) {
    let Ok(mut bench) = PlainBench::new(rt.alloc(), MACHINE) else {
        panic!(rt; "out of memory")
    };
    assert_eq!(rt; bench.machine(), MACHINE);
    assert_eq!(rt; bench.perform(WordStep::Store(1027, 7)), 0);
    assert_eq!(rt; bench.perform(WordStep::Sub(1027, 8)), 7);
    assert_eq!(rt; bench.perform(WordStep::Add(1027, 3)), u64::MAX);
    assert_eq!(rt; bench.perform(WordStep::Load(1027)), 2);
    copy_page(&mut bench, 1, 2);
    assert_eq!(rt; bench.word(1541), 2);
    zero_page(&mut bench, 1);
    assert_eq!(rt; (bench.word(1027), bench.word(1541)), (0, 2));
    assert!(rt; bench.swap(0, Some(Measure::new())).is_none());
    assert!(rt; bench.swap(0, None).is_some());
}
