//! What the steps of benches answer, and what their table closes to.

use hex::ToHex;
use mrtd_measure::Measure;
use std::test::Fail;
use step_core::{
    Bench, Tried, WordStep, copy_page, free, try_exclusive, try_shared, undo, zero_page,
};
use td_words::{Machine, Mode};
use trace_table::{SharedBench, SharedTable};

const MACHINE: Machine = Machine {
    lps: 2,
    pages: 8,
    hkids: 1,
};

#[test]
fn a_load_sees_the_store_of_another_bench(rt: HostRuntime) {
    let Ok((table, pass)) = SharedTable::start(rt.alloc(), MACHINE) else {
        panic!(rt; "out of memory")
    };
    let mut first = SharedBench::new(&table, pass);
    let mut other = first.split();
    assert_eq!(rt; first.perform(WordStep::Store(5, 9)), 0);
    assert_eq!(rt; other.perform(WordStep::Load(5)), 9);
    first.join(other);
    let pass = first.into_pass();
    let Ok(closed) = table.close(pass).copied(rt.alloc()) else {
        panic!(rt; "out of memory")
    };
    assert_eq!(rt; closed.len(), 4_116);
    for at in 0..closed.len() {
        let word = if at == 5 { 9 } else { 0 };
        assert_eq!(rt; closed[at], word);
    }
}

#[test]
fn a_hasher_goes_into_its_slot_and_comes_out(rt: HostRuntime) -> Result<(), Fail> {
    let Ok((table, pass)) = SharedTable::start(rt.alloc(), MACHINE) else {
        panic!(rt; "out of memory")
    };
    let mut bench = SharedBench::new(&table, pass);
    let mut measure = Measure::new();
    measure.add_page(0x4000);
    assert!(rt; bench.swap(0, Some(measure)).is_none());
    let Some(taken) = bench.swap(0, None) else {
        panic!(rt; "no hasher")
    };
    assert!(rt; bench.swap(0, None).is_none());
    assert_eq!(rt;
        taken.finish().encode_hex(rt.alloc())?.as_str(),
        "d68c9a70a011a3a58755262d2860e3d760cf69b4acd98b9f936c22c0eb55b67f7ec92527761ddd88e9bd55574809a072"
    );
    Ok(())
}

#[test]
fn a_hasher_that_stays_is_let_go_at_the_close(rt: HostRuntime) {
    let Ok((table, pass)) = SharedTable::start(rt.alloc(), MACHINE) else {
        panic!(rt; "out of memory")
    };
    let mut bench = SharedBench::new(&table, pass);
    assert!(rt; bench.swap(0, Some(Measure::new())).is_none());
    let pass = bench.into_pass();
    let Ok(closed) = table.close(pass).copied(rt.alloc()) else {
        panic!(rt; "out of memory")
    };
    assert!(rt; closed.iter().all(|word| *word == 0));
}

#[test]
fn benches_share_locks_and_pages(rt: HostRuntime) {
    let Ok((table, pass)) = SharedTable::start(rt.alloc(), MACHINE) else {
        panic!(rt; "out of memory")
    };
    let mut first = SharedBench::new(&table, pass);
    let mut other = first.split();
    assert_eq!(rt; try_shared(&mut first, 514), Tried::Granted);
    assert_eq!(rt; try_exclusive(&mut other, 514), Tried::Denied(1));
    free(&mut first, 514, Mode::Shared);
    assert_eq!(rt; try_exclusive(&mut other, 514), Tried::Granted);
    assert_eq!(rt;
        try_shared(&mut first, 514),
        Tried::Denied(0x8000_0000_0000_0000)
    );
    undo(&mut first, 514);
    free(&mut other, 514, Mode::Exclusive);
    assert_eq!(rt; first.perform(WordStep::Store(516, 7)), 0);
    assert_eq!(rt; other.perform(WordStep::Sub(516, 8)), 7);
    assert_eq!(rt; first.perform(WordStep::Add(516, 3)), u64::MAX);
    copy_page(&mut other, 1, 2);
    zero_page(&mut first, 1);
    first.join(other);
    let pass = first.into_pass();
    let Ok(closed) = table.close(pass).copied(rt.alloc()) else {
        panic!(rt; "out of memory")
    };
    assert_eq!(rt; (closed[514], closed[516], closed[1_030]), (0, 0, 2));
}
