use crate::{Lane, run_all};
use leaf_engine::{Event, Gate, Processor, Turn};
use std::sync::atomic::{AtomicU64, Ordering};
use step_core::{Bench, WordStep};
use td_words::Machine;
use trace_table::{SharedBench, SharedTable};

const MACHINE: Machine = Machine {
    lps: 2,
    pages: 8,
    hkids: 1,
};

// A processor that adds 1 to the last word at each of its turns.
#[derive(Drop)]
struct Raiser {
    left: u8,
}

impl Processor for Raiser {
    ghost use Rattle.std.specs.Prelude.{◌≡◌, ◌+◌, ◌==◌};

    ghost machine = { λ p. record { lps = 2; pages = 8; hkids = 1 } };

    ghost has_ended = { λ p. p.left == 0 };

    ghost bound = { λ p. p.left };

    ghost moves = { λ p e ps q. q.left + 1 ≡ p.left };

    fn turn<B: Bench>(&mut self, bench: &mut B) -> Turn {
        if self.left == 0 {
            return Turn::Ended;
        }
        self.left -= 1;
        bench.perform(WordStep::Add(4_115, 1));
        Turn::Moved(Event::Act)
    }
}

// Each number of an event counts in a digit of its own.
#[derive(Drop)]
struct Asked {
    digits: AtomicU64,
}

impl Gate for Asked {
    fn pass(&self, lp: u8, event: u64) {
        let digit = match (lp, event) {
            (0, 0) => 1,
            (0, 1) => 0x10,
            (0, 2) => 0x100,
            (1, 0) => 0x1000,
            (1, 1) => 0x1_0000,
            (1, 2) => 0x10_0000,
            _ => 0x100_0000,
        };
        self.digits.fetch_add(digit, Ordering::SeqCst);
    }
}

#[test]
fn each_lane_makes_its_turns(rt: HostRuntime) {
    let Ok((table, pass)) = SharedTable::start(rt.alloc(), MACHINE) else {
        panic!(rt; "out of memory")
    };
    let mut first = SharedBench::new(&table, pass);
    let gate = Asked {
        digits: AtomicU64::new(0),
    };
    let mut lanes = [
        Lane {
            lp: 0,
            processor: Raiser { left: 2 },
            bench: first.split(),
        },
        Lane {
            lp: 1,
            processor: Raiser { left: 2 },
            bench: first.split(),
        },
    ];
    run_all(&rt, &mut lanes, &gate);
    for lane in &lanes {
        assert_eq!(rt; lane.processor.left, 0);
    }
    let asked = gate.digits.load(Ordering::SeqCst);
    assert_eq!(rt; asked, 0x11_1111);
    assert_eq!(rt; first.perform(WordStep::Load(4_115)), 4);
}
