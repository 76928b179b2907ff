//! Turns, and the events that are counted of them, up to the last that is asked for.

ghost use Rattle.std.specs.Prelude.{◌≡◌};

use leaf_dispatch::LpState;
use leaf_engine::{Processor, Turn};
use run_texts::Onlooker;
use state_lines::states_go_on;
use trace_table::SharedBench;

/// It stops after so many events. What it has seen is how many are still due.
#[derive(Drop)]
pub struct Counting {
    pub events: u64,
}

impl Onlooker for Counting {
    type Seen = u64;

    ghost use Rattle.state_runs.specs.Counting.{IsCounting};

    ghost seeks = { λ w. IsCounting w.events };

    ghost stops = { λ due. due ≡ 0 };

    fn turn(
        &self,
        due: &mut u64,
        _lp: u8,
        state: &mut LpState<'_>,
        bench: &mut SharedBench<'_>,
    ) -> Option<bool> {
        states_go_on();
        if *due == 0 {
            return None;
        }
        match state.turn(bench) {
            Turn::Moved(_) => {
                *due -= 1;
                Some(true)
            }
            Turn::Ended => Some(false),
        }
    }
}
