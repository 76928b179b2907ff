//! Turns, and what they tell.

ghost use Rattle.std.specs.Prelude.{◌≡◌, option_map};
ghost use Rattle.leaf_table.specs.Steps.{step_seen};
ghost use Rattle.trace_lines.specs.Traces.{reply_behind};
ghost use Rattle.trace_laws.specs.Told.{step_told, event_told};
ghost use Rattle.trace_runs.specs.Tracing.{act_by};

use leaf_dispatch::LpState;
use leaf_engine::{Event, Processor, Turn};
use leaf_table::Step;
use run_texts::Onlooker;
use td_words::Reply;
use trace_laws::turns_told;
use trace_lines::{Traced, What};
use trace_table::SharedBench;

fn step_told(step: Step) -> What
    ensures { result ≡ step_told (step_seen step) }
{
    match step {
        Step::Operates(_) => What::Acts,
        Step::Accesses {
            access,
            gpa,
            page,
            ..
        } => What::Accesses { access, gpa, page },
        Step::Loads { gpa, level, .. } => What::Walks { gpa, level },
        Step::Leaves(_) => What::Counts,
    }
}

// The act of a processor whose guest's next step this is, or that is in no guest.
fn act_by(step: Option<Step>) -> What
    ensures { result ≡ act_by (option_map step_seen step) }
{
    match step {
        None => What::Acts,
        Some(step) => step_told(step),
    }
}

fn event_told(act: What, event: Event) -> What
    ensures { result ≡ event_told act event }
{
    match event {
        Event::Try {
            lock,
            mode,
            granted,
        } => What::Tries {
            lock,
            mode,
            granted,
        },
        Event::Undo(lock) => What::Undoes(lock),
        Event::Free(lock) => What::Releases(lock),
        Event::Act | Event::Walk(_) | Event::Word(_) | Event::Count(_) => act,
    }
}

// The reply behind so many.
#[tactic(auto, using(crate::proofs::Telling::reply_at))]
fn reply_behind(before: usize, replies: &[Reply]) -> Option<Reply>
    ensures { result ≡ reply_behind before replies.now }
{
    match replies.get(before) {
        Some(reply) => Some(*reply),
        None => None,
    }
}

/// It tells each event, behind those that it has told.
pub struct Telling;

impl Onlooker for Telling {
    type Seen = Vec<Traced>;

    ghost use Rattle.trace_runs.specs.Tracing.{IsTelling};

    ghost seeks = { λ w. IsTelling };

    ghost stops = { λ told. Unit {0} };

    fn turn(
        &self,
        told: &mut Vec<Traced>,
        lp: u8,
        state: &mut LpState<'_>,
        bench: &mut SharedBench<'_>,
    ) -> Option<bool> {
        turns_told();
        let Ok(()) = told.reserve(1) else {
            return None;
        };
        let act = act_by(state.next_step());
        let before = state.replies().len();
        let Turn::Moved(event) = state.turn(bench) else {
            return Some(false);
        };
        let traced = Traced {
            number: told.len() as u64 + 1,
            lp,
            line: before as u32 + 1,
            what: event_told(act, event),
            reply: reply_behind(before, state.replies()),
        };
        let Ok(()) = told.push(traced) else {
            unreachable!()
        };
        Some(true)
    }
}
