//! The run of a guest's step.

ghost use Rattle.std.specs.Prelude.{◌≡◌, true, is_none};
ghost use Rattle.leaf_dispatch.specs.Held.{held_by};
ghost use Rattle.leaf_dispatch.specs.StepRuns.{step_run_seen};

use crate::running::{Running, forget, held_of};
use guest_turns::SharedRun;
use leaf_engine::HeldLock;

/// The run of a guest's step, if there is one: of a shared access, or else of another leaf, which takes no
/// bundle.
#[derive(Drop)]
pub struct StepRun {
    pub shared: Option<SharedRun>,
    pub other: Option<Running<'static>>,
}

/// The locks that it holds, the oldest first.
pub fn step_held_of(kept: &StepRun) -> &[HeldLock]
    ensures { result.now ≡ held_by (step_run_seen kept.now) }
{
    match kept.shared {
        Some(_) => guest_turns::held_of(&kept.shared),
        None => held_of(&kept.other),
    }
}

/// Keeps no run any more.
pub fn forget_step(kept: &mut StepRun)
    ensures { is_none (step_run_seen kept.new) ≡ true }
{
    kept.shared = None;
    match kept.other {
        Some(_) => forget(&mut kept.other),
        None => (),
    }
}
