//! Logical processors with their calls: their turns over words.
//!
//! Stands on `leaf_engine`, whose runs it makes turn by turn, on `guest_turns` and `host_turns` for the steps
//! of guests and the host accesses that need no run, on `leaf_table`, which has the leaf of each call, by what
//! the run is given: secret words, and the bundles that come in; and by its laws on `trace_laws`, which says
//! what an event was. A layer above may use that `LpState` is a `Processor`.
//! From its calls on (`first` of `new`, which is handed the `Inputs` of its run) each turn is the next event
//! of its present call's leaf, or in a guest that of the guest's next step, told in pieces; the reply comes in
//! with the call's last event. A turn takes no memory. What guests note, report and tell stands in `notes`,
//! `reports` and `told`, and the bundles of the calls that have ended in `bundles`; `guest`, `next_step` and
//! `cached` tell of the guest that a processor is in. `pause` gives up what it borrows, at whatever event, and
//! `resume` goes on there, with whatever bundles have come in besides (`paused_stay`). By `lp_states_follow` a
//! turn is the flat machine's next event, and its `Event` is what that was.
#![tactic(auto)]

mod answers;
mod call_runs;
mod call_turns;
mod ended;
mod exits;
mod first_lists;
mod guests;
mod inputs;
mod laws;
mod paused;
mod rooms;
mod running;
mod states;
mod step_runs;
mod step_turns;
mod turns;

pub use ended::EndedBundles;
pub use first_lists::FirstLists;
pub use guests::InGuest;
pub use inputs::Inputs;
pub use laws::{lp_states_follow, paused_stay};
pub use paused::PausedLp;
pub use states::LpState;
