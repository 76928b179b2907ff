//! A logical processor that is paused.

ghost use Rattle.std.specs.Prelude.{◌≡◌, true, length};
ghost use Rattle.std.specs.List.{All};
ghost use Rattle.td_words.specs.Limits.{IsMachine};
ghost use Rattle.leaf_dispatch.specs.Guests.{IsPlaced, ArePlaced-prop};
ghost use Rattle.leaf_dispatch.specs.Running.{holds_room};

use crate::call_runs::CallRun;
use crate::guests::GuestAt;
use crate::step_runs::StepRun;
use bundles::Bundles;
use export_pages::PageWords;
use guest_turns::LeafTurn;
use leaf_engine::Place;
use report_core::Facts;
use report_text::GuestNote;
use td_words::Reply;
use tlb_epochs::Tlb;

/// A logical processor between two of its events, apart from what it borrows: its lines, its guest's list of
/// operations, and what its run is given, with the bundle of a call under way.
#[derive(Drop)]
pub struct PausedLp {
    pub(crate) place: Place,
    pub(crate) run: CallRun<'static>,
    pub(crate) spare: Option<PageWords>,
    pub(crate) guest: Option<GuestAt<'static>>,
    pub(crate) step_run: StepRun,
    pub(crate) cached: Tlb,
    pub(crate) replies: Vec<Reply>,
    pub(crate) notes: Vec<GuestNote>,
    pub(crate) reports: Vec<Facts>,
    pub(crate) told: Vec<u64>,
    pub(crate) bundles: Bundles,
    pub(crate) turn: LeafTurn,
    ghost machine: { IsMachine place.machine },
    ghost places: { All (IsPlaced (length reports.items)) notes.items } by { ArePlaced-prop (length reports.items) notes.items },
    ghost page_room: { holds_room spare run.other ≡ true },
}
