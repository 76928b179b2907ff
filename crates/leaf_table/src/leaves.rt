//! The leaf of each call, and of each step of a guest.

ghost use Rattle.std.specs.Prelude.{◌≡◌, ◌<◌, true, false, length};
ghost use Rattle.td_words.specs.Limits.{IsMachine};
ghost use Rattle.bundles.specs.Made.{made_in};
ghost use Rattle.leaf_engine.specs.Besides.{reported};
ghost use Rattle.leaf_engine.specs.Trees.{answer_of};
ghost use Rattle.leaf_engine.specs.Turns.{IsFresh};
ghost use Rattle.leaf_table.specs.Plans.{plan_task};
ghost use Rattle.leaf_engine.specs.Merges.{IsOperation, IsStepOf};
ghost use Rattle.leaf_table.specs.Steps.{step_seen};
ghost use Rattle.leaf_table.specs.PageRooms.{is_page_export, is_spare, leaf_room};
ghost use Rattle.leaf_table.specs.Given.{Given as Inputs, given_in};
ghost use Rattle.leaf_table.specs.BundlePlans.{plan_input, plan_slot, bundle_plan_task};
ghost use Rattle.leaf_table.specs.Origins.{bundle_at, TakesFrom};
ghost use Rattle.leaf_table.specs.Table.{task_of, operation_task, step_task};

use crate::bundle_plans::BundlePlan;
use crate::given::Given;
use crate::plans::AnyPlan;
use crate::steps::Step;
use access_core::{
    Accept, Add, HostRead, HostWrite, PrivateLoad, PrivateStore, Report, Rtmr, Set, SharedLoad,
    SharedStore, Vmcall, WalkLoad,
};
use bundles::Bundle;
use export_core::{Abort, BlockW, Pause, Restore, StreamCreate, UnblockW};
use export_pages::{PageExport, PageWords};
use export_sessions::Immutable;
use export_states::{StateTd, StateVp};
use export_tokens::Token;
use import_core::{AbortByToken, Commit, ImportAbort, ImportEnd, ImportToken};
use import_pages::PageImport;
use import_states::{ImportImmutable, ImportTd, ImportVp};
use incoming::Incoming;
use key_table::{CacheWb, FlushDone, FreeId, Reclaim};
use leaf_engine::{Leaf, Need, Place, Planned, Write};
use leaf_parts::page_told;
use mem_build::{Extend, PageAdd, PageAug, SeptAdd, SeptRd};
use mem_remove::{PageRemove, RangeBlock, RangeUnblock, Rdmd, SeptRemove, Track};
use mrtd_measure::Measure;
use relocate_core::PageRelocate;
use report_core::Facts;
use td_control::{AddCx, Create, Finalize, Init, KeyConfig, Rd};
use td_words::{Access, Call, GuestOp};
use vcpu_control::{Enter, Exit, VpCreate, VpFlush, VpInit};

/// A leaf of any call that is built, or of any step of a guest: one that goes by a plan, with a bundle or
/// without, or that of MR.EXTEND, of MEM.SEPT.REMOVE, of EXPORT.STATE.TD, of EXPORT.MEM or of a guest's report, which
/// are told more words, or of IMPORT.STATE.TD or of IMPORT.MEM, which make more writes. That of EXPORT.MEM has the
/// room for a page's words.
#[derive(Drop)]
pub enum AnyLeaf<'a> {
    ByPlan(Planned<AnyPlan>),
    ByBundle(Planned<BundlePlan<'a>>),
    Extend(Extend),
    SeptRemove(SeptRemove),
    StateTd(StateTd),
    PageExport(PageExport),
    Report(Report),
    ImportTd(ImportTd<'a>),
    PageImport(PageImport<'a>),
}

impl<'a> Leaf for AnyLeaf<'a> {
    ghost use Rattle.leaf_table.specs.Leaves.{leaf_seen, leaves-mean};
    ghost use Rattle.leaf_table.specs.Origins.{LeafOrigin, origin_of};

    ghost task = { λ l. (leaf_seen l).task };

    ghost rest = { λ l. (leaf_seen l).rest };

    ghost written = { λ l. (leaf_seen l).written };

    ghost waits = { λ l. (leaf_seen l).waits };

    ghost bound = { λ l. (leaf_seen l).bound };

    ghost tries = { λ l. (leaf_seen l).tries };

    ghost Origin = { LeafOrigin };

    ghost origin = { λ l. origin_of l };

    fn need(&mut self) -> Need {
        match self {
            AnyLeaf::ByPlan(leaf) => leaf.need(),
            AnyLeaf::ByBundle(leaf) => leaf.need(),
            AnyLeaf::Extend(leaf) => leaf.need(),
            AnyLeaf::SeptRemove(leaf) => leaf.need(),
            AnyLeaf::StateTd(leaf) => leaf.need(),
            AnyLeaf::PageExport(leaf) => leaf.need(),
            AnyLeaf::Report(leaf) => leaf.need(),
            AnyLeaf::ImportTd(leaf) => leaf.need(),
            AnyLeaf::PageImport(leaf) => leaf.need(),
        }
    }

    fn tell(&mut self, word: u64) {
        match self {
            AnyLeaf::ByPlan(leaf) => leaf.tell(word),
            AnyLeaf::ByBundle(leaf) => leaf.tell(word),
            AnyLeaf::Extend(leaf) => leaf.tell(word),
            AnyLeaf::SeptRemove(leaf) => leaf.tell(word),
            AnyLeaf::StateTd(leaf) => leaf.tell(word),
            AnyLeaf::PageExport(leaf) => leaf.tell(word),
            AnyLeaf::Report(leaf) => leaf.tell(word),
            AnyLeaf::ImportTd(leaf) => leaf.tell(word),
            AnyLeaf::PageImport(leaf) => leaf.tell(word),
        }
    }

    fn write(&mut self, hasher: &mut Option<Measure>) -> Option<Write> {
        match self {
            AnyLeaf::ByPlan(leaf) => leaf.write(hasher),
            AnyLeaf::ByBundle(leaf) => leaf.write(hasher),
            AnyLeaf::Extend(leaf) => leaf.write(hasher),
            AnyLeaf::SeptRemove(leaf) => leaf.write(hasher),
            AnyLeaf::StateTd(leaf) => leaf.write(hasher),
            AnyLeaf::PageExport(leaf) => leaf.write(hasher),
            AnyLeaf::Report(leaf) => leaf.write(hasher),
            AnyLeaf::ImportTd(leaf) => leaf.write(hasher),
            AnyLeaf::PageImport(leaf) => leaf.write(hasher),
        }
    }

    ghost means = { leaves-mean };
}

impl<'a> AnyLeaf<'a> {
    ghost use Rattle.std.specs.Prelude.{Option, None, is_some};
    ghost use Rattle.flat_core.specs.Opening.{Incoming as Arrived};
    ghost use Rattle.leaf_table.specs.Leaves.{leaf_seen, seen_with};
    ghost use Rattle.leaf_table.specs.Origins.{slot_in, bundle_in, bundle_for, TakesFrom};
    ghost use Rattle.leaf_table.specs.PageRooms.{has_words};

    /// The slot that its call names, if it takes a bundle.
    fn slot(&self) -> Option<u64>
        ensures { result ≡ slot_in self.now }
    {
        match self {
            AnyLeaf::ByBundle(leaf) => Some(leaf.plan().slot()),
            AnyLeaf::ImportTd(leaf) => Some(leaf.slot()),
            AnyLeaf::PageImport(leaf) => Some(leaf.slot()),
            _ => None,
        }
    }

    /// The same leaf, as far as it is, without the bundle that it was given, so that nothing is borrowed: it stands for as
    /// long as one likes.
    pub fn without_input<'b>(self) -> AnyLeaf<'b>
        ensures seen { (b : Option Arrived) → seen_with b result ≡ seen_with b self.entry }
        ensures slot { slot_in result ≡ slot_in self.entry }
        ensures words { has_words result ≡ has_words self.entry }
    {
        self.with_input(None)
    }

    /// The same leaf, as far as it is, with the bundle that its slot has here, if its call takes one.
    pub fn with_input_of<'b>(self, given: Given<'b>) -> AnyLeaf<'b>
        ensures seen { leaf_seen result ≡ seen_with (bundle_for (given_in given.entry) self.entry) self.entry }
        ensures slot { slot_in result ≡ slot_in self.entry }
        ensures takes { TakesFrom (given_in given.entry) result }
        ensures words { has_words result ≡ has_words self.entry }
    {
        let input = bundle_at(given, self.slot());
        self.with_input(input)
    }

    // The same leaf, as far as it is, with this bundle in place of its own, if its call takes one.
    fn with_input<'b>(self, input: Option<Incoming<'b>>) -> AnyLeaf<'b>
        ensures seen { (b : Option Arrived) → seen_with b result ≡ seen_with b self.entry }
        ensures slot { slot_in result ≡ slot_in self.entry }
        ensures input { is_some (slot_in self.entry) ≡ true → bundle_in result ≡ input.entry }
        ensures none { is_some (slot_in self.entry) ≡ false → bundle_in result ≡ None }
        ensures words { has_words result ≡ has_words self.entry }
    {
        match self {
            AnyLeaf::ByPlan(leaf) => AnyLeaf::ByPlan(leaf),
            AnyLeaf::ByBundle(leaf) => {
                let (plan, progress) = leaf.into_parts();
                AnyLeaf::ByBundle(Planned::resumed(plan.with_input(input), progress))
            }
            AnyLeaf::Extend(leaf) => AnyLeaf::Extend(leaf),
            AnyLeaf::SeptRemove(leaf) => AnyLeaf::SeptRemove(leaf),
            AnyLeaf::StateTd(leaf) => AnyLeaf::StateTd(leaf),
            AnyLeaf::PageExport(leaf) => AnyLeaf::PageExport(leaf),
            AnyLeaf::Report(leaf) => AnyLeaf::Report(leaf),
            AnyLeaf::ImportTd(leaf) => AnyLeaf::ImportTd(leaf.with_input(input)),
            AnyLeaf::PageImport(leaf) => AnyLeaf::PageImport(leaf.with_input(input)),
        }
    }

    /// The bundle that it has made, once it has come to its act.
    pub fn bundle(&self) -> Option<Bundle<'_>>
        ensures { made_in result ≡ (answer_of (leaf_seen self.now).rest).bundles }
    {
        match self {
            AnyLeaf::ByPlan(leaf) => leaf.plan().bundle(leaf.told()),
            AnyLeaf::ByBundle(_) => None,
            AnyLeaf::Extend(_) => None,
            AnyLeaf::SeptRemove(_) => None,
            AnyLeaf::StateTd(leaf) => leaf.bundle(),
            AnyLeaf::PageExport(leaf) => leaf.bundle(),
            AnyLeaf::Report(_) => None,
            AnyLeaf::ImportTd(_) => None,
            AnyLeaf::PageImport(_) => None,
        }
    }

    /// The facts that it has reported, once it has come to its act.
    pub fn facts(&self) -> Option<Facts>
        ensures { result ≡ reported (answer_of (leaf_seen self.now).rest).notes }
    {
        match self {
            AnyLeaf::ByPlan(_) => None,
            AnyLeaf::ByBundle(_) => None,
            AnyLeaf::Extend(_) => None,
            AnyLeaf::SeptRemove(_) => None,
            AnyLeaf::StateTd(_) => None,
            AnyLeaf::PageExport(_) => None,
            AnyLeaf::Report(leaf) => leaf.facts(),
            AnyLeaf::ImportTd(_) => None,
            AnyLeaf::PageImport(_) => None,
        }
    }
}

// The bundle of a slot, of those that are given.
fn bundle_at<'b>(given: Given<'b>, slot: Option<u64>) -> Option<Incoming<'b>>
    ensures { result ≡ bundle_at (given_in given.entry) slot }
{
    match slot {
        Some(slot) => given.bundles.get(slot),
        None => None,
    }
}

// A leaf that goes by that plan, and has done nothing yet.
fn by_plan<'a>(plan: AnyPlan) -> AnyLeaf<'a>
    ensures task { ⟦<AnyLeaf<'a> as Leaf>⟧.task result ≡ plan_task plan }
    ensures fresh { let leaf = ⟦<AnyLeaf<'a> as Leaf>⟧ in IsFresh (leaf.task result).tree (leaf.rest result) (leaf.tries result) (leaf.written result) (leaf.waits result) }
    ensures takes { (g : Inputs) → TakesFrom g result }
{
    AnyLeaf::ByPlan(Planned::new(plan))
}

// That by a plan which takes a bundle.
fn by_bundle<'a>(plan: BundlePlan<'a>) -> AnyLeaf<'a>
    ensures task { ⟦<AnyLeaf<'a> as Leaf>⟧.task result ≡ bundle_plan_task plan.entry }
    ensures fresh { let leaf = ⟦<AnyLeaf<'a> as Leaf>⟧ in IsFresh (leaf.task result).tree (leaf.rest result) (leaf.tries result) (leaf.written result) (leaf.waits result) }
    ensures takes { (g : Inputs) → plan_input plan.entry ≡ g.bundles (plan_slot plan.entry) → TakesFrom g result }
{
    AnyLeaf::ByBundle(Planned::new(plan))
}

/// The leaf of a call at a place, which has done nothing yet, with the bundle of its input slot. That
/// of EXPORT.MEM takes the room for a page's words, which is there.
pub fn leaf_of<'a>(
    place: Place,
    call: &Call,
    given: Given<'a>,
    spare: &mut Option<PageWords>,
) -> AnyLeaf<'a>
    requires machine { IsMachine place.machine }
    requires room { is_spare spare.old ≡ true }
    ensures task { ⟦<AnyLeaf<'a> as Leaf>⟧.task result ≡ task_of (given_in given.entry) place call.now }
    ensures fresh { let leaf = ⟦<AnyLeaf<'a> as Leaf>⟧ in IsFresh (leaf.task result).tree (leaf.rest result) (leaf.tries result) (leaf.written result) (leaf.waits result) }
    ensures takes { TakesFrom (given_in given.entry) result }
    ensures room { leaf_room spare.new result ≡ true }
{
    match *call {
        Call::ExportMem {
            tdr,
            gpa,
            stream,
            slot,
        } => {
            let Some(words) = spare.take() else {
                unreachable!()
            };
            AnyLeaf::PageExport(PageExport::leaf(place, tdr, gpa, stream, slot, words))
        }
        _ => roomless_leaf(place, call, given),
    }
}

// That of a call that takes no room.
fn roomless_leaf<'a>(place: Place, call: &Call, given: Given<'a>) -> AnyLeaf<'a>
    requires machine { IsMachine place.machine }
    requires roomless { is_page_export call.now ≡ false }
    ensures task { ⟦<AnyLeaf<'a> as Leaf>⟧.task result ≡ task_of (given_in given.entry) place call.now }
    ensures fresh { let leaf = ⟦<AnyLeaf<'a> as Leaf>⟧ in IsFresh (leaf.task result).tree (leaf.rest result) (leaf.tries result) (leaf.written result) (leaf.waits result) }
    ensures takes { TakesFrom (given_in given.entry) result }
{
    match *call {
        Call::HostRead { page, word } => {
            by_plan(AnyPlan::HostRead(HostRead::plan(place, page, word)))
        }
        Call::HostWrite { page, word, value } => by_plan(AnyPlan::HostWrite(HostWrite::plan(
            place, page, word, value,
        ))),
        Call::PhymemPageRdmd { page } => by_plan(AnyPlan::Rdmd(Rdmd::plan(place, page))),
        Call::PhymemCacheWb => by_plan(AnyPlan::CacheWb(CacheWb::plan(place))),
        Call::PhymemPageReclaim { tdr, page } => {
            by_plan(AnyPlan::Reclaim(Reclaim::plan(place, tdr, page)))
        }
        Call::MngCreate { tdr, hkid } => {
            by_plan(AnyPlan::Create(Create::plan(place, tdr, hkid)))
        }
        Call::MngKeyConfig { tdr } => by_plan(AnyPlan::KeyConfig(KeyConfig::plan(place, tdr))),
        Call::MngAddcx { tdr, page } => by_plan(AnyPlan::AddCx(AddCx::plan(place, tdr, page))),
        Call::MngInit { tdr } => by_plan(AnyPlan::Init(Init::plan(place, tdr))),
        Call::MngRd { tdr, field } => by_plan(AnyPlan::Rd(Rd::plan(place, tdr, field))),
        Call::MngVpflushdone { tdr } => by_plan(AnyPlan::FlushDone(FlushDone::plan(place, tdr))),
        Call::MngKeyFreeid { tdr } => by_plan(AnyPlan::FreeId(FreeId::plan(place, tdr))),
        Call::MrFinalize { tdr } => by_plan(AnyPlan::Finalize(Finalize::plan(place, tdr))),
        Call::VpCreate { tdr, page } => {
            by_plan(AnyPlan::VpCreate(VpCreate::plan(place, tdr, page)))
        }
        Call::VpInit { tdr, vp, value } => {
            by_plan(AnyPlan::VpInit(VpInit::plan(place, tdr, vp, value)))
        }
        Call::VpEnter { tdr, vp, max } => by_plan(AnyPlan::Enter(Enter::plan(place, tdr, vp, max))),
        Call::VpFlush { tdr, vp } => by_plan(AnyPlan::VpFlush(VpFlush::plan(place, tdr, vp))),
        Call::MemSeptAdd {
            tdr,
            gpa,
            level,
            page,
        } => by_plan(AnyPlan::SeptAdd(SeptAdd::plan(place, tdr, gpa, level, page))),
        Call::MemSeptRd { tdr, gpa, level } => by_plan(AnyPlan::SeptRd(SeptRd::plan(
            place, tdr, gpa, level,
        ))),
        Call::MemSeptRemove { tdr, gpa, level } => {
            AnyLeaf::SeptRemove(SeptRemove::leaf(place, tdr, gpa, level))
        }
        Call::MemPageAdd {
            tdr,
            gpa,
            page,
            source,
        } => by_plan(AnyPlan::PageAdd(PageAdd::plan(place, tdr, gpa, page, source))),
        Call::MemPageAug { tdr, gpa, page } => {
            by_plan(AnyPlan::PageAug(PageAug::plan(place, tdr, gpa, page)))
        }
        Call::MemPageRemove { tdr, gpa } => {
            by_plan(AnyPlan::PageRemove(PageRemove::plan(place, tdr, gpa)))
        }
        Call::MemPageRelocate { tdr, gpa, page } => {
            by_plan(AnyPlan::PageRelocate(PageRelocate::plan(place, tdr, gpa, page)))
        }
        Call::MemRangeBlock { tdr, gpa, level } => {
            by_plan(AnyPlan::RangeBlock(RangeBlock::plan(place, tdr, gpa, level)))
        }
        Call::MemRangeUnblock { tdr, gpa, level } => {
            by_plan(AnyPlan::RangeUnblock(RangeUnblock::plan(place, tdr, gpa, level)))
        }
        Call::MemTrack { tdr } => by_plan(AnyPlan::Track(Track::plan(place, tdr))),
        Call::MigStreamCreate { tdr, page } => {
            by_plan(AnyPlan::StreamCreate(StreamCreate::plan(place, tdr, page)))
        }
        Call::ExportBlockw { tdr, gpa } => by_plan(AnyPlan::BlockW(BlockW::plan(place, tdr, gpa))),
        Call::ExportUnblockw { tdr, gpa } => {
            by_plan(AnyPlan::UnblockW(UnblockW::plan(place, tdr, gpa)))
        }
        Call::ExportPause { tdr } => by_plan(AnyPlan::Pause(Pause::plan(place, tdr))),
        Call::ExportAbort { tdr } => by_plan(AnyPlan::Abort(Abort::plan(place, tdr))),
        Call::ExportRestore { tdr, gpa } => {
            by_plan(AnyPlan::Restore(Restore::plan(place, tdr, gpa)))
        }
        Call::ExportStateImmutable { tdr, slot } => {
            by_plan(AnyPlan::Immutable(Immutable::plan(place, tdr, slot)))
        }
        Call::ExportMem { .. } => unreachable!(),
        Call::ExportTrack { tdr, slot, start } => {
            by_plan(AnyPlan::Token(Token::plan(place, tdr, slot, start)))
        }
        Call::ExportStateTd { tdr, slot } => AnyLeaf::StateTd(StateTd::leaf(place, tdr, slot)),
        Call::ExportStateVp { tdr, vp, slot } => {
            by_plan(AnyPlan::StateVp(StateVp::plan(place, tdr, vp, slot)))
        }
        Call::ExportAbortByToken { tdr, slot } => by_bundle(BundlePlan::AbortByToken(
            AbortByToken::plan(place, tdr, slot, given.bundles.get(slot)),
        )),
        Call::ImportStateImmutable { tdr, slot } => by_bundle(BundlePlan::ImportImmutable(
            ImportImmutable::plan(place, tdr, slot, given.bundles.get(slot)),
        )),
        Call::ImportMem { tdr, slot, page } => AnyLeaf::PageImport(PageImport::leaf(
            place,
            tdr,
            slot,
            page,
            given.bundles.get(slot),
        )),
        Call::ImportTrack { tdr, slot } => by_bundle(BundlePlan::ImportToken(ImportToken::plan(
            place,
            tdr,
            slot,
            given.bundles.get(slot),
        ))),
        Call::ImportStateTd { tdr, slot } => AnyLeaf::ImportTd(ImportTd::leaf(
            place,
            tdr,
            slot,
            given.bundles.get(slot),
        )),
        Call::ImportStateVp { tdr, vp, slot } => by_bundle(BundlePlan::ImportVp(ImportVp::plan(
            place,
            tdr,
            vp,
            slot,
            given.bundles.get(slot),
        ))),
        Call::ImportCommit { tdr } => by_plan(AnyPlan::Commit(Commit::plan(place, tdr))),
        Call::ImportEnd { tdr } => by_plan(AnyPlan::ImportEnd(ImportEnd::plan(place, tdr))),
        Call::ImportAbort { tdr, slot } => {
            by_plan(AnyPlan::ImportAbort(ImportAbort::plan(place, tdr, slot)))
        }
        Call::MrExtend { tdr, gpa } => AnyLeaf::Extend(Extend::leaf(place, tdr, gpa)),
    }
}

/// The leaf of a step of a guest of a virtual processor, at a call line, which has done nothing yet.
/// The page that a translation or an upper entry names is the machine's; any other is read as page 0.
/// The word of a secret operation is a given one.
pub fn step_leaf(
    place: Place,
    given: Given<'_>,
    tdr: u16,
    vp: u16,
    line: usize,
    step: Step,
) -> AnyLeaf<'static>
    requires machine { IsMachine place.machine }
    requires inside { (tdr < place.machine.pages) × (vp < place.machine.pages) }
    requires limits { IsStepOf (step_seen step) }
    ensures place { (⟦<AnyLeaf<'static> as Leaf>⟧.task result).place ≡ place }
    ensures tree { (⟦<AnyLeaf<'static> as Leaf>⟧.task result).tree ≡ (step_task (given_in given.entry) place tdr vp line (step_seen step)).tree }
    ensures fresh { let leaf = ⟦<AnyLeaf<'static> as Leaf>⟧ in IsFresh (leaf.task result).tree (leaf.rest result) (leaf.tries result) (leaf.written result) (leaf.waits result) }
{
    match step {
        Step::Operates(operation) => operation_leaf(place, given, tdr, vp, line, operation),
        Step::Accesses {
            access,
            register,
            gpa,
            page,
        } => {
            let page = page_told(place.machine.pages, u64::from(page));
            match access {
                Access::Read => by_plan(AnyPlan::PrivateLoad(PrivateLoad::plan(
                    place, tdr, vp, line, register, gpa, page,
                ))),
                Access::Write => by_plan(AnyPlan::PrivateStore(PrivateStore::plan(
                    place, tdr, vp, line, register, gpa, page,
                ))),
            }
        }
        Step::Loads {
            access,
            gpa,
            level,
            page,
        } => {
            let page = page_told(place.machine.pages, page);
            by_plan(AnyPlan::WalkLoad(WalkLoad::plan(place, tdr, vp, access, gpa, level, page)))
        }
        Step::Leaves(outcome) => by_plan(AnyPlan::Exit(Exit::plan(place, tdr, vp, outcome))),
    }
}

// The leaf of an operation that goes by a row.
fn operation_leaf(
    place: Place,
    given: Given<'_>,
    tdr: u16,
    vp: u16,
    line: usize,
    operation: GuestOp,
) -> AnyLeaf<'static>
    requires machine { IsMachine place.machine }
    requires inside { (tdr < place.machine.pages) × (vp < place.machine.pages) }
    requires limits { IsOperation operation }
    ensures task { ⟦<AnyLeaf<'static> as Leaf>⟧.task result ≡ operation_task (given_in given.entry) place tdr vp line operation }
    ensures fresh { let leaf = ⟦<AnyLeaf<'static> as Leaf>⟧ in IsFresh (leaf.task result).tree (leaf.rest result) (leaf.tries result) (leaf.written result) (leaf.waits result) }
{
    match operation {
        GuestOp::Set { register, value } => {
            by_plan(AnyPlan::Set(Set::plan(place, tdr, vp, register, value)))
        }
        GuestOp::Secret { register, number } => {
            let word = given.secrets[usize::from(number)];
            by_plan(AnyPlan::Set(Set::plan(place, tdr, vp, register, word)))
        }
        GuestOp::Add { register, other } => {
            by_plan(AnyPlan::Sum(Add::plan(place, tdr, vp, register, other)))
        }
        GuestOp::Load { register, gpa } => by_plan(AnyPlan::SharedLoad(SharedLoad::plan(
            place, tdr, vp, line, register, gpa,
        ))),
        GuestOp::Store { register, gpa } => by_plan(AnyPlan::SharedStore(SharedStore::plan(
            place, tdr, vp, register, gpa,
        ))),
        GuestOp::Accept { gpa } => by_plan(AnyPlan::Accept(Accept::plan(place, tdr, vp, gpa))),
        GuestOp::Rtmr { index } => by_plan(AnyPlan::Rtmr(Rtmr::plan(place, tdr, vp, line, index))),
        GuestOp::Report => AnyLeaf::Report(Report::leaf(place, tdr, vp, line)),
        GuestOp::Vmcall { register } => {
            by_plan(AnyPlan::Vmcall(Vmcall::plan(place, tdr, vp, register)))
        }
    }
}
