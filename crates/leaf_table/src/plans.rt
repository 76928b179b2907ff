//! The plan of each call, and of each step of a guest, that goes by one and takes no bundle.

ghost use Rattle.std.specs.Prelude.{◌≡◌};
ghost use Rattle.bundles.specs.Made.{made_in};
ghost use Rattle.leaf_engine.specs.Trees.{feed, answer_of};

use access_core::{
    Accept, Add, HostRead, HostWrite, PrivateLoad, PrivateStore, Rtmr, Set, SharedLoad,
    SharedStore, Vmcall, WalkLoad,
};
use bundles::Bundle;
use export_core::{Abort, BlockW, Pause, Restore, StreamCreate, UnblockW};
use export_sessions::Immutable;
use export_states::StateVp;
use export_tokens::Token;
use import_core::{Commit, ImportAbort, ImportEnd};
use key_table::{CacheWb, FlushDone, FreeId, Reclaim};
use leaf_engine::{Act, Hand, Plan, Stop, Told, Verdict, Write};
use mem_build::{PageAdd, PageAug, SeptAdd, SeptRd};
use mem_remove::{PageRemove, RangeBlock, RangeUnblock, Rdmd, Track};
use relocate_core::PageRelocate;
use td_control::{AddCx, Create, Finalize, Init, KeyConfig, Rd};
use vcpu_control::{Enter, Exit, VpCreate, VpFlush, VpInit};

/// A plan of any call that is built and takes no bundle, or of any step of a guest.
#[derive(Drop)]
pub enum AnyPlan {
    HostRead(HostRead),
    HostWrite(HostWrite),
    Rdmd(Rdmd),
    CacheWb(CacheWb),
    Reclaim(Reclaim),
    Create(Create),
    KeyConfig(KeyConfig),
    AddCx(AddCx),
    Init(Init),
    Rd(Rd),
    FlushDone(FlushDone),
    FreeId(FreeId),
    Finalize(Finalize),
    VpCreate(VpCreate),
    VpInit(VpInit),
    VpFlush(VpFlush),
    SeptAdd(SeptAdd),
    SeptRd(SeptRd),
    PageAdd(PageAdd),
    PageAug(PageAug),
    PageRemove(PageRemove),
    PageRelocate(PageRelocate),
    RangeBlock(RangeBlock),
    RangeUnblock(RangeUnblock),
    Track(Track),
    StreamCreate(StreamCreate),
    BlockW(BlockW),
    UnblockW(UnblockW),
    Pause(Pause),
    Abort(Abort),
    Restore(Restore),
    Immutable(Immutable),
    Token(Token),
    StateVp(StateVp),
    Commit(Commit),
    ImportEnd(ImportEnd),
    ImportAbort(ImportAbort),
    Enter(Enter),
    Exit(Exit),
    Set(Set),
    Sum(Add),
    Vmcall(Vmcall),
    Accept(Accept),
    Rtmr(Rtmr),
    SharedLoad(SharedLoad),
    SharedStore(SharedStore),
    PrivateLoad(PrivateLoad),
    PrivateStore(PrivateStore),
    WalkLoad(WalkLoad),
}

impl Plan for AnyPlan {
    ghost use Rattle.leaf_table.specs.Plans.{plan_task, plan_changes, plan_shown, plans-mean};

    ghost task = { λ p. plan_task p };

    ghost changes = { λ p told a. plan_changes p told a };

    ghost shown = { λ p told a. plan_shown p told a };

    fn decide(&self, told: Told) -> Result<Verdict, Stop> {
        match self {
            AnyPlan::HostRead(plan) => plan.decide(told),
            AnyPlan::HostWrite(plan) => plan.decide(told),
            AnyPlan::Rdmd(plan) => plan.decide(told),
            AnyPlan::CacheWb(plan) => plan.decide(told),
            AnyPlan::Reclaim(plan) => plan.decide(told),
            AnyPlan::Create(plan) => plan.decide(told),
            AnyPlan::KeyConfig(plan) => plan.decide(told),
            AnyPlan::AddCx(plan) => plan.decide(told),
            AnyPlan::Init(plan) => plan.decide(told),
            AnyPlan::Rd(plan) => plan.decide(told),
            AnyPlan::FlushDone(plan) => plan.decide(told),
            AnyPlan::FreeId(plan) => plan.decide(told),
            AnyPlan::Finalize(plan) => plan.decide(told),
            AnyPlan::VpCreate(plan) => plan.decide(told),
            AnyPlan::VpInit(plan) => plan.decide(told),
            AnyPlan::VpFlush(plan) => plan.decide(told),
            AnyPlan::SeptAdd(plan) => plan.decide(told),
            AnyPlan::SeptRd(plan) => plan.decide(told),
            AnyPlan::PageAdd(plan) => plan.decide(told),
            AnyPlan::PageAug(plan) => plan.decide(told),
            AnyPlan::PageRemove(plan) => plan.decide(told),
            AnyPlan::PageRelocate(plan) => plan.decide(told),
            AnyPlan::RangeBlock(plan) => plan.decide(told),
            AnyPlan::RangeUnblock(plan) => plan.decide(told),
            AnyPlan::Track(plan) => plan.decide(told),
            AnyPlan::StreamCreate(plan) => plan.decide(told),
            AnyPlan::BlockW(plan) => plan.decide(told),
            AnyPlan::UnblockW(plan) => plan.decide(told),
            AnyPlan::Pause(plan) => plan.decide(told),
            AnyPlan::Abort(plan) => plan.decide(told),
            AnyPlan::Restore(plan) => plan.decide(told),
            AnyPlan::Immutable(plan) => plan.decide(told),
            AnyPlan::Token(plan) => plan.decide(told),
            AnyPlan::StateVp(plan) => plan.decide(told),
            AnyPlan::Commit(plan) => plan.decide(told),
            AnyPlan::ImportEnd(plan) => plan.decide(told),
            AnyPlan::ImportAbort(plan) => plan.decide(told),
            AnyPlan::Enter(plan) => plan.decide(told),
            AnyPlan::Exit(plan) => plan.decide(told),
            AnyPlan::Set(plan) => plan.decide(told),
            AnyPlan::Sum(plan) => plan.decide(told),
            AnyPlan::Vmcall(plan) => plan.decide(told),
            AnyPlan::Accept(plan) => plan.decide(told),
            AnyPlan::Rtmr(plan) => plan.decide(told),
            AnyPlan::SharedLoad(plan) => plan.decide(told),
            AnyPlan::SharedStore(plan) => plan.decide(told),
            AnyPlan::PrivateLoad(plan) => plan.decide(told),
            AnyPlan::PrivateStore(plan) => plan.decide(told),
            AnyPlan::WalkLoad(plan) => plan.decide(told),
        }
    }

    fn write(&self, act: Act, told: &[u64], number: usize, hand: &mut Hand) -> Option<Write> {
        match self {
            AnyPlan::HostRead(plan) => plan.write(act, told, number, hand),
            AnyPlan::HostWrite(plan) => plan.write(act, told, number, hand),
            AnyPlan::Rdmd(plan) => plan.write(act, told, number, hand),
            AnyPlan::CacheWb(plan) => plan.write(act, told, number, hand),
            AnyPlan::Reclaim(plan) => plan.write(act, told, number, hand),
            AnyPlan::Create(plan) => plan.write(act, told, number, hand),
            AnyPlan::KeyConfig(plan) => plan.write(act, told, number, hand),
            AnyPlan::AddCx(plan) => plan.write(act, told, number, hand),
            AnyPlan::Init(plan) => plan.write(act, told, number, hand),
            AnyPlan::Rd(plan) => plan.write(act, told, number, hand),
            AnyPlan::FlushDone(plan) => plan.write(act, told, number, hand),
            AnyPlan::FreeId(plan) => plan.write(act, told, number, hand),
            AnyPlan::Finalize(plan) => plan.write(act, told, number, hand),
            AnyPlan::VpCreate(plan) => plan.write(act, told, number, hand),
            AnyPlan::VpInit(plan) => plan.write(act, told, number, hand),
            AnyPlan::VpFlush(plan) => plan.write(act, told, number, hand),
            AnyPlan::SeptAdd(plan) => plan.write(act, told, number, hand),
            AnyPlan::SeptRd(plan) => plan.write(act, told, number, hand),
            AnyPlan::PageAdd(plan) => plan.write(act, told, number, hand),
            AnyPlan::PageAug(plan) => plan.write(act, told, number, hand),
            AnyPlan::PageRemove(plan) => plan.write(act, told, number, hand),
            AnyPlan::PageRelocate(plan) => plan.write(act, told, number, hand),
            AnyPlan::RangeBlock(plan) => plan.write(act, told, number, hand),
            AnyPlan::RangeUnblock(plan) => plan.write(act, told, number, hand),
            AnyPlan::Track(plan) => plan.write(act, told, number, hand),
            AnyPlan::StreamCreate(plan) => plan.write(act, told, number, hand),
            AnyPlan::BlockW(plan) => plan.write(act, told, number, hand),
            AnyPlan::UnblockW(plan) => plan.write(act, told, number, hand),
            AnyPlan::Pause(plan) => plan.write(act, told, number, hand),
            AnyPlan::Abort(plan) => plan.write(act, told, number, hand),
            AnyPlan::Restore(plan) => plan.write(act, told, number, hand),
            AnyPlan::Immutable(plan) => plan.write(act, told, number, hand),
            AnyPlan::Token(plan) => plan.write(act, told, number, hand),
            AnyPlan::StateVp(plan) => plan.write(act, told, number, hand),
            AnyPlan::Commit(plan) => plan.write(act, told, number, hand),
            AnyPlan::ImportEnd(plan) => plan.write(act, told, number, hand),
            AnyPlan::ImportAbort(plan) => plan.write(act, told, number, hand),
            AnyPlan::Enter(plan) => plan.write(act, told, number, hand),
            AnyPlan::Exit(plan) => plan.write(act, told, number, hand),
            AnyPlan::Set(plan) => plan.write(act, told, number, hand),
            AnyPlan::Sum(plan) => plan.write(act, told, number, hand),
            AnyPlan::Vmcall(plan) => plan.write(act, told, number, hand),
            AnyPlan::Accept(plan) => plan.write(act, told, number, hand),
            AnyPlan::Rtmr(plan) => plan.write(act, told, number, hand),
            AnyPlan::SharedLoad(plan) => plan.write(act, told, number, hand),
            AnyPlan::SharedStore(plan) => plan.write(act, told, number, hand),
            AnyPlan::PrivateLoad(plan) => plan.write(act, told, number, hand),
            AnyPlan::PrivateStore(plan) => plan.write(act, told, number, hand),
            AnyPlan::WalkLoad(plan) => plan.write(act, told, number, hand),
        }
    }

    ghost means = { plans-mean };
}

impl AnyPlan {
    ghost use Rattle.leaf_table.specs.Plans.{plan_task};

    /// The bundle that it makes, where these words have brought it to its act.
    pub fn bundle<'t>(&self, told: &'t [u64]) -> Option<Bundle<'t>>
        ensures { made_in result ≡ (answer_of (feed (plan_task self.now).tree told.now)).bundles }
    {
        match self {
            AnyPlan::Immutable(plan) => plan.bundle(told),
            AnyPlan::Token(plan) => plan.bundle(told),
            AnyPlan::StateVp(plan) => plan.bundle(told),
            AnyPlan::ImportAbort(plan) => plan.bundle(told),
            _ => None,
        }
    }
}
