//! The guest that a logical processor is in, and what it does next.

ghost use Rattle.std.specs.Prelude.{◌≡◌, ◌+◌, ◌<◌, ◌≤◌, true, length, Option, None, IfSome};
ghost use Rattle.std.specs.List.{All};
ghost use Rattle.flat_core.specs.Guest.{is_private};
ghost use Rattle.flat_core.specs.Tree.{page_of_gpa};
ghost use Rattle.flat_core.specs.Translations.{look_up};
ghost use Rattle.leaf_engine.specs.Turns.{Standing};
ghost use Rattle.leaf_engine.specs.Guests.{private_step, operation_step, passed_on, leaving_with, exited_with, operated, is_right, walked, loaded};
ghost use Rattle.leaf_engine.specs.Merges.{IsOperation, IsStepOf};
ghost use Rattle.td_words.specs.declared.replies.Reply.TheVariants.{Refused};
ghost use Rattle.leaf_dispatch.specs.Answers.{is_busy};
ghost use Rattle.leaf_dispatch.specs.FirstLists.{AreFirstLists};
ghost use Rattle.leaf_dispatch.specs.Lists.{AreWithoutList, AreWithList};
ghost use Rattle.leaf_table.specs.Steps.{step_seen};
ghost use Rattle.leaf_dispatch.specs.Guests.{guest_seen, due_in, next_in, IsLow, CanCount, is_outcome, IsNumber, IsReplyOf, unless, IsStepped};

use crate::first_lists::FirstLists;
use leaf_table::Step;
use td_words::{Access, Code, GuestOp, Outcome, Reply, Status, Value};
use tlb_epochs::Tlb;

/// Private GPAs are below this one.
const SHARED: u64 = 1 << 47;

/// A walk under way: its GPA page, the level of the entry that it loads next, and the page where
/// that entry stands.
#[derive(Clone, Copy)]
pub struct WalkAt {
    pub gpa_page: u64,
    pub level: u8,
    pub page: u64,
}

/// A virtual processor in guest: its TD, its page, the root page of the TD's secure EPT, how many
/// operations it may complete in this entry and has completed, its index, its list of operations and
/// its position there, its walk, and why it is to be left.
#[derive(Clone, Copy)]
pub struct GuestAt<'a> {
    pub tdr: u16,
    pub vp: u16,
    pub root: u16,
    pub most: u64,
    pub completed: u64,
    pub index: u64,
    pub list: &'a [GuestOp],
    pub position: u64,
    pub walk: Option<WalkAt>,
    pub leaving: Option<Outcome>,
}

/// What is told of a virtual processor in guest: the TDR page of its TD, its own page, how many
/// operations it may complete in this entry, and how many it has completed.
#[derive(Clone, Copy)]
pub struct InGuest {
    pub tdr: u16,
    pub vp: u16,
    pub most: u64,
    pub completed: u64,
}

/// The same guest without its list, so that nothing is borrowed.
pub fn without_list(guest: Option<GuestAt<'_>>) -> Option<GuestAt<'static>>
    ensures { AreWithoutList guest.entry result }
{
    match guest {
        Some(guest) => Some(GuestAt { list: &[], ..guest }),
        None => None,
    }
}

/// The same guest with the list of its virtual processor.
pub fn with_list<'b>(
    guest: Option<GuestAt<'static>>,
    codes: &'b [Code],
    first_lists: &FirstLists,
) -> Option<GuestAt<'b>>
    requires { AreFirstLists codes.now first_lists.now }
    ensures { AreWithList codes.now guest.entry result }
{
    match guest {
        Some(guest) => Some(GuestAt {
            list: first_lists.list_at(codes, guest.tdr, guest.index),
            ..guest
        }),
        None => None,
    }
}

/// The guest's next step, by the translations that are cached.
pub fn next_step(guest: &GuestAt<'_>, cached: &Tlb) -> Step
    requires low { IsLow guest.now.walk }
    requires limits { All IsOperation guest.now.list.now }
    ensures step { (run : Option Standing) → step_seen result ≡ next_in cached.now guest.now run }
    ensures counts { CanCount guest.now (step_seen result) }
    ensures inside { IsStepOf (step_seen result) }
{
    match guest.leaving {
        Some(outcome) => Step::Leaves(outcome),
        None => next_due(guest, cached),
    }
}

// At the list's end the guest is left, which is tested first.
fn next_due(guest: &GuestAt<'_>, cached: &Tlb) -> Step
    requires low { IsLow guest.now.walk }
    requires limits { All IsOperation guest.now.list.now }
    ensures step { (run : Option Standing) → step_seen result ≡ due_in cached.now guest.now run }
    ensures counts { CanCount guest.now (step_seen result) }
    ensures inside { IsStepOf (step_seen result) }
{
    match guest.list.get(guest.position as usize) {
        Some(operation) => {
            if guest.most <= guest.completed {
                Step::Leaves(Outcome::Max)
            } else {
                next_operation(guest, cached, *operation)
            }
        }
        None => Step::Leaves(Outcome::Stop),
    }
}

fn next_operation(guest: &GuestAt<'_>, cached: &Tlb, operation: GuestOp) -> Step
    requires low { IsLow guest.now.walk }
    requires counted { (guest.now.completed < guest.now.most) × (guest.now.position < length guest.now.list.now) }
    requires inside { IsOperation operation }
    ensures step { (run : Option Standing) → step_seen result ≡ operation_step cached.now (guest_seen guest.now run) operation }
    ensures counts { CanCount guest.now (step_seen result) }
    ensures inside { IsStepOf (step_seen result) }
{
    match operation {
        GuestOp::Load { register, gpa } if gpa < SHARED => {
            next_private(guest, cached, Access::Read, register, gpa)
        }
        GuestOp::Store { register, gpa } if gpa < SHARED => {
            next_private(guest, cached, Access::Write, register, gpa)
        }
        _ => Step::Operates(operation),
    }
}

// An access to a private GPA goes by a cached translation, or walks until there is one.
fn next_private(guest: &GuestAt<'_>, cached: &Tlb, access: Access, register: u8, gpa: u64) -> Step
    requires low { IsLow guest.now.walk }
    requires counted { (guest.now.completed < guest.now.most) × (guest.now.position < length guest.now.list.now) }
    requires inside { (register < 8) × (is_private gpa ≡ true) }
    ensures step { (run : Option Standing) → step_seen result ≡ private_step (guest_seen guest.now run) access register gpa (look_up cached.now guest.now.tdr (page_of_gpa gpa) access) }
    ensures counts { CanCount guest.now (step_seen result) }
    ensures inside { IsStepOf (step_seen result) }
{
    match cached.look_up(guest.tdr, gpa, access) {
        Some(page) => Step::Accesses {
            access,
            register,
            gpa,
            page,
        },
        None => {
            let (level, page) = match guest.walk {
                Some(walk) => (walk.level, walk.page),
                None => (3, u64::from(guest.root)),
            };
            Step::Loads {
                access,
                gpa,
                level,
                page,
            }
        }
    }
}

/// What becomes of the guest once a step has its reply, and whether it is left.
pub fn step_on(guest: &mut GuestAt<'_>, step: Step, reply: Reply) -> bool
    requires counted { CanCount guest.old (step_seen step) }
    requires fits { IsReplyOf (step_seen step) reply }
    requires low { IsLow guest.old.walk }
    requires level { IsStepOf (step_seen step) }
    ensures stepped { IsStepped guest.old (step_seen step) reply (unless result guest.new) }
    ensures kept { IsLow guest.new.walk × (guest.new.list.now ≡ guest.old.list.now) }
{
    match step {
        Step::Operates(_) => {
            operate_on(guest, reply);
            false
        }
        Step::Accesses { .. } => {
            pass_on(guest);
            false
        }
        Step::Loads {
            access,
            gpa,
            level,
            ..
        } => {
            *guest = walk_on(*guest, access, gpa, level, reply);
            false
        }
        Step::Leaves(_) => true,
    }
}

// An operation is completed.
fn pass_on(guest: &mut GuestAt<'_>)
    requires counted { (guest.old.completed < guest.old.most) × (guest.old.position < length guest.old.list.now) }
    ensures seen { (run : Option Standing) → guest_seen guest.new None ≡ passed_on (guest_seen guest.old run) }
    ensures walk { guest.new.walk ≡ None }
    ensures list { guest.new.list.now ≡ guest.old.list.now }
{
    guest.completed += 1;
    guest.position += 1;
    guest.walk = None;
}

// The guest is to be left.
fn leave_with<'a>(guest: GuestAt<'a>, outcome: Outcome) -> GuestAt<'a>
    ensures seen { (run : Option Standing) → guest_seen result None ≡ leaving_with outcome (guest_seen guest.entry run) }
    ensures walk { result.walk ≡ None }
    ensures list { result.list.now ≡ guest.entry.list.now }
{
    GuestAt {
        walk: None,
        leaving: Some(outcome),
        ..guest
    }
}

// What becomes of it by an operation's reply.
fn operate_on(guest: &mut GuestAt<'_>, reply: Reply)
    requires counted { (guest.old.completed < guest.old.most) × (guest.old.position < length guest.old.list.now) }
    requires outcome { is_outcome reply ≡ true }
    ensures seen { (run : Option Standing) → guest_seen guest.new None ≡ operated reply (guest_seen guest.old run) }
    ensures walk { guest.new.walk ≡ None }
    ensures list { guest.new.list.now ≡ guest.old.list.now }
{
    match reply {
        Reply::Done(_) => pass_on(guest),
        Reply::Exited(outcome) => *guest = exit_on(*guest, outcome),
        Reply::Refused(status) => *guest = refuse_on(*guest, status),
    }
}

// The operation's try of a lock was denied.
fn refuse_on<'a>(guest: GuestAt<'a>, status: Status) -> GuestAt<'a>
    requires busy { is_busy (Refused status) ≡ true }
    ensures seen { (run : Option Standing) → guest_seen result None ≡ operated (Refused status) (guest_seen guest.entry run) }
    ensures walk { result.walk ≡ None }
    ensures list { result.list.now ≡ guest.entry.list.now }
{
    match status {
        Status::OperandBusy(name) => leave_with(guest, Outcome::Busy(name)),
        _ => unreachable!(),
    }
}

// A VMCALL is behind its guest, and yet the guest is left.
fn exit_on<'a>(guest: GuestAt<'a>, outcome: Outcome) -> GuestAt<'a>
    requires counted { guest.position < length guest.list.now }
    ensures seen { (run : Option Standing) → guest_seen result None ≡ exited_with outcome (guest_seen guest.entry run) }
    ensures walk { result.walk ≡ None }
    ensures list { result.list.now ≡ guest.entry.list.now }
{
    match outcome {
        Outcome::Vmcall(word) => leave_with(
            GuestAt {
                position: guest.position + 1,
                ..guest
            },
            Outcome::Vmcall(word),
        ),
        Outcome::Stop => leave_with(guest, Outcome::Stop),
        Outcome::Max => leave_with(guest, Outcome::Max),
        Outcome::EptViolation { gpa, access } => {
            leave_with(guest, Outcome::EptViolation { gpa, access })
        }
        Outcome::Busy(name) => leave_with(guest, Outcome::Busy(name)),
    }
}

// A walk goes on, is done, or is an EPT violation.
fn walk_on<'a>(guest: GuestAt<'a>, access: Access, gpa: u64, level: u8, reply: Reply) -> GuestAt<'a>
    requires number { IsNumber reply }
    ensures seen { (run : Option Standing) → guest_seen result None ≡ loaded access gpa level reply (guest_seen guest.entry run) }
    ensures low { IsLow guest.entry.walk → level ≤ 3 → IsLow result.walk }
    ensures list { result.list.now ≡ guest.entry.list.now }
{
    let Reply::Done(value) = reply else {
        unreachable!()
    };
    let Value::Number(rights) = value else {
        unreachable!()
    };
    match level {
        0 => {
            if is_right(access, level, rights) {
                GuestAt {
                    walk: None,
                    ..guest
                }
            } else {
                leave_with(guest, Outcome::EptViolation { gpa, access })
            }
        }
        _ => {
            if is_right(access, level, rights) {
                GuestAt {
                    walk: Some(WalkAt {
                        gpa_page: gpa / 4096,
                        level: level - 1,
                        page: rights / 8,
                    }),
                    ..guest
                }
            } else {
                leave_with(guest, Outcome::EptViolation { gpa, access })
            }
        }
    }
}

/// Whether a walk goes on behind an upper entry, or an entry of level 0 allows the access.
pub fn is_right(access: Access, level: u8, rights: u64) -> bool
    ensures { result ≡ is_right access level rights }
{
    match (level, access) {
        (0, Access::Read) => rights / 2 % 2 == 1,
        (0, Access::Write) => rights % 2 == 1,
        _ => rights / 4 % 2 == 1,
    }
}
