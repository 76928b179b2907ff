//! What becomes of a logical processor by the reply of a leaf's act: of its cached translations and
//! its guest, and what it notes and tells.

ghost use Rattle.std.specs.Prelude.{◌≡◌, ℕ, ◌<◌, true, List, None, IfSome, option_map};
ghost use Rattle.report_core.specs.declared.facts.Facts.{Facts};
ghost use Rattle.leaf_engine.specs.Guests.{guest_entered};
ghost use Rattle.leaf_table.specs.Ends.{call_answer, call_fits, step_answer, step_ends, step_fits};
ghost use Rattle.leaf_table.specs.Steps.{step_seen};
ghost use Rattle.leaf_dispatch.specs.Answers.{answer_with};
ghost use Rattle.leaf_dispatch.specs.Guests.{guest_seen, facts_at, notes_in, words_in, IsLow, IsPlaced};
ghost use Rattle.leaf_dispatch.specs.FirstLists.{AreFirstLists};
ghost use Rattle.leaf_table.specs.Table.{code_in};

use crate::first_lists::FirstLists;
use crate::guests::{GuestAt, is_right};
use leaf_table::Step;
use report_text::GuestNote;
use td_words::{Access, Call, Code, GuestOp, Machine, Outcome, Reply, Value};
use tlb_epochs::Tlb;

/// The act of VP.ENTER drops the TD's translations where they are stale, and that of VP.FLUSH drops
/// them.
pub fn drop_stale(machine: Machine, cached: &mut Tlb, call: &Call, reply: Reply)
    requires { call_fits machine call.now reply ≡ true }
    ensures { cached.new ≡ (call_answer call.now reply).cached cached.old }
{
    let _pages = machine.pages;
    match (*call, reply) {
        (Call::VpEnter { tdr, .. }, Reply::Done(Value::Entered { stale, .. })) => {
            if stale {
                cached.flush_td(tdr as u16);
            }
        }
        (Call::VpFlush { tdr, .. }, Reply::Done(Value::Nothing)) => cached.flush_td(tdr as u16),
        _ => (),
    }
}

/// The guest that the act of VP.ENTER enters.
pub fn entered<'a>(
    machine: Machine,
    codes: &'a [Code],
    first_lists: &FirstLists,
    call: &Call,
    reply: Reply,
) -> Option<GuestAt<'a>>
    requires fits { call_fits machine call.now reply ≡ true }
    requires first_lists { AreFirstLists codes.now first_lists.now }
    ensures seen { option_map (λ g. guest_seen g None) result ≡ guest_entered (call_answer call.now reply) }
    ensures inside { IfSome result (λ g. (g.tdr < machine.pages) × (g.vp < machine.pages) × (code_in codes.now g.tdr g.index ≡ g.list.now) × IsLow g.walk) }
{
    let _pages = machine.pages;
    let (
        Call::VpEnter { tdr, vp, max },
        Reply::Done(
            Value::Entered {
                stale: _,
                index,
                position,
                root,
            },
        ),
    ) = (*call, reply)
    else {
        return None;
    };
    Some(GuestAt {
        tdr: tdr as u16,
        vp: vp as u16,
        root,
        most: max,
        completed: 0,
        index,
        list: first_lists.list_at(codes, tdr as u16, index),
        position,
        walk: None,
        leaving: None,
    })
}

/// The load of an entry of level 0 that allows the access lets its translation be cached.
pub fn cache_walk(cached: &mut Tlb, tdr: u16, step: Step, reply: Reply)
    requires { step_fits (step_seen step) reply ≡ true }
    ensures { (line : ℕ) → cached.new ≡ (step_answer tdr line (step_seen step) reply).cached cached.old }
{
    if let (
        Step::Loads {
            access,
            gpa,
            level,
            ..
        },
        Reply::Done(Value::Number(seen)),
    ) = (step, reply)
    {
        if level == 0 && is_right(access, level, seen) {
            cached.fill(tdr, gpa, (seen / 8) as u16, seen % 2 == 1);
        }
    }
}

/// What a guest read, the RTMR that it extended, or the place of the facts that it reported, at a call line.
pub fn noted(line: u32, step: Step, reply: Reply, place: Option<u32>) -> Option<GuestNote>
    ensures noted { (tdr : ℕ) (reports : List Facts) → notes_in reports result ≡ (answer_with (step_ends tdr line (step_seen step)) (option_map (facts_at reports) place) reply).notes }
    ensures placed { (n : ℕ) → IfSome place (λ at. at < n) → IfSome result (IsPlaced n) }
{
    match (step, reply) {
        (Step::Operates(GuestOp::Report), _) => match place {
            Some(place) => Some(GuestNote::Report { line, place }),
            None => None,
        },
        (Step::Operates(GuestOp::Load { gpa, .. }), Reply::Done(Value::Number(word))) => {
            Some(GuestNote::Load { line, gpa, word })
        }
        (
            Step::Accesses {
                access: Access::Read,
                gpa,
                ..
            },
            Reply::Done(Value::Number(word)),
        ) => Some(GuestNote::Load { line, gpa, word }),
        (Step::Operates(GuestOp::Rtmr { index }), Reply::Done(Value::Digest(digest))) => {
            Some(GuestNote::Rtmr {
                line,
                index,
                digest,
            })
        }
        _ => None,
    }
}

/// The word that a guest told.
pub fn told(step: Step, reply: Reply) -> Option<u64>
    ensures { (tdr line : ℕ) → words_in result ≡ (step_answer tdr line (step_seen step) reply).tells }
{
    match (step, reply) {
        (Step::Operates(GuestOp::Store { .. }), Reply::Done(Value::Number(word))) => Some(word),
        (Step::Operates(GuestOp::Vmcall { .. }), Reply::Exited(Outcome::Vmcall(word))) => {
            Some(word)
        }
        _ => None,
    }
}
