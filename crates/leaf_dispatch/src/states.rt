//! Logical processors with their calls and their guests.

ghost use Rattle.std.specs.Prelude.{◌≡◌, ◌+◌, ◌<◌, ◌≤◌, ◌^◌, true, length, vec_capacity};
ghost use Rattle.std.specs.List.{All};
ghost use Rattle.leaf_table.specs.Table.{code_in};
ghost use Rattle.leaf_dispatch.specs.Guests.{IsPlaced, ArePlaced-prop};
ghost use Rattle.td_words.specs.Limits.{IsMachine};
ghost use Rattle.leaf_table.specs.Given.{given_in};
ghost use Rattle.leaf_dispatch.specs.Running.{holds_room, TakesIts};
ghost use Rattle.leaf_dispatch.specs.Kept.{TakesIts-prop};
ghost use Rattle.leaf_dispatch.specs.CallRuns.{call_run_seen, IsCallRunAt, IsCallRunAt-prop};
ghost use Rattle.leaf_dispatch.specs.Inside.{guest_in, AreOperations, AreOperations-prop, KeepsGuest, KeepsGuest-prop};
ghost use Rattle.leaf_dispatch.specs.NoteRooms.{longest_in, room_of, most_reports, reports_of};
ghost use Rattle.leaf_dispatch.specs.BundleRooms.{count_of, words_of, still_make};
ghost use Rattle.leaf_dispatch.specs.FirstLists.{AreFirstLists, AreFirstLists-prop};

use crate::call_runs::{CallRun, call_held_of, made_by_call};
use crate::ended::EndedBundles;
use crate::exits::event_told;
use crate::first_lists::FirstLists;
use crate::guests::{GuestAt, InGuest, next_step, with_list, without_list};
use crate::inputs::Inputs;
use crate::paused::PausedLp;
use crate::rooms::{
    lines_bundles, lines_payloads, lines_reports, lines_room, longest, most_reports,
};
use crate::step_runs::{StepRun, forget_step, step_held_of};
use crate::turns::{
    GuestTurn, answer_exit, is_acting, leave_where, note_by, place_behind, tell_by, turn_guest,
    turn_line,
};
use bundles::Bundles;
use export_pages::PageWords;
use guest_turns::LeafTurn;
use leaf_engine::{Event, HeldLock, Place, Processor, Turn, turns_in_pieces};
use leaf_table::{Given, Step};
use report_core::Facts;
use report_text::GuestNote;
use std::alloc::Global;
use step_core::Bench;
use td_words::{Call, Code, OutOfMemory, Reply};
use tlb_epochs::Tlb;

/// A logical processor: its calls from the present one on, and the run of that call once its first
/// event is made; the guest that it is in, and the run of what the guest does; its cached translations;
/// its replies, one for each call that is done, what its guests noted, reported and told, and the bundles that
/// its calls made; and a place, into which its turns are written. The room for a page's words is spare, but
/// while a run of EXPORT.MEM has it.
#[derive(Drop)]
pub struct LpState<'a> {
    place: Place,
    lines: &'a [Call],
    codes: &'a [Code],
    given: Given<'a>,
    first_lists: &'a FirstLists,
    run: CallRun<'a>,
    spare: Option<PageWords>,
    guest: Option<GuestAt<'a>>,
    step_run: StepRun,
    cached: Tlb,
    replies: Vec<Reply>,
    notes: Vec<GuestNote>,
    reports: Vec<Facts>,
    told: Vec<u64>,
    bundles: Bundles,
    turn: LeafTurn,
    ghost machine: { IsMachine place.machine },
    ghost limits: { AreOperations codes.now } by { AreOperations-prop codes.now },
    ghost lists_are: { AreFirstLists codes.now first_lists.now } by { AreFirstLists-prop codes.now first_lists.now },
    ghost few: { length replies.items + length lines.now < 2 ^ 32 },
    ghost under_way: { IsCallRunAt place.machine lines.now run } by { IsCallRunAt-prop place.machine lines.now run },
    ghost inside: { KeepsGuest place.machine codes.now cached (length replies.items + 1) guest run.other step_run } by { KeepsGuest-prop place.machine codes.now cached (length replies.items + 1) guest run.other step_run },
    ghost room: { length replies.items + length lines.now ≤ vec_capacity replies },
    ghost note_room: { length notes.items + room_of (longest_in codes.now) lines.now (call_run_seen run) (guest_in guest step_run) ≤ vec_capacity notes },
    ghost word_room: { length told.items + room_of (longest_in codes.now) lines.now (call_run_seen run) (guest_in guest step_run) ≤ vec_capacity told },
    ghost places: { All (IsPlaced (length reports.items)) notes.items } by { ArePlaced-prop (length reports.items) notes.items },
    ghost fact_room: { length reports.items + reports_of (most_reports codes.now) (code_in codes.now) lines.now (call_run_seen run) (guest_in guest step_run) ≤ vec_capacity reports },
    ghost few_facts: { length reports.items + reports_of (most_reports codes.now) (code_in codes.now) lines.now (call_run_seen run) (guest_in guest step_run) < 2 ^ 32 },
    ghost bundle_room: { still_make count_of lines.now (call_run_seen run) ≤ bundles.room },
    ghost payload_room: { still_make words_of lines.now (call_run_seen run) ≤ bundles.word_room },
    ghost page_room: { holds_room spare run.other ≡ true },
    ghost takes: { TakesIts (given_in given) run.other } by { TakesIts-prop (given_in given) run.other },
}

impl<'a> LpState<'a> {
    ghost use Rattle.std.specs.Prelude.{◌≡◌, ◌<◌, ◌^◌, ◌∷◌, true, false, None, Some, is_some, length, map, option_map, IfOk};
    ghost use Rattle.td_words.specs.Limits.{IsMachine};
    ghost use Rattle.leaf_engine.specs.OwnLists.{first_lp};
    ghost use Rattle.std.specs.List.{All};
    ghost use Rattle.leaf_dispatch.specs.Guests.{note_seen, IsPlaced};
    ghost use Rattle.leaf_dispatch.specs.Inside.{acting};
    ghost use Rattle.leaf_table.specs.Given.{given_in};
    ghost use Rattle.leaf_table.specs.Steps.{step_seen};
    ghost use Rattle.leaf_table.specs.Table.{code_in};
    ghost use Rattle.leaf_dispatch.specs.States.{seen_of, HasMoved};
    ghost use Rattle.leaf_dispatch.specs.Paused.{paused_seen, CanResume};
    ghost use Rattle.leaf_dispatch.specs.Ended.{ended_in, ended_seen};
    ghost use Rattle.leaf_dispatch.specs.Held.{held_by};
    ghost use Rattle.leaf_dispatch.specs.Due.{step_due, in_guest, step_held};

    /// That processor, at the first of its calls. All the memory is taken here that its replies need, what
    /// its guests can note and tell, the bundles that its calls can make, and the words of a page on their
    /// way into one.
    pub fn new(
        alloc: Global,
        place: Place,
        inputs: Inputs<'a>,
        calls: &'a [Call],
    ) -> Result<LpState<'a>, OutOfMemory>
        requires machine { IsMachine place.machine }
        requires few { length calls.now < 2 ^ 32 }
        ensures place { IfOk result (λ s. s.place ≡ place) }
        ensures codes { IfOk result (λ s. s.codes.now ≡ inputs.entry.codes.now) }
        ensures given { IfOk result (λ s. given_in s.given ≡ given_in inputs.entry.given) }
        ensures first { IfOk result (λ s. seen_of s ≡ first_lp calls.now) }
    {
        let Inputs {
            codes,
            first_lists,
            given,
        } = inputs;
        let Some(room) = lines_room(longest(codes), calls) else {
            return Err(OutOfMemory);
        };
        let Ok(replies) = Vec::with_capacity(alloc, calls.len()) else {
            return Err(OutOfMemory);
        };
        let Ok(notes) = Vec::with_capacity(alloc, room) else {
            return Err(OutOfMemory);
        };
        let Ok(told) = Vec::with_capacity(alloc, room) else {
            return Err(OutOfMemory);
        };
        let Some(facts) = lines_reports(most_reports(codes), calls) else {
            return Err(OutOfMemory);
        };
        if facts > u32::MAX as usize {
            return Err(OutOfMemory);
        }
        let Ok(reports) = Vec::with_capacity(alloc, facts) else {
            return Err(OutOfMemory);
        };
        let count = lines_bundles(calls);
        let words = lines_payloads(calls);
        let Ok(bundles) = Bundles::new(alloc, count, words) else {
            return Err(OutOfMemory);
        };
        let Ok(page_words) = PageWords::new(alloc) else {
            return Err(OutOfMemory);
        };
        Ok(LpState {
            place,
            lines: calls,
            codes,
            given,
            first_lists,
            run: CallRun {
                host: None,
                other: None,
            },
            spare: Some(page_words),
            guest: None,
            step_run: StepRun {
                shared: None,
                other: None,
            },
            cached: Tlb::new(),
            replies,
            notes,
            reports,
            told,
            bundles,
            turn: LeafTurn::unmade(),
        })
    }

    /// Pauses it, wherever it is: nothing is borrowed then, and no memory is taken.
    pub fn pause(self) -> PausedLp
        ensures place { result.place ≡ self.entry.place }
        ensures resumable { CanResume result self.entry.codes.now self.entry.lines.now (given_in self.entry.given) }
        ensures seen { paused_seen result self.entry.lines.now (given_in self.entry.given) ≡ seen_of self.entry }
    {
        let LpState {
            place,
            lines: _,
            codes: _,
            given: _,
            first_lists: _,
            run,
            spare,
            guest,
            step_run,
            cached,
            replies,
            notes,
            reports,
            told,
            bundles,
            turn,
        } = self;
        PausedLp {
            place,
            run: run.without_input(),
            spare,
            guest: without_list(guest),
            step_run,
            cached,
            replies,
            notes,
            reports,
            told,
            bundles,
            turn,
        }
    }

    /// Its calls from the present one on.
    pub fn lines(&self) -> &'a [Call]
        ensures { result.now ≡ (seen_of self.now).lines }
    {
        self.lines
    }

    /// One for each call that is done, in order.
    pub fn replies(&self) -> &[Reply]
        ensures { result.now ≡ (seen_of self.now).replies }
    {
        self.replies.as_slice()
    }

    /// What its guests read, extended and reported, in order.
    pub fn notes(&self) -> &[GuestNote]
        ensures notes { map (note_seen self.now.reports.items) result.now ≡ (seen_of self.now).beside.notes }
        ensures placed { All (IsPlaced (length self.now.reports.items)) result.now }
    {
        self.notes.as_slice()
    }

    /// The facts that its guests reported, in order: a report's note has a place among them.
    pub fn reports(&self) -> &[Facts]
        ensures { result.now ≡ self.now.reports.items }
    {
        self.reports.as_slice()
    }

    /// The words that its guests told, in order.
    pub fn told(&self) -> &[u64]
        ensures { result.now ≡ (seen_of self.now).beside.told }
    {
        self.told.as_slice()
    }

    /// The bundles of its calls that have ended, in order: a call's bundle is there from its last event on.
    pub fn bundles(&self) -> EndedBundles<'_>
        ensures { ended_seen result ≡ ended_in (seen_of self.now) }
    {
        let under_way = match self.lines {
            [] => 0,
            _ => made_by_call(&self.run),
        };
        EndedBundles {
            bundles: &self.bundles,
            count: self.bundles.len().saturating_sub(under_way),
        }
    }

    /// The step by which its guest makes its next event, once its VP.ENTER has given E back; none outside
    /// guests.
    pub fn next_step(&self) -> Option<Step>
        ensures { option_map step_seen result ≡ step_due (code_in self.now.codes.now) (seen_of self.now) }
    {
        match &self.guest {
            None => None,
            Some(guest) => Some(next_step(guest, &self.cached)),
        }
    }

    /// The guest that it is in.
    pub fn guest(&self) -> Option<InGuest>
        ensures { result ≡ option_map in_guest (seen_of self.now).guest }
    {
        match &self.guest {
            None => None,
            Some(guest) => Some(InGuest {
                tdr: guest.tdr,
                vp: guest.vp,
                most: guest.most,
                completed: guest.completed,
            }),
        }
    }

    /// The locks that the run of its call holds, the oldest first.
    pub fn call_held(&self) -> &[HeldLock]
        ensures { result.now ≡ held_by (seen_of self.now).run }
    {
        call_held_of(&self.run)
    }

    /// The locks that the run of its guest's step holds, the oldest first.
    pub fn step_held(&self) -> &[HeldLock]
        ensures { result.now ≡ step_held (seen_of self.now).guest }
    {
        match &self.guest {
            None => &[],
            Some(_) => step_held_of(&self.step_run),
        }
    }

    /// Its cached translations, the oldest first.
    pub fn cached(&self) -> &Tlb
        ensures { result.now ≡ (seen_of self.now).beside.cached }
    {
        &self.cached
    }

    // The next event, at the present line. It is apart from its caller, which is asked more often than
    // there are events.
    #[inline(never)]
    fn next_event<B: Bench>(&mut self, call: &'a Call, further: &'a [Call], bench: &mut B) -> Event
        requires machine { self.old.place.machine ≡ B.machine bench.old }
        requires lines { self.old.lines.now ≡ call.now ∷ further.now }
        ensures moved { HasMoved (B.did bench.old) self.old bench.new self.new result }
        ensures same { B.machine bench.new ≡ B.machine bench.old }
    {
        if is_acting(&self.guest, &self.run.other) {
            self.guest_event(bench)
        } else {
            self.line_event(call, further, bench)
        }
    }

    // The next event of the present line's own leaf.
    fn line_event<B: Bench>(&mut self, call: &'a Call, further: &'a [Call], bench: &mut B) -> Event
        requires machine { self.old.place.machine ≡ B.machine bench.old }
        requires lines { self.old.lines.now ≡ call.now ∷ further.now }
        requires own { is_some (acting self.old.guest self.old.run.other) ≡ false }
        ensures moved { HasMoved (B.did bench.old) self.old bench.new self.new result }
        ensures same { B.machine bench.new ≡ B.machine bench.old }
    {
        turns_in_pieces();
        turn_line(
            &mut self.run,
            &mut self.spare,
            &mut self.bundles,
            &mut self.cached,
            &mut self.guest,
            self.place,
            self.given,
            self.codes,
            self.first_lists,
            call,
            bench,
            &mut self.turn,
        );
        match self.turn.reply {
            None => self.turn.event,
            Some(reply) => {
                let Ok(()) = self.replies.push(reply) else {
                    unreachable!()
                };
                self.lines = further;
                self.guest = None;
                forget_step(&mut self.step_run);
                self.turn.event
            }
        }
    }

    // The next event of the guest.
    fn guest_event<B: Bench>(&mut self, bench: &mut B) -> Event
        requires machine { self.old.place.machine ≡ B.machine bench.old }
        requires lines { 0 < length self.old.lines.now }
        requires acts { is_some (acting self.old.guest self.old.run.other) ≡ true }
        ensures moved { HasMoved (B.did bench.old) self.old bench.new self.new result }
        ensures same { B.machine bench.new ≡ B.machine bench.old }
    {
        turns_in_pieces();
        let line = self.replies().len() as u32 + 1;
        let kept = self.reports().len();
        let Some(guest) = &mut self.guest else {
            unreachable!()
        };
        let GuestTurn { step, parity, left } = turn_guest(
            &mut self.step_run,
            &mut self.reports,
            &mut self.cached,
            guest,
            self.place,
            self.given,
            line,
            bench,
            &mut self.turn,
        );
        let place = place_behind(kept, self.reports.as_slice());
        note_by(&mut self.notes, line, step, &self.turn.act, place);
        tell_by(&mut self.told, step, &self.turn.act);
        answer_exit(&mut self.run.other, step, &self.turn.reply);
        leave_where(&mut self.guest, left);
        event_told(step, parity, self.turn.event)
    }
}

impl PausedLp {
    ghost use Rattle.std.specs.Prelude.{◌≡◌};
    ghost use Rattle.leaf_table.specs.Given.{given_in};
    ghost use Rattle.leaf_dispatch.specs.States.{seen_of};
    ghost use Rattle.leaf_dispatch.specs.Paused.{paused_seen, CanResume};

    /// Goes on with the lines that were left, and with what is given by now. No memory is taken.
    pub fn resume<'b>(self, inputs: Inputs<'b>, lines: &'b [Call]) -> LpState<'b>
        requires { CanResume self inputs.codes.now lines.now (given_in inputs.given) }
        ensures place { result.place ≡ self.place }
        ensures codes { result.codes.now ≡ inputs.entry.codes.now }
        ensures given { given_in result.given ≡ given_in inputs.entry.given }
        ensures seen { seen_of result ≡ paused_seen self lines.now (given_in inputs.entry.given) }
    {
        let Inputs {
            codes,
            first_lists,
            given,
        } = inputs;
        let PausedLp {
            place,
            run,
            spare,
            guest,
            step_run,
            cached,
            replies,
            notes,
            reports,
            told,
            bundles,
            turn,
        } = self;
        LpState {
            place,
            lines,
            codes,
            given,
            first_lists,
            run: run.with_input_of(given),
            spare,
            guest: with_list(guest, codes, first_lists),
            step_run,
            cached,
            replies,
            notes,
            reports,
            told,
            bundles,
            turn,
        }
    }
}

impl<'a> Processor for LpState<'a> {
    ghost use Rattle.std.specs.Prelude.{◌==◌, length};
    ghost use Rattle.leaf_table.specs.Table.{code_in};
    ghost use Rattle.leaf_dispatch.specs.Bounds.{events_left};
    ghost use Rattle.leaf_dispatch.specs.States.{seen_of, Moves};

    ghost machine = { λ s. s.place.machine };

    ghost has_ended = { λ s. length s.lines.now == 0 };

    ghost bound = { λ s. events_left (code_in s.codes.now) (seen_of s) };

    ghost moves = { Moves };

    fn turn<B: Bench>(&mut self, bench: &mut B) -> Turn {
        let Some((call, further)) = self.lines.split_first() else {
            return Turn::Ended;
        };
        Turn::Moved(self.next_event(call, further, bench))
    }
}
