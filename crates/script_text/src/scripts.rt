//! Scripts.

ghost use Rattle.std.specs.Prelude.{◌≡◌, ◌≤◌, ◌^◌, length};
ghost use Rattle.std.specs.List.{list_any};
ghost use Rattle.line_words.specs.Words.{pieces};
ghost use Rattle.script_text.specs.Needs.{names_a_slot, needs_keys, needs_report_key};
ghost use Rattle.script_text.specs.Reading.{IsAnswered, read_of, read_from, ended_of, nothing_yet, draft_seen};

use crate::code_blocks::none_listed;
use crate::drafts::{Draft, take_line};
use crate::faults::{Reason, ScriptFault, bad};
use crate::fields::none_named;
use crate::lines::Stage;
use crate::operations::reports_in;
use line_words::next_line;
use std::alloc::Global;
use std::marker::Model;
use td_words::{Call, Code, Machine};

/// What a script says: the machine, the schedule's items written out, the lists of guest operations
/// in the order of their blocks, and one list of calls for each logical processor, in order.
#[derive(Drop)]
pub struct Script {
    pub machine: Machine,
    pub schedule: Vec<u8>,
    pub codes: Vec<Code>,
    pub calls: Vec<Vec<Call>>,
}

impl Model for Script {
    ghost use Rattle.std.specs.Prelude.{map};
    ghost use Rattle.script_text.specs.Seen.{ScriptSeen};

    ghost Value = { ScriptSeen };

    ghost view = { λ s. record { machine = s.machine; schedule = s.schedule.items; codes = s.codes.items; calls = map (λ list. list.items) s.calls.items } };
}

fn ended(draft: Draft, number: u64, rest: &[u8]) -> Result<Script, ScriptFault>
    ensures { result ≡ ended_of (draft_seen draft) number rest.now }
{
    if !rest.is_empty() {
        return Err(bad(number, Reason::Unterminated));
    }
    let Some(machine) = draft.stage.machine else {
        return Err(bad(number, Reason::Machine));
    };
    match draft.stage.block {
        Some(_) => Err(bad(number, Reason::Endless)),
        None => Ok(Script {
            machine,
            schedule: draft.schedule,
            codes: draft.codes,
            calls: draft.calls,
        }),
    }
}

fn read_lines(alloc: Global, bytes: &[u8]) -> Result<Script, ScriptFault>
    requires { length bytes.now ≤ 2 ^ 24 }
    ensures { IsAnswered (read_from nothing_yet 1 (pieces bytes.now)) result }
{
    let mut draft = Draft {
        stage: Stage {
            machine: None,
            block: None,
            had: [false; 8],
        },
        listed: none_listed(),
        named: none_named(),
        schedule: Vec::new(alloc),
        codes: Vec::new(alloc),
        ops: Vec::new(alloc),
        calls: Vec::new(alloc),
    };
    let mut number = 1;
    let mut rest = bytes;
    while let Some(line) = next_line(rest) {
        take_line(&mut draft, alloc, number, line)?;
        number += 1;
        rest = line.rest;
    }
    ended(draft, number, rest)
}

/// The script that the bytes say, or the first bad line with the first reason that holds.
#[tactic(auto, unfolding(crate::specs::Reading::read_of))]
pub fn read_script(alloc: Global, bytes: &[u8]) -> Result<Script, ScriptFault>
    ensures { IsAnswered (read_of bytes.now) result }
{
    if bytes.len() > 1 << 24 {
        return Err(bad(0, Reason::Length));
    }
    read_lines(alloc, bytes)
}

fn names_a_slot(calls: &[Call]) -> bool
    ensures { result ≡ names_a_slot calls.now }
{
    calls.iter().any(|call| call.output_slot().is_some() || call.input_slot().is_some())
}

fn some_names_a_slot(lists: &[Vec<Call>]) -> bool
    ensures { result ≡ list_any (λ list. names_a_slot list.items) lists.now }
{
    lists.iter().any(|calls| names_a_slot(calls))
}

/// Whether a call of the script makes a bundle or takes one: they are sealed and opened under the keys
/// of a key file.
#[tactic(auto, using(crate::proofs::Calls::some_of_items))]
pub fn needs_keys(script: &Script) -> bool
    ensures { result ≡ needs_keys script.now.calls }
{
    some_names_a_slot(&script.calls)
}

/// Whether one of these lists has a report: it is made under the report key.
pub fn needs_report_key(codes: &[Code]) -> bool
    ensures { result ≡ needs_report_key codes.now }
{
    match codes {
        [] => false,
        [code, further @ ..] => reports_in(&code.ops) > 0 || needs_report_key(further),
    }
}
