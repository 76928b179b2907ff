//! A script's run over words: its processors under its schedule, and then each to its end.

ghost use Rattle.std.specs.Prelude.{◌≡◌, ◌≤◌, ◌<◌, ◌^◌, length, map, option_map, IfOk};
ghost use Rattle.std.specs.List.{All, concat};
ghost use Rattle.td_words.specs.Limits.{IsMachine};
ghost use Rattle.flat_core.specs.GuestText.{guest_text};
ghost use Rattle.flat_core.specs.HostText.{host_text};
ghost use Rattle.bundle_texts.specs.Ordered.{FitContainer, container_text};
ghost use Rattle.script_text.specs.Laws.{IsInForm};
ghost use Rattle.leaf_dispatch.specs.Inside.{AreOperations};
ghost use Rattle.leaf_dispatch.specs.FirstLists.{AreFirstLists};
ghost use Rattle.leaf_table.specs.Given.{given_in};
ghost use Rattle.run_texts.specs.Openings.{opening_of};
ghost use Rattle.run_texts.specs.Sealing.{bundles_seen, bundles_text};
ghost use Rattle.run_texts.specs.Replaying.{AreFirst, AreAtEnd, TurnsAreEvents, lines_seen, notes_seen, where_named, TellAll};

use crate::key_pairs::KeyPair;
use crate::noted::noted_lines;
use crate::sealed::sealed_bundles;
use crate::turns::{Nobody, script_run};
use flat_bundles::bundle_law;
use flat_core::{end_laws, event_laws, told_law};
use leaf_dispatch::{FirstLists, Inputs, LpState};
use leaf_engine::{Place, processors_follow, turns_in_pieces};
use leaf_table::{Given, calls_have_leaves};
use merge_laws::merge_law;
use report_text::host_lines;
use script_text::Script;
use std::alloc::Global;
use td_words::{Call, Code, Machine, OutOfMemory};

/// What turns over words have to do with events of the flat machine, and its bundles with lines.
pub fn laws_of_turns()
    ensures { TurnsAreEvents }
{
    merge_law();
    calls_have_leaves();
    turns_in_pieces();
    processors_follow();
    end_laws();
    event_laws();
    bundle_law();
}

/// The processors of a machine, each at the first of its calls, with what the run is given, and with the
/// lists of operations and where they stand.
pub(crate) fn processors<'a>(
    alloc: Global,
    machine: Machine,
    codes: &'a [Code],
    given: Given<'a>,
    first_lists: &'a FirstLists,
    lists: &'a [Vec<Call>],
) -> Result<Vec<LpState<'a>>, OutOfMemory>
    requires machine { IsMachine machine }
    requires few { length lists.now ≤ 8 }
    requires short { All (λ list. length list.items < 2 ^ 32) lists.now }
    requires limits { AreOperations codes.now }
    requires first_lists { AreFirstLists codes.now first_lists.now }
    ensures { IfOk result (λ v. AreFirst machine (given_in given.entry) codes.now 0 v.items (map (λ list. list.items) lists.now)) }
{
    let Ok(mut lps) = Vec::with_capacity(alloc, lists.len()) else {
        return Err(OutOfMemory);
    };
    let inputs = Inputs {
        codes,
        first_lists,
        given,
    };
    for lp in 0..lists.len() {
        let place = Place {
            machine,
            lp: lp as u8,
        };
        let state = LpState::new(alloc, place, inputs, &lists[lp])?;
        let Ok(()) = lps.push(state) else {
            return Err(OutOfMemory);
        };
    }
    Ok(lps)
}

/// The reply lines of all processors.
pub fn all_lines(alloc: Global, lps: &[LpState<'_>]) -> Result<Vec<u8>, OutOfMemory>
    requires { length lps.now ≤ 8 }
    ensures { IfOk result (λ v. v.items ≡ concat (lines_seen 0 lps.now)) }
{
    let mut text = Vec::new(alloc);
    for lp in 0..lps.len() {
        let lines = host_lines(alloc, lp as u8, lps[lp].replies())?;
        let Ok(()) = text.extend_from_slice(&lines) else {
            return Err(OutOfMemory);
        };
    }
    Ok(text)
}

/// The lines of what the guests of all processors noted, with their reports under the report key.
pub fn all_notes(
    alloc: Global,
    report_key: &[u8; 48],
    lps: &[LpState<'_>],
) -> Result<Vec<u8>, OutOfMemory>
    requires { length lps.now ≤ 8 }
    ensures { IfOk result (λ v. v.items ≡ concat (notes_seen report_key.now 0 lps.now)) }
{
    let mut text = Vec::new(alloc);
    for lp in 0..lps.len() {
        let state = &lps[lp];
        let lines = noted_lines(alloc, lp as u8, state.notes(), state.reports(), report_key)?;
        let Ok(()) = text.extend_from_slice(&lines) else {
            return Err(OutOfMemory);
        };
    }
    Ok(text)
}

// The same where the guest file is named, and else nothing.
fn guest_notes(
    alloc: Global,
    report_key: &[u8; 48],
    guest_out: Option<&str>,
    lps: &[LpState<'_>],
) -> Result<Vec<u8>, OutOfMemory>
    requires { length lps.now ≤ 8 }
    ensures { IfOk result (λ v. v.items ≡ where_named (option_map (λ name. name.now) guest_out.entry) (concat (notes_seen report_key.now 0 lps.now))) }
{
    match guest_out {
        None => Ok(Vec::new(alloc)),
        Some(_) => all_notes(alloc, report_key, lps),
    }
}

/// The reply lines of a run, the bytes of its container, and the text of the guest file. Of these two
/// each has bytes only where it is named.
#[derive(Drop)]
pub struct Texts {
    pub replies: Vec<u8>,
    pub container: Vec<u8>,
    pub guest: Vec<u8>,
}

pub(crate) fn all_texts(
    alloc: Global,
    keys: &KeyPair,
    report_key: &[u8; 48],
    out_bundles: Option<&str>,
    guest_out: Option<&str>,
    lps: &[LpState<'_>],
) -> Result<Texts, OutOfMemory>
    requires few { length lps.now ≤ 8 }
    requires fit { FitContainer (bundles_seen lps.now) }
    ensures { IfOk result (λ t. TellAll (option_map (λ name. name.now) out_bundles.entry) (option_map (λ name. name.now) guest_out.entry) (concat (lines_seen 0 lps.now)) (container_text keys.now.forward keys.now.backward (bundles_seen lps.now)) (concat (notes_seen report_key.now 0 lps.now)) t) }
{
    let replies = all_lines(alloc, lps)?;
    let container = sealed_bundles(alloc, keys, out_bundles, lps)?;
    let guest = guest_notes(alloc, report_key, guest_out, lps)?;
    Ok(Texts {
        replies,
        container,
        guest,
    })
}

/// The processors of a script, with secret words and bundles that come in, where its run under its
/// schedule has brought them: each at its end. The memory of the words that they shared has gone back.
pub fn ended_processors<'a>(
    alloc: Global,
    script: &'a Script,
    given: Given<'a>,
    first_lists: &'a FirstLists,
) -> Result<Vec<LpState<'a>>, OutOfMemory>
    requires form { IsInForm script.now }
    requires first_lists { AreFirstLists script.now.codes first_lists.now }
    ensures { IfOk result (λ v. AreAtEnd (opening_of (given_in given.entry) script.now) script.now.schedule v.items) }
{
    laws_of_turns();
    told_law();
    let ran = script_run(alloc, script, given, first_lists, &Nobody, &mut ())?;
    Ok(ran.lps)
}

/// The texts of a script's run under its schedule, with secret words and bundles that come in, with two
/// keys for the bundles that it makes, and with the report key.
pub fn replay_texts(
    alloc: Global,
    script: &Script,
    given: Given<'_>,
    keys: &KeyPair,
    report_key: &[u8; 48],
    out_bundles: Option<&str>,
    guest_out: Option<&str>,
) -> Result<Texts, OutOfMemory>
    requires form { IsInForm script.now }
    ensures { IfOk result (λ t. TellAll (option_map (λ name. name.now) out_bundles.entry) (option_map (λ name. name.now) guest_out.entry) (host_text (opening_of (given_in given.entry) script.now) script.now.schedule) (bundles_text keys.now.forward keys.now.backward (opening_of (given_in given.entry) script.now) script.now.schedule) (guest_text report_key.now (opening_of (given_in given.entry) script.now) script.now.schedule) t) }
{
    let first_lists = FirstLists::new(alloc, &script.codes)?;
    let lps = ended_processors(alloc, script, given, &first_lists)?;
    all_texts(alloc, keys, report_key, out_bundles, guest_out, &lps)
}
