//! A soak, from its scripts to its line.

ghost use Rattle.std.specs.Prelude.{◌≡◌, ◌≤◌, List, [], map, length, Ok, IfOk};
ghost use Rattle.td_words.specs.Seen.{BundleSeen};
ghost use Rattle.flat_core.specs.World.{Made};
ghost use Rattle.flat_core.specs.Run.{bundles_in, told_in};
ghost use Rattle.bundle_store.specs.Containers.{container_in, AreInOrder};
ghost use Rattle.bundle_texts.specs.Sealed.{sealed};
ghost use Rattle.bundle_texts.specs.Ordered.{in_slot_order, FitContainer};
ghost use Rattle.incoming.specs.Arrivals.{at_slot};
ghost use Rattle.script_text.specs.Laws.{IsInForm};
ghost use Rattle.run_texts.specs.Replaying.{seen_at};
ghost use Rattle.soak_runs.specs.Soaked.{forward_key, backward_key, carried, run_with, first_word, line_of, soak_text};

use bundle_store::{ContainerFault, containers_read_again, read_container};
use bundle_texts::bundles_read_again;
use incoming::IncomingBundles;
use leaf_dispatch::{FirstLists, LpState};
use leaf_table::Given;
use run_texts::{KeyPair, ended_processors, no_secrets, opened_bundles, sealed_container};
use script_text::Script;
use soak_scripts::{destination, soaks_are_in_form, source};
use std::alloc::Global;
use td_words::{OutOfMemory, SlotBundle};

// The keys.
#[tactic(auto, unfolding(crate::specs::Soaked::forward_key, crate::specs::Soaked::backward_key))]
fn keys() -> KeyPair
    ensures forward { result.forward ≡ forward_key }
    ensures backward { result.backward ≡ backward_key }
{
    KeyPair {
        forward: [
            0, 1, 2, 3, 4, 5, 6, 7, 8, 9, 10, 11, 12, 13, 14, 15, 16, 17, 18, 19, 20, 21, 22, 23,
            24, 25, 26, 27, 28, 29, 30, 31,
        ],
        backward: [
            32, 33, 34, 35, 36, 37, 38, 39, 40, 41, 42, 43, 44, 45, 46, 47, 48, 49, 50, 51, 52, 53,
            54, 55, 56, 57, 58, 59, 60, 61, 62, 63,
        ],
    }
}

// The container of the bundles that a script's run makes, into which none come. The memory of the run
// has gone back.
fn container_of_run(alloc: Global, script: &Script) -> Result<Vec<u8>, OutOfMemory>
    requires { IsInForm script.now }
    ensures bundles { IfOk result (λ v. container_in v.items ≡ Ok (map (sealed forward_key backward_key) (in_slot_order (bundles_in (run_with [] script.now))))) }
    ensures fit { IfOk result (λ v. FitContainer (bundles_in (run_with [] script.now))) }
{
    bundles_read_again();
    let first_lists = FirstLists::new(alloc, &script.codes)?;
    let secrets = no_secrets(alloc, 512)?;
    let bundles = IncomingBundles::new(alloc);
    let given = Given {
        secrets: &secrets,
        bundles: &bundles,
    };
    let lps = ended_processors(alloc, script, given, &first_lists)?;
    sealed_container(alloc, &keys(), &lps)
}

// The bundles of a container that has no fault.
fn bundles_of(alloc: Global, container: &[u8]) -> Result<Vec<SlotBundle>, OutOfMemory>
    requires { (bundles : List BundleSeen) × (container_in container.now ≡ Ok bundles) }
    ensures are { IfOk result (λ v. container_in container.now ≡ Ok v.items) }
    ensures order { IfOk result (λ v. AreInOrder 0 v.items) }
{
    containers_read_again();
    match read_container(alloc, container) {
        Ok(bundles) => Ok(bundles),
        Err(ContainerFault::OutOfMemory) => Err(OutOfMemory),
        Err(ContainerFault::At(_)) => unreachable!(),
    }
}

// The first word that guests told, or 0.
fn first_told(lps: &[LpState<'_>]) -> u64
    ensures { result ≡ first_word (seen_at lps.now 0).beside.told }
{
    let Some(lp) = lps.first() else {
        return 0;
    };
    match lp.told().first() {
        Some(word) => *word,
        None => 0,
    }
}

// The first word that guests tell in the run of a script of one processor, into which those bundles
// come.
fn word_of_run(
    alloc: Global,
    script: &Script,
    bundles: &IncomingBundles,
) -> Result<u64, OutOfMemory>
    requires form { IsInForm script.now }
    requires one { length script.now.calls ≡ 1 }
    ensures { (ms : List Made) → at_slot bundles.now ≡ at_slot (map carried ms) → IfOk result (λ word. word ≡ first_word (told_in (run_with ms script.now))) }
{
    let first_lists = FirstLists::new(alloc, &script.codes)?;
    let secrets = no_secrets(alloc, 512)?;
    let given = Given {
        secrets: &secrets,
        bundles,
    };
    let lps = ended_processors(alloc, script, given, &first_lists)?;
    Ok(first_told(&lps))
}

fn written(alloc: Global, pages: u16, bundles: usize, sum: u64) -> Result<Vec<u8>, OutOfMemory>
    ensures { IfOk result (λ v. v.items ≡ line_of pages bundles sum) }
{
    match format!(in alloc; "soak {pages} bundles {bundles} sum {sum}\n") {
        Ok(text) => Ok(text.into_bytes()),
        Err(_) => Err(OutOfMemory),
    }
}

/// The line of a soak of so many pages, at most 512: how many bundles its source makes, and the word
/// that the guest tells at its destination.
pub fn soak_line(alloc: Global, pages: u16) -> Result<Vec<u8>, OutOfMemory>
    requires { pages ≤ 512 }
    ensures { IfOk result (λ v. v.items ≡ soak_text pages) }
{
    soaks_are_in_form();
    let script = source(alloc, pages)?;
    let container = container_of_run(alloc, &script)?;
    drop(script);
    let sealed = bundles_of(alloc, &container)?;
    drop(container);
    let count = sealed.len();
    let bundles = opened_bundles(alloc, &keys(), &sealed)?;
    // Of the source nothing is kept but its bundles, opened.
    drop(sealed);
    let script = destination(alloc, pages)?;
    let sum = word_of_run(alloc, &script, &bundles)?;
    written(alloc, pages, count, sum)
}
