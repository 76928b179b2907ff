//! The bundles of all processors, sealed, in one container.

ghost use Rattle.std.specs.Prelude.{◌≡◌, ◌++◌, option_map, IfOk, OnOk};
ghost use Rattle.bundle_texts.specs.Ordered.{FitContainer, container_text};
ghost use Rattle.leaf_dispatch.specs.Ended.{ended_seen};
ghost use Rattle.run_texts.specs.Sealing.{bundles_seen};
ghost use Rattle.run_texts.specs.Replaying.{where_named};

use crate::key_pairs::KeyPair;
use aes_block::Aes256;
use bundle_texts::container_of;
use bundles::Bundle;
use gcm_seal::Keys;
use leaf_dispatch::{EndedBundles, LpState};
use std::alloc::Global;
use td_words::OutOfMemory;

// Adds the bundles of a processor's calls that have ended, at the end.
fn add_bundles<'b>(bundles: EndedBundles<'b>, all: &mut Vec<Bundle<'b>>) -> Result<(), OutOfMemory>
    ensures { OnOk result (all.new.items ≡ all.old.items ++ ended_seen bundles.entry) }
{
    for i in 0..bundles.len() {
        let Some(bundle) = bundles.get(i) else {
            unreachable!()
        };
        let Ok(()) = all.push(bundle) else {
            return Err(OutOfMemory);
        };
    }
    Ok(())
}

// The bundles of all processors, one processor's behind the other's.
fn all_bundles<'b>(alloc: Global, lps: &'b [LpState<'_>]) -> Result<Vec<Bundle<'b>>, OutOfMemory>
    ensures { IfOk result (λ v. v.items ≡ bundles_seen lps.now) }
{
    let mut all = Vec::new(alloc);
    for lp in 0..lps.len() {
        add_bundles(lps[lp].bundles(), &mut all)?;
    }
    Ok(all)
}

// The container of these bundles, each sealed. The keys have 15 KiB each when they are expanded, and stand
// on the stack only while bundles are sealed.
#[inline(never)]
fn seal_all(alloc: Global, keys: &KeyPair, bundles: Vec<Bundle<'_>>) -> Result<Vec<u8>, OutOfMemory>
    requires { FitContainer bundles.items }
    ensures { IfOk result (λ v. v.items ≡ container_text keys.now.forward keys.now.backward bundles.entry.items) }
{
    let expanded = Keys {
        forward: Aes256::new(&keys.forward),
        backward: Aes256::new(&keys.backward),
    };
    container_of(alloc, &expanded, bundles)
}

/// The container of the bundles of all processors, each sealed.
pub fn sealed_container(
    alloc: Global,
    keys: &KeyPair,
    lps: &[LpState<'_>],
) -> Result<Vec<u8>, OutOfMemory>
    requires { FitContainer (bundles_seen lps.now) }
    ensures { IfOk result (λ v. v.items ≡ container_text keys.now.forward keys.now.backward (bundles_seen lps.now)) }
{
    let bundles = all_bundles(alloc, lps)?;
    seal_all(alloc, keys, bundles)
}

/// The same where it is named, and else nothing.
pub fn sealed_bundles(
    alloc: Global,
    keys: &KeyPair,
    out_bundles: Option<&str>,
    lps: &[LpState<'_>],
) -> Result<Vec<u8>, OutOfMemory>
    requires { FitContainer (bundles_seen lps.now) }
    ensures { IfOk result (λ v. v.items ≡ where_named (option_map (λ name. name.now) out_bundles.entry) (container_text keys.now.forward keys.now.backward (bundles_seen lps.now))) }
{
    match out_bundles {
        None => Ok(Vec::new(alloc)),
        Some(_) => sealed_container(alloc, keys, lps),
    }
}
