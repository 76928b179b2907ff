//! What a run takes in: secret words and bundles.

ghost use Rattle.std.specs.Prelude.{◌≡◌, map, length, IfOk};
ghost use Rattle.bundle_store.specs.Containers.{AreInOrder};
ghost use Rattle.incoming.specs.Arrivals.{incoming_in};
ghost use Rattle.leaf_table.specs.Given.{secrets_in};

use crate::key_pairs::KeyPair;
use aes_block::Aes256;
use gcm_seal::Keys;
use incoming::{IncomingBundles, open_bundles};
use std::alloc::Global;
use td_words::{OutOfMemory, SlotBundle};

/// The bundles of a container, opened under these keys. The keys have 15 KiB each when they are expanded,
/// and stand on the stack only while bundles are opened.
#[inline(never)]
pub fn opened_bundles(
    alloc: Global,
    keys: &KeyPair,
    bundles: &[SlotBundle],
) -> Result<IncomingBundles, OutOfMemory>
    requires { AreInOrder 0 bundles.now }
    ensures { IfOk result (λ b. b ≡ map (incoming_in keys.now.forward keys.now.backward) bundles.now) }
{
    let expanded = Keys {
        forward: Aes256::new(&keys.forward),
        backward: Aes256::new(&keys.backward),
    };
    open_bundles(alloc, &expanded, bundles)
}

/// So many secret words, each 0.
pub fn no_secrets(alloc: Global, count: usize) -> Result<Vec<u64>, OutOfMemory>
    ensures count { IfOk result (λ v. length v.items ≡ count) }
    ensures zeros { IfOk result (λ v. secrets_in v.items ≡ (λ k. 0)) }
{
    match vec![in alloc; 0u64; count] {
        Ok(words) => Ok(words),
        Err(_) => Err(OutOfMemory),
    }
}
