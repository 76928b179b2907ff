//! Bundles opened.

ghost use Rattle.std.specs.Prelude.{◌≡◌, ◌≤◌, ◌<◌, ◌%◌, ℕ, List, [], ◌∷◌, ◌++◌, length, map, replicate, All, IfOk, OnOk};
ghost use Rattle.bundle_store.specs.Containers.{AreInOrder};
ghost use Rattle.bundle_texts.specs.Sealed.{HoldKeys};
ghost use Rattle.incoming.specs.Opened.{opened, opened_as, words_in, AreOpened};
ghost use Rattle.incoming.specs.Arrivals.{at_slot, incoming_in};

use crate::arrivals::{Incoming, IncomingBundles};
use bundle_format::{head, read_bundle};
use bundle_texts::{iv_of, key_of};
use byteorder::{ByteOrder, LittleEndian};
use gcm_seal::{Keys, open_in_place};
use std::alloc::{AllocError, Global};
use td_words::{Header, OutOfMemory, SlotBundle};

/// The bundles of a container, each opened.
pub fn open_bundles(
    alloc: Global,
    keys: &Keys,
    bundles: &[SlotBundle],
) -> Result<IncomingBundles, OutOfMemory>
    requires { AreInOrder 0 bundles.now }
    ensures { (forward backward : List ℕ) → HoldKeys keys.now forward backward → IfOk result (λ b. b ≡ map (incoming_in forward backward) bundles.now) }
{
    let mut incoming = IncomingBundles::new(alloc);
    for bundle in bundles {
        add_opened(alloc, keys, bundle.slot, &bundle.bytes, &mut incoming)?;
    }
    Ok(incoming)
}

/// Opens one more bundle, and adds it in its slot. Where that slot has one, this stays.
pub fn open_one_more(
    alloc: Global,
    keys: &Keys,
    bundle: &SlotBundle,
    incoming: &mut IncomingBundles,
) -> Result<(), OutOfMemory>
    requires { length bundle.now.bytes ≤ 131072 }
    ensures { (forward backward : List ℕ) → HoldKeys keys.now forward backward → OnOk result ((n : ℕ) → at_slot incoming.new n ≡ at_slot (incoming.old ++ incoming_in forward backward bundle.now ∷ []) n) }
{
    let mut one = IncomingBundles::new(alloc);
    add_opened(alloc, keys, bundle.slot, &bundle.bytes, &mut one)?;
    let Some(opened) = one.get(u64::from(bundle.slot)) else {
        unreachable!()
    };
    incoming.insert(bundle.slot, opened)
}

/// Opens a bundle and adds it.
fn add_opened(
    alloc: Global,
    keys: &Keys,
    slot: u16,
    bytes: &[u8],
    incoming: &mut IncomingBundles,
) -> Result<(), OutOfMemory>
    requires size { length bytes.now ≤ 131072 }
    requires slots { All (λ n. n < slot) (map (λ b. b.slot) incoming.old) }
    ensures added { (forward backward : List ℕ) → HoldKeys keys.now forward backward → OnOk result (incoming.new ≡ incoming.old ++ record { slot = slot; bundle = opened forward backward bytes.now } ∷ []) }
    ensures slots { OnOk result (map (λ b. b.slot) incoming.new ≡ map (λ b. b.slot) incoming.old ++ slot ∷ []) }
{
    match read_bundle(bytes) {
        Ok(header) => add_judged(alloc, keys, slot, header, &bytes[64..], incoming),
        Err(fault) => incoming.push(
            slot,
            Incoming {
                header: &Err(fault),
                opens: false,
                payload: &[],
            },
        ),
    }
}

/// Opens the sealed text of a bundle with that header, and adds what it opens to.
fn add_judged(
    alloc: Global,
    keys: &Keys,
    slot: u16,
    header: Header,
    sealed: &[u8],
    incoming: &mut IncomingBundles,
) -> Result<(), OutOfMemory>
    requires size { (length sealed.now ≤ 131072) × (length sealed.now % 8 ≡ 0) }
    requires slots { All (λ n. n < slot) (map (λ b. b.slot) incoming.old) }
    ensures added { (forward backward : List ℕ) → HoldKeys keys.now forward backward → OnOk result (incoming.new ≡ incoming.old ++ record { slot = slot; bundle = opened_as forward backward header sealed.now } ∷ []) }
    ensures slots { OnOk result (map (λ b. b.slot) incoming.new ≡ map (λ b. b.slot) incoming.old ++ slot ∷ []) }
{
    let Ok(words) = opened_words(alloc, keys, &header, sealed) else {
        return Err(OutOfMemory);
    };
    incoming.push(
        slot,
        Incoming {
            header: &Ok(header),
            opens: words.is_some(),
            payload: match &words {
                Some(words) => words,
                None => &[],
            },
        },
    )
}

/// The words that a sealed text opens to, if its tag is right.
fn opened_words(
    alloc: Global,
    keys: &Keys,
    header: &Header,
    sealed: &[u8],
) -> Result<Option<Vec<u64>>, AllocError>
    requires { (length sealed.now ≤ 131072) × (length sealed.now % 8 ≡ 0) }
    ensures { (forward backward : List ℕ) → HoldKeys keys.now forward backward → IfOk result (λ o. AreOpened forward backward header.now sealed.now o) }
{
    let mut text = copied(alloc, sealed)?;
    let key = key_of(keys, header);
    if open_in_place(key, &iv_of(header), &head(header), &mut text, &header.tag) {
        let words = words_of(alloc, &text)?;
        Ok(Some(words))
    } else {
        Ok(None)
    }
}

/// A copy of bytes.
fn copied(alloc: Global, bytes: &[u8]) -> Result<Vec<u8>, AllocError>
    ensures { IfOk result (λ v. v.items ≡ bytes.now) }
{
    let mut copy = Vec::new(alloc);
    copy.extend_from_slice(bytes)?;
    Ok(copy)
}

/// The words of bytes, of which there are eight for each.
fn words_of(alloc: Global, bytes: &[u8]) -> Result<Vec<u64>, AllocError>
    requires { length bytes.now % 8 ≡ 0 }
    ensures { IfOk result (λ v. v.items ≡ words_in bytes.now) }
{
    let mut words = zeros(alloc, bytes.len() / 8)?;
    LittleEndian::read_u64_into(bytes, &mut words);
    Ok(words)
}

/// So many words, each 0.
fn zeros(alloc: Global, count: usize) -> Result<Vec<u64>, AllocError>
    ensures { IfOk result (λ v. v.items ≡ replicate count 0) }
{
    vec![in alloc; 0u64; count]
}
