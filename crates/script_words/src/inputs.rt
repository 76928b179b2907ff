//! Words of inputs are those of a machine, so they have 64 bits.

ghost use Rattle.std.specs.Prelude.{All, IfSome};
ghost use Rattle.flat_words.specs.Words.{IsWord, BringsWords};
ghost use Rattle.incoming.specs.Arrivals.{at_slot};
ghost use Rattle.script_words.specs.Given.{ComeInAsWords};

use incoming::IncomingBundles;
use td_words::SlotBundle;

// Numbers of 64 bits are below 2^64.
fn are_words(words: &[u64])
    ensures { All IsWord words.now }
{}

// So are the words of the bundle in that slot, if there is one.
fn comes_in(bundles: &IncomingBundles, slot: u64)
    ensures { IfSome (at_slot bundles.now slot) BringsWords }
{
    if let Some(bundle) = bundles.get(slot) {
        are_words(bundle.payload);
    }
}

fn come_in(bundles: &IncomingBundles, sealed: &[SlotBundle])
    ensures { All (λ b. IfSome (at_slot bundles.now b.slot) BringsWords) sealed.now }
{
    for i in 0..sealed.len() {
        let bundle = &sealed[i];
        comes_in(bundles, u64::from(bundle.slot));
    }
}

/// The secret words, and the words of the bundles that were opened, are below 2^64. It looks at each
/// bundle once, and changes nothing.
pub fn come_in_as_words(secrets: &[u64], bundles: &IncomingBundles, sealed: &[SlotBundle])
    ensures { ComeInAsWords secrets.now bundles.now sealed.now }
{
    are_words(secrets);
    come_in(bundles, sealed);
}
