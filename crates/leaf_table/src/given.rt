//! What a run is given besides its script.

ghost use Rattle.std.specs.Prelude.{◌≡◌, length};

use incoming::IncomingBundles;

/// The secret words, which are 512, and the bundles that come in.
#[derive(Clone, Copy)]
pub struct Given<'a> {
    pub secrets: &'a [u64],
    pub bundles: &'a IncomingBundles,
    ghost words: { length secrets.now ≡ 512 },
}
