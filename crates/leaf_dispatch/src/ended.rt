//! The bundles of a logical processor whose calls have ended.

use bundles::{Bundle, Bundles};

/// Bundles, each in its slot, in the order in which they were made: so many of the first ones.
#[derive(Clone, Copy)]
pub struct EndedBundles<'a> {
    pub bundles: &'a Bundles,
    pub count: usize,
}

impl<'a> EndedBundles<'a> {
    ghost use Rattle.std.specs.Prelude.{◌≡◌, length, slice_get};
    ghost use Rattle.leaf_dispatch.specs.Ended.{ended_seen};

    /// How many there are.
    pub fn len(&self) -> usize
        ensures { result ≡ length (ended_seen self.now) }
    {
        let made = self.bundles.len();
        if self.count < made { self.count } else { made }
    }

    /// That bundle, counted from 0, if there are so many.
    pub fn get(&self, i: usize) -> Option<Bundle<'a>>
        ensures { result ≡ slice_get (ended_seen self.now) i }
    {
        if i < self.count {
            self.bundles.get(i)
        } else {
            None
        }
    }
}
