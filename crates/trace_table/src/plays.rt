//! What each step on the table tells its seat.

ghost use Rattle.trace_table.specs.Tells.{loaded, stored, added, taken_off, exchanged, took, gave};
ghost use Rattle.trace_table.specs.Views.{one_more_out, new_told, joined_told, spent_told};

use crate::told::Told;
use atomic_table::{Join, Play, Split};
use mrtd_measure::Measure;

pub(crate) struct Loads;

impl Play<Option<Measure>, Told> for Loads {
    ghost then = { loaded };
}

pub(crate) struct Stores;

impl Play<Option<Measure>, Told> for Stores {
    ghost then = { stored };
}

pub(crate) struct Adds;

impl Play<Option<Measure>, Told> for Adds {
    ghost then = { added };
}

pub(crate) struct Subs;

impl Play<Option<Measure>, Told> for Subs {
    ghost then = { taken_off };
}

pub(crate) struct Exchanges;

impl Play<Option<Measure>, Told> for Exchanges {
    ghost then = { exchanged };
}

pub(crate) struct Takes;

impl Play<Option<Measure>, Told> for Takes {
    ghost then = { took };
}

pub(crate) struct Gives;

impl Play<Option<Measure>, Told> for Gives {
    ghost then = { gave };
}

/// A bench that the first one makes, and takes in again.
pub(crate) struct Benches;

impl Split<Told> for Benches {
    ghost left = { one_more_out };

    ghost right = { λ v. new_told };
}

impl Join<Told> for Benches {
    ghost both = { joined_told };

    ghost spent = { spent_told };
}
