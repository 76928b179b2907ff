//! The beginning of the rows that take a bundle and hold a TD's map alone.

ghost use Rattle.std.specs.Prelude.{◌<◌, MatchResult};
ghost use Rattle.flat_core.specs.Inputs.{input_in};
ghost use Rattle.leaf_engine.specs.Inside.{StopIn};
ghost use Rattle.leaf_parts.specs.Parts.{Goes, Uses};
ghost use Rattle.import_parts.specs.InputTrees.{input_alone_tree};

use crate::inputs::input_of;
use incoming::Incoming;
use leaf_engine::{Place, Stop, Told};
use stream_parts::td_alone;
use td_words::{OpState, Status};

/// Behind the call's first argument, and the bundle that it takes, which is of one of these types, the
/// TD is in one of these operation states, and its map is held alone. It tells the TDCS page.
pub fn input_alone(
    told: &mut Told,
    place: Place,
    tdr: u64,
    slot: u64,
    input: &Option<Incoming<'_>>,
    kinds: &[u8],
    allowed: &[OpState],
) -> Result<u16, Stop>
    ensures goes { Goes place.machine.pages (λ f. input_alone_tree place.machine.pages (input_in input.now) tdr slot kinds.now allowed.now f) told.old.left.now told.new.left.now result }
    ensures uses { Uses 8 told.old.left.now told.new.left.now result }
    ensures inside { MatchResult result (λ d. d < place.machine.pages) (λ e. StopIn place.machine e) }
{
    told.check(
        tdr < u64::from(place.machine.pages),
        Status::OperandInvalid(1),
    )?;
    input_of(told, slot, input, kinds)?;
    td_alone(told, place, tdr as u16, allowed)
}
