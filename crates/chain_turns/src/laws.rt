//! The law of a chain's turns over words, as a contract of a function that does nothing.

ghost use Rattle.chain_turns.specs.Modules.{ModulesStand};

/// At the start each module's processors stand where the chain has them. Where they do, and the module has an
/// event, the turn of the processor that is due leaves them where the chain's next turn has them, with the
/// bundles that have come in by then; and they stand where they stood, with whatever comes in, while other
/// modules make their turns.
pub fn chain_turn_law()
    ensures { ModulesStand }
{
    turn_laws::turn_law();
    leaf_table::calls_have_leaves();
}
