//! The laws of what goes over between the modules of a chain, as the contracts of functions that do
//! nothing.

ghost use Rattle.chain_laws.specs.Inputs.{InputsStay, RowsStay};
ghost use Rattle.chain_laws.specs.Keys.{ChainsUseIvsOnce, PairsTakeAll};
ghost use Rattle.chain_laws.specs.Sealing.{KeysGoByPlace, LinksAreSealed};
ghost use Rattle.chain_laws.specs.Secrets.{SecretsStayPrivate};

/// Each link has two keys of its own. Where the first module begins no import and the last one no export,
/// no two bundles that are sealed with the key at one place are sealed with the same 12 bytes of IV,
/// neither two of one module nor of two (SP 800-38D, section 8); and in a pair each module takes all that
/// the other has made, once the call has ended.
pub fn chain_key_law()
    ensures ivs { ChainsUseIvsOnce }
    ensures pairs { PairsTakeAll }
{}

/// What comes in over a link is what the bundle's bytes, sealed under the link's keys, open to: each bundle
/// is sealed with the key at its place, and comes in at a neighbour as what its bytes open to there,
/// whatever the keys are, where scripts give words of 64 bits and codes are short.
pub fn chain_sealing_law()
    ensures keys { KeysGoByPlace }
    ensures links { LinksAreSealed }
{}

/// No secret word reaches another module but as the payload of a private bundle. Where two runs of a chain
/// differ in secret words alone, and guests of all modules tell the same words, each module prints the
/// same and makes the same bundles but for private payloads.
pub fn chain_secret_law()
    ensures { SecretsStayPrivate }
{}

/// An input that has come stays as it came, where no two lines of a script name one output slot, and none
/// names one that the script two places before it does. So the row of a call that has begun is the same at
/// every later moment, whatever comes in besides: its bundle was there at its first event.
pub fn chain_input_law()
    ensures stay { InputsStay }
    ensures rows { RowsStay }
{}
