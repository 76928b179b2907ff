//! What the layers above may rest on, as contracts of functions that do nothing.

ghost use Rattle.isol_laws.specs.Worlds.{WorldsAreKept, BlindRunsAreAlike, BlindRunsPrintTheSame, BlindRunsMakeTheSameBundles, AgreeingRunsShowTheSame, SecretsArePrivate};

use flat_core::{alike_laws, translation_law};

/// Under every schedule a run and the one with every private word 0, in which guests tell the same, end
/// alike: pages of the host, TDs, virtual processors, locks, cached translations, walks and replies are
/// the same. Private pages, registers and RTMRs alone may differ, with what guests know and noted, the
/// images that were noted, and the private payloads of bundles that were made. So what a run prints, and
/// the public part of the bundles that it makes, are the same whatever the private words are, apart from
/// what guests tell; and the same for any two openings that agree on all that is public, as two that
/// differ in secret words alone do. It is so since two such runs start alike, and one event of each
/// keeps them alike, whatever bundles have come in by then, where those of the two agree.
pub fn two_world_law()
    ensures kept { WorldsAreKept }
    ensures alike { BlindRunsAreAlike }
    ensures prints { BlindRunsPrintTheSame }
    ensures bundles { BlindRunsMakeTheSameBundles }
    ensures agreeing { AgreeingRunsShowTheSame }
    ensures private { SecretsArePrivate }
{
    alike_laws();
    translation_law();
}
