//! What ties the rules of a run's bundles to the bytes by which they are sealed and read, as the
//! contracts of functions that do nothing.

ghost use Rattle.image_laws.specs.IvBytes.{KeysGoByType, IvBytesAreKept, NoIvIsUsedTwice};
ghost use Rattle.image_laws.specs.Values.{TablesAgree, LawfulHaveValues, RowsFindFaultsOfBytes};
ghost use Rattle.image_laws.specs.Arriving.{AlikeComeInAgreeing, SealedComeAlike};
ghost use Rattle.image_laws.specs.Covered.{ContainersAreCovered, ContainersAgree, AlikeStatesShowTheSame, RunsShowTheSame};

use bundle_texts::bundles_read_again;
use isol_laws::two_world_law;

/// No IV is used twice under one key. The 12 bytes of IV that a bundle is sealed with are those of its
/// number, the lowest first, so no two bundles that are sealed with the same key have the same bytes of
/// IV. Every run starts so, one event keeps it so, whatever bundles have come in, and so it is in every
/// state of every run. A bundle's type names its key; the two keys have to differ, since where they are
/// one, the token of a session that was given up may have the IV of its first bundle (SP 800-38D,
/// section 8).
pub fn iv_bytes_law()
    ensures keys { KeysGoByType }
    ensures kept { IvBytesAreKept }
    ensures runs { NoIvIsUsedTwice }
{}

/// A header that is read of bytes was tested already. What a kind allows of its stream, index, info and
/// GPA is as much as the rows of the calls do, and each lawful header has values that these let through;
/// so of a bundle that came in they find no fault of its form but the first that its bytes have.
pub fn header_law()
    ensures tables { TablesAgree }
    ensures values { LawfulHaveValues }
    ensures faults { RowsFindFaultsOfBytes }
{}

/// The container shows no private word but through what guests tell. Where bundles have the same public
/// part, their containers under the same keys have the same slots, lengths and bytes 0 to 47 of each
/// bundle, and the same bytes altogether of each whose payload isn't private: tags and sealed texts of
/// private payloads alone may differ. Under other keys so may those of every other bundle too whose key
/// isn't the same. So it is of what two worlds have made that are alike, as one event of each keeps them;
/// of a run and the one with every private word 0, in which guests tell the same; and of two openings
/// that agree on all that is public. And it is what the bytes of a container have, read again.
///
/// Where two containers have the same public part, and each bundle opens under the keys of the one world
/// exactly where it does under those of the other, and if it isn't private to the same words, what comes
/// in agrees on all that is public. So do the containers that two worlds have sealed, each under its own
/// keys.
pub fn covered_law()
    ensures bytes { ContainersAreCovered }
    ensures containers { ContainersAgree }
    ensures alike { AlikeStatesShowTheSame }
    ensures runs { RunsShowTheSame }
    ensures come { AlikeComeInAgreeing }
    ensures sealed { SealedComeAlike }
{
    two_world_law();
    bundles_read_again();
}
