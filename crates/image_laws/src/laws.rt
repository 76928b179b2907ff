//! The law of the image, of what comes in by a container, as the contract of a function that does
//! nothing.

ghost use Rattle.image_laws.specs.Containers.{WholeIsKept, RunsMakeWhole, ContainersBringBundles, NothingIsForged, ContainersBringWords, ImagesAreKept, ContainersBringImages};

/// A container brings over what its source was at the pause. Bundles that have the form of their types,
/// and words below 2^64, come in as they were made where they are sealed and opened with the same keys,
/// each in its slot, where no two are in one slot; none of them is forged, and each brings words below
/// 2^64 again. Such are the bundles of every run whose codes have at most 256 operations each, and which
/// is given words below 2^64, as scripts and inputs give them: it starts so, and one event keeps it so,
/// whatever bundles of such words have come in by then.
///
/// So what IMPORT.COMMIT notes under a session, where nothing has come in but of one source, starts from
/// the image that EXPORT.PAUSE noted there under it: it has just the pages that were sent, with the
/// image's words, and MRTD, RTMRs, registers and positions are the image's. What is behind it is kept by
/// one event too, whatever of the source has come in by then.
pub fn container_law()
    ensures kept { WholeIsKept }
    ensures runs { RunsMakeWhole }
    ensures bundles { ContainersBringBundles }
    ensures forged { NothingIsForged }
    ensures words { ContainersBringWords }
    ensures follow { ImagesAreKept }
    ensures images { ContainersBringImages }
{}
