//! The law of the image, as the contracts of functions that do nothing.

ghost use Rattle.mig_laws.specs.Image.{ImageLaw};
ghost use Rattle.mig_laws.specs.Imports.{DestinationIsKept};
ghost use Rattle.mig_laws.specs.Grows.{SourcesGoOn, DestinationsFollow, UnforgedStays};
ghost use Rattle.mig_laws.specs.Hosts.{HostsAreKept};
ghost use Rattle.mig_laws.specs.Started.{EveryRunIsASource, MissingAreUnsent, SourcesAreStarted, StartsAreKept};

/// Every TD whose import is committed starts from what its source was at the pause, where all that came in
/// and opened is of one source. Of any two runs, where each bundle of types 0 to 5 that comes into the one
/// and opens, of whatever session, was made by the other: under each session for which the one has noted at
/// IMPORT.COMMIT what the TD starts with, EXPORT.PAUSE noted an image in the other. So it is unless a tag
/// was forged, or a third run had the same key. The TD has the pages that the session sent, all of them and
/// no others, each with its last payload: its 512 words of the bundle that carried it last, alone or in a
/// list. These are the image's. MRTD and RTMRs are the image's, and there are as many virtual processors,
/// each with the image's registers and position: 32 bits of it, which are all where no guest's code of the
/// source has more than 256 operations. A page of the image that was never sent isn't there.
///
/// Why it is so is kept by each event at which no tag is forged, whatever else has come in by then. Of a TD
/// that is being imported, as many bundles of each stream as it has counted were imported, none of a later
/// migration epoch than it is in; each page that it was given has the last imported payload of that page;
/// MRTD and the number of virtual processors that are expected are those of the session's first bundle, and
/// RTMRs, registers and positions those of the bundles that were imported. In POST_IMPORT all was imported
/// that the session made before its start token.
pub fn image_law()
    ensures kept { DestinationIsKept }
    ensures runs { ImageLaw }
{}

/// What its source has to be, each run is. Of each session with a start token EXPORT.PAUSE noted an
/// image; before the token there is a bundle with the TD state, and one with the state of each virtual
/// processor of the image; behind it nothing of the session comes. So the last payload of each page
/// before the token is that page of the image, and each state is the image's. One event keeps it,
/// whatever bundles have come in; and each state that is so, with bundles that are well made and as yet
/// no list among them, is a source. Until then the token's row counts as missing just those states, of
/// the TD and of its virtual processors, that have no bundle of the session.
pub fn start_law()
    ensures kept { StartsAreKept }
    ensures started { SourcesAreStarted }
    ensures missing { MissingAreUnsent }
    ensures sources { EveryRunIsASource }
{}

/// A source may go on while a destination imports. After one event of a source, whatever has come in, it
/// has made the same bundles and maybe more, and has noted the same image of each session with a start
/// token. What was said of a destination and of the source before is then said of it and of the source
/// now; and a bundle that was made before is among those that are made now. So the laws of both hold of
/// two hosts that run at the same time: they are so at their start, and an event of either keeps it, where
/// each bundle of types 0 to 5 that has come into the destination and opens was made by the source by then.
pub fn follow_law()
    ensures sources { SourcesGoOn }
    ensures destinations { DestinationsFollow }
    ensures unforged { UnforgedStays }
    ensures hosts { HostsAreKept }
{}
