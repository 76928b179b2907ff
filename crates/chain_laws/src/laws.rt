//! The laws of the TDs of a chain, as the contracts of functions that do nothing.

ghost use Rattle.chain_laws.specs.Laws.{EveryModuleIsASource, AccessHoldsInChains, AccessesAreOwnInChains, ChainImageLaw, ChainsEnd};
ghost use Rattle.chain_laws.specs.Lineages.{AtMostOneMayRun, AtMostOneOfTwo};
ghost use Rattle.chain_laws.specs.Memories.{ChainMemoriesHold, LoadsAreOfTheChain};
ghost use Rattle.chain_laws.specs.Worked.{ChainExamples};

/// A chain brings over what each source was at the pause. At every moment of every run of a chain, whatever
/// its plan, each module is as a source of a migration has to be; no stale translation is used in it, what
/// guests know of their pages is what these hold, and each of their accesses reaches a page of their own.
/// And what a module has noted at IMPORT.COMMIT under a session starts from the image that EXPORT.PAUSE
/// noted under it in the module before.
pub fn chain_image_law()
    ensures sources { EveryModuleIsASource }
    ensures access { AccessHoldsInChains }
    ensures own { AccessesAreOwnInChains }
    ensures image { ChainImageLaw }
{}

/// A chain's run ends, whatever its plan: behind it each line of each module has one reply.
pub fn chain_end_law()
    ensures { ChainsEnd }
{}

/// A TD never runs twice. Two TDs of neighbouring modules are joined where the later has imported a session
/// of the earlier, and neither TDR page was reclaimed since; a TD's lineage is all that it is joined to,
/// directly or through others. At every moment at most one TD of a lineage is in RUNNABLE, LIVE_EXPORT or
/// LIVE_IMPORT, where those whose keys were given up count too.
pub fn lineage_law()
    ensures one { AtMostOneMayRun }
    ensures two { AtMostOneOfTwo }
{}

/// A TD's words go over. Chain memory has of each TD what was last added, accepted or stored at a page in
/// any module that it was migrated through: an event changes it as it changes what the TD's guest knows,
/// and IMPORT.COMMIT puts in place of each page that was imported what the earlier TD had there at its
/// pause. At every moment each TD's guest memory is its chain memory, so a guest's load gives a word of it.
pub fn chain_memory_law()
    ensures memories { ChainMemoriesHold }
    ensures loads { LoadsAreOfTheChain }
{}

/// Worked chains: an import that runs beside its export takes each bundle from the last event of the call
/// on that made it. It brings the TD's words over, and so does a second one what was stored in between.
pub fn chain_examples()
    ensures { ChainExamples }
{}
