//! What the layers above may rest on, as contracts of functions that do nothing.

ghost use Rattle.script_text.specs.Laws.{ScriptsAreInForm, ScriptsReadAgain, FaultsAreFirst, ReasonsInOrder};

/// Each script that is read has a machine within the limits, at most 2^20 schedule items, each one
/// of its processors, at most one list of at most 256 guest operations for each VCPU 0 to 7 of each
/// page, each operation within its limits, and for each processor one list of at most 4,096 calls.
pub fn scripts_are_in_form()
    ensures { ScriptsAreInForm }
{}

/// A script in that form that is written out in decimal is read again as that script, unless it is
/// then longer than a script may be. It isn't where its lists of operations take 2^23 bytes at most.
pub fn scripts_read_again()
    ensures { ScriptsReadAgain }
{}

/// A fault names a bad line before which all lines are good, and each such line is the fault.
pub fn faults_are_first()
    ensures { FaultsAreFirst }
{}

/// The fault of a line, and of a script's end, is the first reason that holds, each by itself.
pub fn reasons_in_order()
    ensures { ReasonsInOrder }
{}
