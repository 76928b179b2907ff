//! What the layers above may rest on, as the contract of a function that does nothing.

ghost use Rattle.trace_texts.specs.Names.{LinesNameCalls};

use script_text::scripts_are_in_form;

/// Each event of a run is of a call, and the line of a call in a script that is read has the grammar's word
/// of that call as its name.
pub fn lines_name_calls()
    ensures { LinesNameCalls }
{
    scripts_are_in_form();
}
