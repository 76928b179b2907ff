//! What the layers above may rest on, as contracts of functions that do nothing.

ghost use Rattle.pair_runner.specs.Laws.{PlansAreInForm, PlansReadAgain};

/// Each plan that is read has at most 4,096 lines, each of a module that there is and of 1 to 2^20
/// events.
pub fn plans_are_in_form()
    ensures { PlansAreInForm }
{}

/// Each such plan that is written out is read again as that plan.
pub fn plans_read_again()
    ensures { PlansReadAgain }
{}
