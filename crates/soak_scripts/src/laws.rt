//! What the layers above may rest on, as the contract of a function that does nothing.

ghost use Rattle.soak_scripts.specs.Laws.{SoaksAreInForm};

/// Both scripts are in form, as a script that is read.
pub fn soaks_are_in_form()
    ensures { SoaksAreInForm }
{}
