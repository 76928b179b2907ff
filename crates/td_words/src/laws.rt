//! What the layers above may rest on, as contracts of functions that do nothing.

ghost use Rattle.td_words.specs.Laws.{AddressesApart, PlacesInjective, PackingsUndone, ControlWordsApart};

/// No two words share an address, and an address gives back its page and its place in the page.
pub fn addresses_apart()
    ensures { AddressesApart }
{}

/// No two places of a machine share an address, and no two locks of a TD a place.
pub fn places_injective()
    ensures { PlacesInjective }
{}

/// A PAMT, secure EPT or key table word gives back the lawful value that was packed, and any
/// other word gives none.
pub fn packings_undone()
    ensures { PackingsUndone }
{}

/// No two words of a control page, nor of the key table, stand at one place.
pub fn control_words_apart()
    ensures { ControlWordsApart }
{}
