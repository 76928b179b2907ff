//! Laws of words and permissions, as contracts of functions that do nothing.

ghost use Rattle.word_rules.specs.Rules.{RulesClash};
ghost use Rattle.word_rules.specs.Views.{ViewsAreKept};
ghost use Rattle.word_rules.specs.Uses.{LeafTableFits};
ghost use Rattle.word_rules.specs.CallUses.{ListsAreRows};
ghost use Rattle.word_rules.specs.Permissions.{WordsNeverConflict, ActsNeverConflict, RespectsCompose};
ghost use Rattle.word_rules.specs.Cells.{StartIsShown};

/// The table of rules holds together: no two processors meet two of its rules that are named
/// together in a clause.
pub fn rules_clash()
    ensures { RulesClash }
{}

/// A store that spares a view leaves what a load looked at; of an entry's word the views are the
/// entry's own page and rights.
pub fn views_are_kept()
    ensures { ViewsAreKept }
{
    td_words::packings_undone();
}

/// The uses of words, which are written by hand for each call and guest operation of the profile,
/// fit the locks that are written beside them. Three of these, for the words of RELOCATE and
/// EXPORT.MEM and of `accept`, have *no change* or *no reach* besides, which no lock gives: that they
/// are so where these calls need it is proved of every run, as `reach_law` of flat_laws and
/// `clear_law` of closed_pages. A rule that is met by a list of wants is met by each grip that meets
/// them. Of each call that has a row, whoever holds what the row tries has the locks that are written
/// of the call's uses (`rows`).
pub fn leaf_table_fits()
    ensures lists { LeafTableFits }
    ensures rows { ListsAreRows }
{}

/// What one processor may store, or has still to store, is never what another reads as stable, at
/// every word of every world, for two processors whose grips are apart; also through an act that
/// changes what a word is only as its rule says.
pub fn words_never_conflict()
    ensures words { WordsNeverConflict }
    ensures acts { ActsNeverConflict }
{}

/// An act that leaves the world as it is may be anybody's, and what two acts of one processor
/// change of the words' kinds they may change together.
pub fn respects_compose()
    ensures { RespectsCompose }
{}

/// Words that are all 0 show the start of every run.
pub fn start_is_shown()
    ensures { StartIsShown }
{}
