//! Laws of states after so many events, and of words that show a state.

ghost use Rattle.state_lines.specs.Laws.{WordsTellPages, LpsTell, StatesGoOn};

/// What a logical processor over words knows of itself is what is told of it, where it stands in a lawful
/// state.
pub fn lps_tell()
    ensures { LpsTell }
{
    td_words::packings_undone();
}

/// What is read of pages from words that show a lawful state is what is told of that state's pages.
pub fn words_tell_pages()
    ensures { WordsTellPages }
{
    td_words::packings_undone();
}

/// Events lead from one state to the next. An item of a processor that has ended changes nothing, and
/// neither does one more of a processor before which all have ended, where the run goes on to its end; and
/// where all have ended nothing is left.
pub fn states_go_on()
    ensures { StatesGoOn }
{
    flat_core::event_laws();
    flat_core::end_laws();
}
