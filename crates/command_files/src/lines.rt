//! The command lines that the library reads.

ghost use Rattle.std.specs.Prelude.{◌≡◌, [], true, option_map, map, string_bytes, IfOk};
ghost use Rattle.clap.specs.Words.{app_of, found_of, rows_of, first_of, with_rule, is_simple_and_free};
ghost use Rattle.command_files.specs.Commands.{option_rule, word_rule, line_of, files_line, script_line, pages_line, report_line, found_in};

use clap::error::ErrorKind;
use clap::{Arg, ArgMatches, Command};
use std::alloc::{AllocError, Global};
use td_words::OutOfMemory;

/// A line of no words. No program's name stands before it.
pub fn empty_line<'a>(alloc: Global) -> Command<'a>
    ensures { app_of result ≡ line_of [] }
{
    Command::new(alloc, "tdx")
        .no_binary_name(true)
        .disable_help_flag(true)
        .disable_version_flag(true)
}

/// With a word that has to be there.
pub fn with_word<'a>(
    alloc: Global,
    line: Command<'a>,
    name: &'a str,
) -> Result<Command<'a>, OutOfMemory>
    ensures { IfOk result (λ l. app_of l ≡ with_rule (app_of line.entry) (word_rule name.entry.now)) }
{
    match line.arg(Arg::new(alloc, name).required(true)) {
        Ok(line) => Ok(line),
        Err(AllocError) => Err(OutOfMemory),
    }
}

/// With an option that takes a value.
pub fn with_option<'a>(
    alloc: Global,
    line: Command<'a>,
    name: &'a str,
) -> Result<Command<'a>, OutOfMemory>
    ensures { IfOk result (λ l. app_of l ≡ with_rule (app_of line.entry) (option_rule name.entry.now)) }
{
    match line.arg(Arg::new(alloc, name).long(name)) {
        Ok(line) => Ok(line),
        Err(AllocError) => Err(OutOfMemory),
    }
}

/// The rest of `replay` and of `run`.
pub fn files_line<'a>(alloc: Global) -> Result<Command<'a>, OutOfMemory>
    ensures { IfOk result (λ l. app_of l ≡ files_line) }
{
    let line = with_word(alloc, empty_line(alloc), "SCRIPT")?;
    let line = with_option(alloc, line, "bundles")?;
    let line = with_option(alloc, line, "keys")?;
    let line = with_option(alloc, line, "secrets")?;
    let line = with_option(alloc, line, "out-bundles")?;
    let line = with_option(alloc, line, "guest-out")?;
    with_option(alloc, line, "report-key")
}

/// The rest of `check`.
pub fn script_line<'a>(alloc: Global) -> Result<Command<'a>, OutOfMemory>
    ensures { IfOk result (λ l. app_of l ≡ script_line) }
{
    with_word(alloc, empty_line(alloc), "SCRIPT")
}

/// The rest of `soak`.
pub fn pages_line<'a>(alloc: Global) -> Result<Command<'a>, OutOfMemory>
    ensures { IfOk result (λ l. app_of l ≡ pages_line) }
{
    with_word(alloc, empty_line(alloc), "N")
}

/// The rest of `verify`.
pub fn report_line<'a>(alloc: Global) -> Result<Command<'a>, OutOfMemory>
    ensures { IfOk result (λ l. app_of l ≡ report_line) }
{
    let line = with_word(alloc, empty_line(alloc), "FILE")?;
    with_word(alloc, line, "KEY")
}

/// What the library finds in the words of such a line, which takes its memory along.
pub fn read_line<'a>(
    _alloc: Global,
    line: Command<'a>,
    words: &'a [String],
) -> Result<Option<ArgMatches<'a>>, OutOfMemory>
    requires { is_simple_and_free (app_of line) ≡ true }
    ensures { IfOk result (λ m. option_map (λ found. rows_of (found_of found)) m ≡ found_in (app_of line.entry) (map string_bytes words.now)) }
{
    match line.try_get_matches_from(words) {
        Ok(found) => Ok(Some(found)),
        Err(error) => match error.kind() {
            ErrorKind::OutOfMemory => Err(OutOfMemory),
            _ => Ok(None),
        },
    }
}

/// The value of a word or an option, if it was found.
pub fn value_of<'a>(found: &ArgMatches<'a>, name: &str) -> Option<&'a str>
    ensures { option_map (λ s. s.now) result ≡ first_of name.now (rows_of (found_of found.now)) }
{
    found.get_str(name)
}
