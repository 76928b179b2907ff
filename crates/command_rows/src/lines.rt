//! What no clause says: that the library reads command lines as its users were promised.

use command_files::{Asked, Command, Named, read_command};
use std::alloc::Global;
use std::test::Fail;

// A command, its script, and the files that are named.
fn named_text(alloc: Global, verb: &str, named: &Named<'_>) -> Result<String, Fail> {
    let mut text = format!(in alloc; "{verb} {}", named.script)?;
    for (option, file) in [
        ("bundles", named.bundles),
        ("keys", named.keys),
        ("secrets", named.secrets),
        ("out-bundles", named.out_bundles),
        ("guest-out", named.guest_out),
        ("report-key", named.report_key),
    ] {
        if let Some(file) = file {
            text.push_str(&format!(in alloc; " {option} {file}")?)?;
        }
    }
    Ok(text)
}

// What a line asks for. Its words stand one space apart, so that two spaces have an empty word between.
fn asked_text(alloc: Global, line: &str) -> Result<String, Fail> {
    let mut words = Vec::new(alloc);
    for word in line.split(' ') {
        words.push(String::from_str(alloc, word)?)?;
    }
    match read_command(alloc, &words)? {
        None => Ok(String::from_str(alloc, "usage")?),
        Some(Asked::OfScript(Command::Replay(named))) => named_text(alloc, "replay", &named),
        Some(Asked::OfScript(Command::Run(named))) => named_text(alloc, "run", &named),
        Some(Asked::OfScript(Command::Check(script))) => Ok(format!(in alloc; "check {script}")?),
        Some(Asked::Soak(pages)) => Ok(format!(in alloc; "soak {pages}")?),
        Some(Asked::Verify(named)) => {
            Ok(format!(in alloc; "verify {} key {}", named.report, named.key)?)
        }
    }
}

// Each row: what is asked for, and behind bars the lines that ask for it.
const ROWS: &[&str] = &[
    // the first word
    "usage|  s| s| replays s| -- replay s| Replay s| help| --help| soak| check| run| replay| verify",
    "replay s| replay s",
    "run s| run s",
    "check s| check s| check -- s",
    "replay help| replay help",
    // SCRIPT, which may be empty
    "usage| replay s t| run s t| check s t| replay s -- t| replay s ",
    "replay | replay | replay -- ",
    "replay -| replay -",
    "check -| check -",
    // an option is one word or two, before SCRIPT or behind it
    "replay s keys k| replay s --keys k| replay --keys k s| replay --keys=k s| replay s --keys=k",
    "run s keys k| run s --keys k| run --keys k s| run --keys=k s| run --keys k -- s",
    "run s bundles b keys k secrets c out-bundles o guest-out g| run s --bundles b --keys k --secrets c --out-bundles o --guest-out g| run --guest-out=g --out-bundles=o s --secrets=c --keys=k --bundles=b",
    "replay s keys k report-key r| replay s --keys k --report-key r| replay --report-key=r s --keys=k",
    "run s guest-out g report-key r| run s --report-key r --guest-out g",
    "replay s keys | replay --keys= s| replay s --keys ",
    "replay s keys -k| replay --keys=-k s",
    "replay s keys =k| replay --keys==k s",
    "replay s keys -| replay s --keys -",
    // it has a value, and comes once
    "usage| replay s --keys| run s --guest-out| replay --keys s| replay s --keys --secrets c",
    "usage| replay s --keys k --keys k| replay s --keys=k --keys l| run s --secrets c --secrets=c",
    // no other option
    "usage| replay s -k| replay s -k k| replay s --key k| replay s --Keys k| replay s --=k",
    "usage| replay s --help| replay s -h| replay s --version| replay s -V| run --help| soak --help",
    "usage| check s --keys k| check --keys=k s| soak 1 --keys k",
    "usage| check s --report-key r| soak 1 --report-key r| run s --report-key r --report-key r| run s --report-key",
    // a word that begins with a dash is no value
    "usage| replay s --keys -k| replay s --keys -1| replay s --keys --k| replay -s| replay --s",
    // behind `--` no word is an option
    "replay -s| replay -- -s",
    "replay --keys| replay -- --keys",
    "replay --| replay -- --",
    "replay s| replay s --| replay -- s",
    "usage| replay --| replay s --keys --| replay s --keys -- k| replay -- s --keys k",
    // N is decimal, from 1 to 512, without sign and leading zeros
    "soak 1| soak 1| soak -- 1",
    "soak 2| soak 2",
    "soak 512| soak 512",
    "usage| soak 0| soak 513| soak 2 3| soak x| soak | soak 1 | soak -| soak --",
    "usage| soak +1| soak -1| soak 01| soak 0x1| soak 00| soak 1x| soak 18446744073709551617",
    // FILE and KEY, in this order
    "verify f key k| verify f k| verify f -- k| verify -- f k| verify f k --",
    "verify f key f| verify f f",
    "verify  key | verify  ",
    "verify - key -k| verify - -- -k",
    "usage| verify f| verify f k l| verify f --k| verify f k --keys k| verify --report-key k f",
];

#[test]
fn words_ask_for_what_was_promised(rt: HostRuntime) -> Result<(), Fail> {
    let alloc = rt.alloc();
    for row in ROWS {
        let (want, lines) = row.split_once("| ").ok_or("no bar")?;
        for line in lines.split("| ") {
            let got = asked_text(alloc, line)?;
            assert_eq!(rt; got.as_str(), want, "{line}");
        }
    }
    Ok(())
}

#[test]
fn no_words_ask_for_nothing(rt: HostRuntime) -> Result<(), Fail> {
    let words = Vec::new(rt.alloc());
    assert!(rt; read_command(rt.alloc(), &words)?.is_none());
    Ok(())
}
