//! What no clause says: that the format of plans is the one that users were promised.

use pair_runner::{PlanFault, read_plan};
use std::alloc::Global;
use std::test::Fail;

/// A plan's items, each behind a space, or its first bad line.
fn answer(alloc: Global, modules: u8, bytes: &[u8]) -> Result<String, Fail> {
    if modules < 2 || modules > 8 {
        return Err("no plan is of so many modules".into());
    }
    match read_plan(alloc, modules, bytes) {
        Ok(plan) => {
            let mut text = String::from_str(alloc, "plan")?;
            for item in &plan {
                text.push_str(&format!(in alloc; " {}:{}", item.module, item.events)?)?;
            }
            Ok(text)
        }
        Err(PlanFault::At(line)) => Ok(format!(in alloc; "bad {line}")?),
        Err(PlanFault::OutOfMemory) => Ok(format!(in alloc; "out of memory")?),
    }
}

// Each row: the number of modules, an answer, and a plan that has it.
const ROWS: &[(u8, &str, &str)] = &[
    (2, "plan", ""),
    (2, "plan 1:32", "B 32\n"),
    (2, "plan 0:274 1:1000", "A 274\nB 1000\n"),
    (2, "plan 0:1 0:1", "A 1\nA 1\n"),
    (2, "plan 0:1048576", "A 1048576\n"),
    (8, "plan 7:10 2:9", "H 10\nC 9\n"),
    // a module that isn't there
    (2, "bad 1", "C 1\n"),
    (3, "bad 2", "C 1\nD 1\n"),
    (8, "bad 1", "I 1\n"),
    (2, "bad 1", "@ 1\n"),
    (2, "bad 1", "a 1\n"),
    // no event, or too many
    (2, "bad 1", "A 0\n"),
    (2, "bad 1", "A 1048577\n"),
    (2, "bad 1", "A 18446744073709551617\n"),
    // a number is plain decimal
    (2, "bad 1", "A 01\n"),
    (2, "bad 1", "A 0x1\n"),
    (2, "bad 1", "A +1\n"),
    (2, "bad 1", "A -1\n"),
    (2, "bad 1", "A 1a\n"),
    (2, "bad 1", "A x\n"),
    // one space, and nothing else
    (2, "bad 2", "A 1\nA  1\n"),
    (2, "bad 1", " A 1\n"),
    (2, "bad 1", "A 1 \n"),
    (2, "bad 1", "A\t1\n"),
    (2, "bad 1", "A 1\r\n"),
    (2, "bad 1", "A 1 1\n"),
    (2, "bad 1", "A1\n"),
    (2, "bad 1", "A\n"),
    (2, "bad 1", "A \n"),
    // no comment, no empty line
    (2, "bad 1", "# A 1\n"),
    (2, "bad 2", "A 1\n\nA 1\n"),
    (2, "bad 1", "\n"),
    // no last newline
    (2, "bad 1", "A 1"),
    (2, "bad 2", "A 1\nB 1"),
    // the first bad line counts
    (2, "bad 2", "A 1\nA 0\nC 1\nA 1"),
];

#[test]
fn reads_a_plan_or_names_its_first_bad_line(rt: HostRuntime) -> Result<(), Fail> {
    for (modules, expected, plan) in ROWS {
        assert_eq!(rt;
            answer(rt.alloc(), *modules, plan.as_bytes())?.as_str(),
            *expected,
            "{plan:?}"
        );
    }
    Ok(())
}

/// So many lines, and some bytes behind them.
fn lines_and(alloc: Global, lines: usize, line: &str, more: &str) -> Result<String, Fail> {
    let mut text = String::new(alloc);
    for _ in 0..lines {
        text.push_str(line)?;
    }
    text.push_str(more)?;
    Ok(text)
}

/// How many items a plan of two modules has, or its first bad line.
fn count(alloc: Global, text: &str) -> Result<String, Fail> {
    match read_plan(alloc, 2, text.as_bytes()) {
        Ok(plan) => Ok(format!(in alloc; "{} items", plan.len())?),
        Err(PlanFault::At(line)) => Ok(format!(in alloc; "bad {line}")?),
        Err(PlanFault::OutOfMemory) => Ok(format!(in alloc; "out of memory")?),
    }
}

// Each row: an answer, a number of lines, the line, and what stands behind them. The last two plans
// have 65,536 bytes and one more.
const LONG: &[(&str, usize, &str, &str)] = &[
    ("4096 items", 4096, "A 1\n", ""),
    ("4096 items", 4096, "B 1048576\n", ""),
    ("bad 4097", 4097, "A 1\n", ""),
    ("bad 4097", 4096, "A 1\n", "A"),
    ("bad 4097", 5000, "A 1\n", ""),
    ("bad 4097", 16384, "A 1\n", ""),
    ("bad 0", 16384, "A 1\n", "A"),
];

#[test]
fn has_at_most_so_many_lines_and_bytes(rt: HostRuntime) -> Result<(), Fail> {
    for (expected, lines, line, more) in LONG {
        let text = lines_and(rt.alloc(), *lines, line, more)?;
        assert_eq!(rt;
            count(rt.alloc(), &text)?.as_str(),
            *expected,
            "{lines} lines"
        );
    }
    Ok(())
}
