//! The line of a report's check.

ghost use Rattle.std.specs.Prelude.{◌≡◌, [], ◌∷◌, ◌++◌, codes, string_bytes, IfOk};
ghost use Rattle.hex.specs.Hex.{encode_lower};
ghost use Rattle.report_checks.specs.Checked.{fault_text, yes_text, verdict_text};

use report_core::{Facts, ReportFault};
use std::alloc::{AllocError, Global};

fn fault_text(fault: ReportFault) -> &'static str
    ensures { result.now ≡ fault_text fault }
{
    match fault {
        ReportFault::Length => "LENGTH",
        ReportFault::Hex => "HEX",
        ReportFault::Magic => "MAGIC",
        ReportFault::Mac => "MAC",
    }
}

fn digits(alloc: Global, bytes: &[u8]) -> Result<String, AllocError>
    ensures { IfOk result (λ text. string_bytes text ≡ encode_lower bytes.now) }
{
    let text = hex::encode(alloc, bytes)?;
    Ok(text)
}

// The last field of a line, and its end.
fn last_field(alloc: Global, bytes: &[u8]) -> Result<String, AllocError>
    ensures { IfOk result (λ text. string_bytes text ≡ encode_lower bytes.now ++ 10 ∷ []) }
{
    let digits = digits(alloc, bytes)?;
    format!(in alloc; "{digits}\n")
}

// A field in front of the rest of a line.
fn field(alloc: Global, bytes: &[u8], rest: &str) -> Result<String, AllocError>
    ensures { IfOk result (λ text. string_bytes text ≡ encode_lower bytes.now ++ (codes " " ++ rest.now)) }
{
    let digits = digits(alloc, bytes)?;
    format!(in alloc; "{digits} {rest}")
}

fn yes_line(alloc: Global, facts: &Facts) -> Result<String, AllocError>
    ensures { IfOk result (λ line. string_bytes line ≡ yes_text facts.now) }
{
    let rest = last_field(alloc, &facts.given)?;
    let rest = field(alloc, &facts.rtmr3, &rest)?;
    let rest = field(alloc, &facts.rtmr2, &rest)?;
    let rest = field(alloc, &facts.rtmr1, &rest)?;
    let rest = field(alloc, &facts.rtmr0, &rest)?;
    let rest = field(alloc, &facts.mrtd, &rest)?;
    format!(in alloc; "yes {rest}")
}

/// The line that tells what a report's file says.
pub fn verdict_line(
    alloc: Global,
    verdict: &Result<Facts, ReportFault>,
) -> Result<Vec<u8>, AllocError>
    ensures { IfOk result (λ v. v.items ≡ verdict_text verdict.now) }
{
    match verdict {
        Ok(facts) => Ok(yes_line(alloc, facts)?.into_bytes()),
        Err(fault) => {
            let word = fault_text(*fault);
            Ok(format!(in alloc; "no {word}\n")?.into_bytes())
        }
    }
}
