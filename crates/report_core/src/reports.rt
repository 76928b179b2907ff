//! Reports made and checked.

ghost use Rattle.std.specs.Prelude.{◌≡◌, ◌+◌, ◌≤◌, ◌++◌, take, drop, IfOk, IfErr, Ok};
ghost use Rattle.report_core.specs.declared.facts.Facts.{Facts};
ghost use Rattle.report_core.specs.Report.{report_of, AreFacts, IsFileOf, IsFirstFault, facts_in};

use crate::facts::Facts;
use crate::hmacs::hmac;
use hex::FromHex;

/// Why a file isn't a report under a key: the first of these that holds.
#[derive(Clone, Copy, Debug, PartialEq, Eq)]
pub enum ReportFault {
    /// It isn't 720 bytes and a newline.
    Length,
    /// One of the 720 isn't a hexadecimal digit.
    Hex,
    /// The first 8 bytes that they stand for aren't a report's.
    Magic,
    /// The last 48 aren't the MAC of those in front of them.
    Mac,
}

/// Puts bytes at a place of a report.
fn put<const N: usize>(report: &mut [u8; 360], at: usize, bytes: &[u8; N])
    requires { at + N ≤ 360 }
    ensures { take (at + N) report.new ≡ take at report.old ++ bytes.now }
{
    report[at..at + N].copy_from_slice(bytes);
}

/// The report of facts under a key.
pub fn make_report(key: &[u8; 48], facts: &Facts) -> [u8; 360]
    ensures { result ≡ report_of key.now facts.now }
{
    let mut report = [0; 360];
    put(&mut report, 0, b"TDXREP01");
    put(&mut report, 8, &facts.mrtd);
    put(&mut report, 56, &facts.rtmr0);
    put(&mut report, 104, &facts.rtmr1);
    put(&mut report, 152, &facts.rtmr2);
    put(&mut report, 200, &facts.rtmr3);
    put(&mut report, 248, &facts.given);
    let mac = hmac(key, &report[..312]);
    put(&mut report, 312, &mac);
    report
}

/// The 48 bytes of a report at a place.
fn digest_at(report: &[u8; 360], at: usize) -> [u8; 48]
    requires { at + 48 ≤ 360 }
    ensures { result ≡ take 48 (drop at report.now) }
{
    let mut digest = [0; 48];
    digest.copy_from_slice(&report[at..at + 48]);
    digest
}

/// What a report tells.
fn read_facts(report: &[u8; 360]) -> Facts
    ensures { result ≡ facts_in report.now }
{
    let mut given = [0; 64];
    given.copy_from_slice(&report[248..312]);
    Facts {
        mrtd: digest_at(report, 8),
        rtmr0: digest_at(report, 56),
        rtmr1: digest_at(report, 104),
        rtmr2: digest_at(report, 152),
        rtmr3: digest_at(report, 200),
        given,
    }
}

/// What the report in a file tells, or the first fault of the file.
pub fn check_report(key: &[u8; 48], file: &[u8]) -> Result<Facts, ReportFault>
    ensures told { IfOk result (λ f. AreFacts f × IsFileOf key.now file.now f) }
    ensures accepted { (f : Facts) → AreFacts f → IsFileOf key.now file.now f → result ≡ Ok f }
    ensures refused { IfErr result (λ e. IsFirstFault key.now file.now e) }
{
    if file.len() != 721 || file[720] != b'\n' {
        return Err(ReportFault::Length);
    }
    let Ok(report) = <[u8; 360] as FromHex>::from_hex(&file[..720]) else {
        return Err(ReportFault::Hex);
    };
    if &report[..8] != b"TDXREP01".as_slice() {
        return Err(ReportFault::Magic);
    }
    let due = hmac(key, &report[..312]);
    if &report[312..] != due.as_slice() {
        return Err(ReportFault::Mac);
    }
    Ok(read_facts(&report))
}
