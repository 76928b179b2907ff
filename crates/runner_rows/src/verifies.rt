//! Reports that are checked under a key.

use bundle_store::{MemFiles, MemSink, NamedFile};
use leaf_engine::NoGate;
use script_runner::tdx_main;
use std::alloc::Global;
use std::test::Fail;

// The digits of a report, which another program made, and what is said of it.
const REPORT: &str =
    "544458524550303138b060a751ac96384cd9327eb1b1e36a21fdb71114be07434c0cc7bf63f6e1da274edebfe76f65fbd51ad2f14898b95b000000000000000000000000000000000000000000000000000000000000000000000000000000000000000000000000000000000000000000000000000000000000000000000000000000000000000000000000000000000000000000000000a1fd0e0c306c908e837729ea757f10720cd5fbbf92b06ed6c9fefc61a4420e3fe2440cb5c8d155e44ac59a2e5efd0c1bb1655e8f8a6f70fcf582bec7d53b19e7d6cf9006e5df4c7aa8487d6e1fe3a6518414f6e9801c199cd0a9df42318359e66c6f616465643a2073657474696e67732c20627920737461676520322c206f6620746865206f776e657220416c6963650000000000000000000000000000000035e6da235ead40b72c85ab6efc5d86a81919f59df7472fd497f274206826983a3a417369cfec086c5142628f67a90871";

const YES: &str =
    "yes 38b060a751ac96384cd9327eb1b1e36a21fdb71114be07434c0cc7bf63f6e1da274edebfe76f65fbd51ad2f14898b95b 000000000000000000000000000000000000000000000000000000000000000000000000000000000000000000000000 000000000000000000000000000000000000000000000000000000000000000000000000000000000000000000000000 a1fd0e0c306c908e837729ea757f10720cd5fbbf92b06ed6c9fefc61a4420e3fe2440cb5c8d155e44ac59a2e5efd0c1b b1655e8f8a6f70fcf582bec7d53b19e7d6cf9006e5df4c7aa8487d6e1fe3a6518414f6e9801c199cd0a9df42318359e6 6c6f616465643a2073657474696e67732c20627920737461676520322c206f6620746865206f776e657220416c69636500000000000000000000000000000000\n";

const KEY: &str = "known to the platform and to who relies on it...";

// The report r; u, in capitals; n, without its newline; l, with a line behind it; the key k, and k49, with a byte more.
fn files(alloc: Global, failing: &[u64]) -> Result<MemFiles, Fail> {
    let mut files = Vec::new(alloc);
    for (name, text) in [
        ("r", format!(in alloc; "{REPORT}\n")?),
        ("u", format!(in alloc; "{REPORT}\n")?),
        ("n", format!(in alloc; "{REPORT}")?),
        ("l", format!(in alloc; "{REPORT}\n\n")?),
        ("k", format!(in alloc; "{KEY}")?),
        ("k49", format!(in alloc; "{KEY}.")?),
    ] {
        let mut bytes = text.into_bytes();
        if name == "u" {
            for i in 0..bytes.len() {
                bytes[i] = bytes[i].to_ascii_uppercase();
            }
        }
        files.push(NamedFile {
            name: String::from_str(alloc, name)?,
            bytes,
        })?;
    }
    Ok(MemFiles::new(alloc, files, failing.to_vec(alloc)?))
}

// Words, the loads that fail, the puts that do, the status and the text.
type Row<'a> = (&'a str, &'a [u64], &'a [u64], u8, &'a str);

const ROWS: &[Row<'static>] = &[
    ("verify r k", &[], &[], 0, YES),
    ("verify u k", &[], &[], 0, YES),
    ("verify n k", &[], &[], 0, "no LENGTH\n"),
    ("verify l k", &[], &[], 0, "no LENGTH\n"),
    ("verify r k49", &[], &[], 7, "report key file\n"),
    ("verify r r", &[], &[], 7, "report key file\n"),
    ("verify k k", &[], &[], 0, "no LENGTH\n"),
    ("verify x k49", &[], &[], 3, "cannot read x\n"),
    ("verify r x", &[], &[], 3, "cannot read x\n"),
    ("verify r k", &[0], &[], 3, "cannot read r\n"),
    ("verify r k", &[1], &[], 3, "cannot read k\n"),
    // No other load and no save is made.
    ("verify r k", &[2], &[], 0, YES),
    ("verify r k", &[], &[0], 4, ""),
    ("verify r k49", &[], &[0], 7, ""),
];

#[test]
fn reports_are_checked(rt: HostRuntime) -> Result<(), Fail> {
    let alloc = rt.alloc();
    for (line, failing, puts, status, want) in ROWS {
        let mut words = Vec::new(alloc);
        for word in line.split(' ') {
            words.push(String::from_str(alloc, word)?)?;
        }
        let mut files = files(alloc, failing)?;
        let mut out = MemSink::new(alloc, puts.to_vec(alloc)?);
        let got = tdx_main(&rt, alloc, &words, &mut files, &mut out, &NoGate);
        assert_eq!(rt; got, *status, "status of {line}");
        assert_eq!(rt; out.bytes.as_slice(), want.as_bytes(), "text of {line}");
    }
    Ok(())
}
