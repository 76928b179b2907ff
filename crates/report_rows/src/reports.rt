use crate::rfc_cases::CASES;
use hex::{FromHex, ToHex};
use report_core::{Facts, ReportFault, check_report, hmac, make_report};
use std::alloc::Global;
use std::test::Fail;

#[test]
fn macs_are_those_of_the_rfc(rt: HostRuntime) -> Result<(), Fail> {
    for case in &CASES {
        let key = <[u8; 48]>::from_hex(case.key)?;
        let text = hex::decode(rt.alloc(), case.text)?;
        let mac = hmac(&key, &text).encode_hex(rt.alloc())?;
        assert!(rt; mac.starts_with(case.mac), "{}", case.text);
    }
    Ok(())
}

// Facts, and the MAC of their report under this key, which another program made.
const KEY: &str =
    "000102030405060708090a0b0c0d0e0f101112131415161718191a1b1c1d1e1f202122232425262728292a2b2c2d2e2f";

const MRTD: &str =
    "000102030405060708090a0b0c0d0e0f101112131415161718191a1b1c1d1e1f202122232425262728292a2b2c2d2e2f";

const RTMR0: &str =
    "101112131415161718191a1b1c1d1e1f202122232425262728292a2b2c2d2e2f303132333435363738393a3b3c3d3e3f";

const RTMR1: &str =
    "202122232425262728292a2b2c2d2e2f303132333435363738393a3b3c3d3e3f404142434445464748494a4b4c4d4e4f";

const RTMR2: &str =
    "303132333435363738393a3b3c3d3e3f404142434445464748494a4b4c4d4e4f505152535455565758595a5b5c5d5e5f";

const RTMR3: &str =
    "404142434445464748494a4b4c4d4e4f505152535455565758595a5b5c5d5e5f606162636465666768696a6b6c6d6e6f";

const GIVEN: &str =
    "030a11181f262d343b424950575e656c737a81888f969da4abb2b9c0c7ced5dce3eaf1f8ff060d141b222930373e454c535a61686f767d848b9299a0a7aeb5bc";

const MAC: &str =
    "8152b8f6e4741ad47d6ca62c3e28c9521ce328c81dbc692997be51c45389bd712ec50ff9de550cb53727e60d3aa0bdc7";

fn facts() -> Result<Facts, Fail> {
    Ok(Facts {
        mrtd: <[u8; 48]>::from_hex(MRTD)?,
        rtmr0: <[u8; 48]>::from_hex(RTMR0)?,
        rtmr1: <[u8; 48]>::from_hex(RTMR1)?,
        rtmr2: <[u8; 48]>::from_hex(RTMR2)?,
        rtmr3: <[u8; 48]>::from_hex(RTMR3)?,
        given: <[u8; 64]>::from_hex(GIVEN)?,
    })
}

// The digits of their report.
fn digits(alloc: Global) -> Result<String, Fail> {
    let parts = format!(in alloc; "{MRTD}{RTMR0}{RTMR1}{RTMR2}{RTMR3}{GIVEN}{MAC}")?;
    Ok(format!(in alloc; "5444585245503031{parts}")?)
}

#[test]
fn makes_the_report_of_facts(rt: HostRuntime) -> Result<(), Fail> {
    let key = <[u8; 48]>::from_hex(KEY)?;
    let made = make_report(&key, &facts()?).encode_hex(rt.alloc())?;
    assert_eq!(rt; made.as_str(), digits(rt.alloc())?.as_str());
    Ok(())
}

#[test]
fn tells_the_facts_of_its_own_file_of_either_case(rt: HostRuntime) -> Result<(), Fail> {
    let key = <[u8; 48]>::from_hex(KEY)?;
    let mut file = digits(rt.alloc())?.into_bytes();
    file.push(b'\n')?;
    assert_eq!(rt; check_report(&key, &file), Ok(facts()?));
    for i in 0..file.len() {
        file[i] = file[i].to_ascii_uppercase();
    }
    assert_eq!(rt; check_report(&key, &file), Ok(facts()?));
    Ok(())
}

// A byte of the file in another's place, and the first fault then.
const CHANGED: [(usize, u8, ReportFault); 8] = [
    (719, b'0', ReportFault::Mac),
    (624, b'0', ReportFault::Mac),
    (16, b'f', ReportFault::Mac),
    (0, b'6', ReportFault::Magic),
    (15, b'2', ReportFault::Magic),
    (0, b'g', ReportFault::Hex),
    (719, b' ', ReportFault::Hex),
    (720, b'\r', ReportFault::Length),
];

#[test]
fn tells_the_first_fault_of_a_changed_file(rt: HostRuntime) -> Result<(), Fail> {
    let key = <[u8; 48]>::from_hex(KEY)?;
    for (at, byte, fault) in CHANGED {
        let mut file = digits(rt.alloc())?.into_bytes();
        file.push(b'\n')?;
        assert!(rt; at < file.len());
        file[at] = byte;
        assert_eq!(rt; check_report(&key, &file), Err(fault), "byte {at}");
    }
    Ok(())
}

#[test]
fn tells_the_first_fault_of_other_files(rt: HostRuntime) -> Result<(), Fail> {
    let key = <[u8; 48]>::from_hex(KEY)?;
    let mut file = digits(rt.alloc())?.into_bytes();
    assert_eq!(rt; check_report(&key, &[]), Err(ReportFault::Length));
    assert_eq!(rt; check_report(&key, &file), Err(ReportFault::Length));
    file.push(b'\n')?;
    assert_eq!(rt; check_report(&[0; 48], &file), Err(ReportFault::Mac));
    file.push(b'\n')?;
    assert_eq!(rt; check_report(&key, &file), Err(ReportFault::Length));
    Ok(())
}
