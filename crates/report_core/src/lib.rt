//! Reports: what a guest is built of and has to say, in 360 bytes with their MAC, and their check.
//!
//! The crate stands on `sha2` and on `hex`. A layer above may use that `hmac` is HMAC of FIPS 198-1 with
//! SHA-384 (`specs/Hmac.antt`), that `make_report` gives the bytes that `specs/Report.antt` defines, that
//! `check_report` accepts facts exactly where the file is the digits of their report and a newline, that
//! each fault is the first that holds, and that different facts have different reports. No call takes
//! memory. Nothing is claimed of forging, nor of the time that a call takes.
#![tactic(auto)]

mod facts;
mod hmacs;
mod laws;
mod reports;

pub use facts::Facts;
pub use hmacs::hmac;
pub use laws::reports_told_apart;
pub use reports::{ReportFault, check_report, make_report};
