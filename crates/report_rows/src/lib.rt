//! Rows of the texts of reports, on `report_text`, and of the reports of guests, on `report_core`. They
//! have a crate of their own, since one with tests is proved twice.
#![tactic(auto)]

#[cfg(test)]
mod reports;
#[cfg(test)]
mod rfc_cases;
#[cfg(test)]
mod texts;
