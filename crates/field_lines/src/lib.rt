//! Lines of named fields in two forms: for reading, and as JSON, an object a line.
//!
//! A line is told as a list of fields once, which gives both its forms. A layer above may use that
//! `push_fields` and `push_line` add exactly the bytes that `specs/Fields.antt` defines, unless memory
//! wasn't found.
#![tactic(auto)]

mod fields;
mod lines;

pub use fields::{Field, Value};
pub use lines::{Form, push_fields, push_line};
