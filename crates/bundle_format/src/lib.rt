//! Migration bundles: the 64 bytes of a header, what each kind of bundle allows, and the first fault of
//! bytes that are no bundle.
//!
//! Contracts see a header as td_words' `Header`. A layer above may use that `write_header` writes
//! `header_bytes`, whose first 48 are `head_bytes`, that `read_bundle` is `bundle_in`, which names the first fault in the format's order,
//! and that both meet in one grammar (`headers_read_again`): bytes are a bundle exactly where they are
//! the spelling of a lawful header with a payload of the kind's length behind it, and a header has one
//! spelling, which begins no other.
#![tactic(auto)]

mod headers;
mod kinds;
mod laws;

pub use headers::{head, read_bundle, write_header};
pub use kinds::{Allowed, BundleKind};
pub use laws::headers_read_again;
