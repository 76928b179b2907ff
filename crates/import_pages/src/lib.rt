//! The call of a migration's destination that takes the words of a page in.
//!
//! Where its entry is FREE, a host page is taken: the words are stored before the act, which is the
//! store of the entry, since nobody may see that page yet. Where it is MAPPED, the words are the act and
//! what follows it, which no guest sees, as none runs before the import is committed. Either way a
//! write is made of the payload's word of its number, so nothing is copied.
//!
//! The layer above may use that the leaf means its row (`page_import-means`), for a bundle that is
//! there or not.
#![tactic(auto)]

mod page_conditions;
mod page_imports;

pub use page_imports::PageImport;
