//! The steps of a guest.

use td_words::{Access, GuestOp, Outcome};

/// What a guest does next: an operation that goes by a row; an access to a word of a page through a
/// cached translation; the load of the entry of a level in its walk, from the page where it stands;
/// or it is left.
#[derive(Clone, Copy)]
pub enum Step {
    Operates(GuestOp),
    Accesses {
        access: Access,
        register: u8,
        gpa: u64,
        page: u16,
    },
    Loads {
        access: Access,
        gpa: u64,
        level: u8,
        page: u64,
    },
    Leaves(Outcome),
}
