//! Parts that the calls of a migration share: the streams of a TD with a word of each, the stream that a
//! bundle is made on, and the words of its header that TDCS has; the beginning of rows that hold a TD's
//! map alone, and the act that gives a TD another operation state.
//!
//! Each part is a function of the words that it is told, a tree with a place for what comes after
//! it, and a lemma that takes the meaning of what comes after it to the meaning of the whole. A call
//! that does nothing else than give a TD another operation state is `op_verdict` and `op_write`, and
//! means its row by `op-row-means`. The layer above may use besides what words show once a stream has
//! counted a bundle, and that a decision which stops has made none.
#![tactic(auto)]

mod op_states;
mod rooms;
mod streams;

pub use op_states::{op_verdict, op_write, td_alone};
pub use rooms::{Room, mig_epoch, room_of, room_on, session};
pub use streams::{STREAMS, stream_page, stream_pages, stream_sum};
