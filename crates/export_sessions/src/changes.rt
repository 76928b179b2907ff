//! What a session's beginning stores.

ghost use Rattle.std.specs.Prelude.{◌≡◌, ◌+◌, ◌*◌, ◌<◌, ◌≤◌, Option, length, MatchOption};
ghost use Rattle.std.specs.List.{All};
ghost use Rattle.mrtd_measure.specs.declared.measures.Measure.{Measure};
ghost use Rattle.leaf_engine.specs.Decides.{HandsAt};
ghost use Rattle.export_sessions.specs.SessionTrees.{stream_changes, session_changes};

use arrayvec::ArrayVec;
use leaf_engine::Write;
use stream_parts::STREAMS;
use td_words::places::{
    KEY_LAST_EXPORTED, STREAM_CLEANED, STREAM_COUNTER, STREAM_FIRST_EXPORTS, TDCS_DIRTIED,
    TDCS_MIG_EPOCH, TDCS_OP, TDCS_SESSION, TDCS_TD_EXPORTED, TDCS_UNRESTORED, TDCS_VPS_EXPORTED,
};
use td_words::{Machine, OpState, key_address, word_address};

/// A session as it begins: the TDCS page of its TD, the pages of the TD's streams, its number, and
/// how many virtual processors there are.
#[derive(Drop)]
pub struct Session {
    pub tdcs: u16,
    pub streams: ArrayVec<u16, STREAMS>,
    pub number: u16,
    pub vps: u16,
}

impl Session {
    /// Its change of that number: the number of the last session in the key table is the act; then
    /// come the words of the TD, and those of its streams, of which the first has counted a bundle.
    pub fn write(&self, machine: Machine, number: usize) -> Option<Write>
        requires { (self.now.tdcs < machine.pages) × All (λ p. p < machine.pages) self.now.streams.items × (length self.now.streams.items ≤ 4) }
        ensures hands { (h : Option Measure) → HandsAt machine (session_changes self.now) number h h result }
        ensures few { MatchOption result Unit (λ w. number < 20) }
    {
        let at = match number {
            0 => {
                let last = key_address(machine.pages, KEY_LAST_EXPORTED);
                return Some(Write::store(last, u64::from(self.number)));
            }
            1 => TDCS_OP,
            2 => TDCS_SESSION,
            3 => TDCS_MIG_EPOCH,
            4 => TDCS_TD_EXPORTED,
            5 => TDCS_VPS_EXPORTED,
            6 => TDCS_DIRTIED,
            7 => TDCS_UNRESTORED,
            _ => return stream_write(machine, self.streams.as_slice(), 1, number - 8),
        };
        let word = match number {
            1 => OpState::LiveExport as u64,
            2 => u64::from(self.number),
            3 => 1,
            _ => 0,
        };
        Some(Write::store(word_address(self.tdcs, at), word))
    }
}

/// Of the stores at streams the one of that number: the first stream has counted so many bundles,
/// and the others none.
fn stream_write(machine: Machine, streams: &[u16], counter: u64, number: usize) -> Option<Write>
    requires { All (λ p. p < machine.pages) streams.now }
    ensures hands { (h : Option Measure) → HandsAt machine (stream_changes counter streams.now) number h h result }
    ensures few { MatchOption result Unit (λ w. number < 3 * length streams.now) }
{
    match streams {
        [] => None,
        [page, further @ ..] => match number {
            0 => Some(Write::store(word_address(*page, STREAM_COUNTER), counter)),
            1 => Some(Write::store(word_address(*page, STREAM_CLEANED), 0)),
            2 => Some(Write::store(word_address(*page, STREAM_FIRST_EXPORTS), 0)),
            _ => stream_write(machine, further, 0, number - 3),
        },
    }
}
