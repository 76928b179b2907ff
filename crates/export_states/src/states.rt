//! What the exports of a TD's state and of a virtual processor's share.

ghost use Rattle.std.specs.Prelude.{◌≡◌, ◌+◌, ◌<◌, ◌≤◌, length, take, MatchResult};
ghost use Rattle.td_words.specs.Address.{word_at};

use bundles::Bundle;
use leaf_engine::Stop;
use stream_parts::Room;
use td_words::{Header, word_address};

/// What the words told say of a state that is exported: the TDCS page, and how many states of virtual
/// processors were exported before; the stream that counts the bundle; and the session, migration
/// epoch, index and info of its header. Of these what the call uses, and 0 elsewhere.
#[derive(Clone, Copy, Debug, PartialEq, Eq)]
pub struct Stated {
    pub tdcs: u16,
    pub count: u64,
    pub room: Room,
    pub session: u16,
    pub epoch: u32,
    pub index: u16,
    pub info: u32,
}

/// What a call exports: what its header says, and the words of its payload.
#[derive(Drop)]
pub struct Exported<'a> {
    pub stated: Stated,
    pub payload: &'a [u64],
}

impl<'a> Exported<'a> {
    ghost use Rattle.std.specs.Prelude.{◌≡◌};
    ghost use Rattle.export_states.specs.StateTrees.{state_bundle};

    /// The bundle of it, of that kind.
    pub fn bundle(self, slot: u16, kind: u8) -> Bundle<'a>
        ensures { result ≡ state_bundle slot kind self.entry.stated self.entry.payload.now }
    {
        let stated = self.stated;
        let header = Header {
            size: 64,
            version: 1,
            stream: 0,
            kind,
            reserved: 0,
            counter: stated.room.counter,
            epoch: stated.epoch,
            iv: u64::from(stated.room.counter),
            session: stated.session,
            index: stated.index,
            info: stated.info,
            gpa: 0,
            total: 0,
            tag: [0; 16],
        };
        Bundle {
            slot,
            header,
            payload: self.payload,
        }
    }
}

/// The words of a payload, of those that are left: so many, which stand in a page from that one on.
pub fn payload_of<'a>(left: &'a [u64], page: u16, from: u16, count: u16) -> Result<&'a [u64], Stop>
    requires { from + count ≤ 512 }
    ensures { MatchResult result (λ ws. (count ≤ length left.now) × (ws.now ≡ take count left.now))
        (λ e. (length left.now < count) × (e ≡ Stop.Load (word_at page (from + length left.now)))) }
{
    let told = left.len();
    if told < count as usize {
        Err(Stop::Load(word_address(page, from + told as u16)))
    } else {
        Ok(&left[..count as usize])
    }
}
