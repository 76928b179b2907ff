//! Pages, read from a machine's words.

ghost use Rattle.std.specs.Prelude.{◌≡◌, slice_index, true, false};
ghost use Rattle.state_lines.specs.StateText.{stands};
ghost use Rattle.td_words.specs.declared.places.TheConstants.{TDR_LIFE};
ghost use Rattle.leaf_parts.specs.Words.{life_told};
ghost use Rattle.state_lines.specs.WordText.{word_in, used_entry, root_in, pamt_seen, tdcs_seen, tdcs_found, td_seen, lp_in, vcpu_seen, stream_seen, content_in, owner_read, vcpu_told};

use crate::seen::{Content, StreamSeen, TdSeen, TdcsSeen, VcpuSeen};
use leaf_parts::{life_told, op_told};
use pamt_core::PamtWord;
use sept_entry::Entry;
use td_words::places::{
    STREAM_COUNTER, TDCS_ENTERED, TDCS_EPOCH, TDCS_MIG_EPOCH, TDCS_OP, TDCS_SESSION,
    TDCS_STREAM_COUNT, TDCS_VP_COUNT, TDR_CHILDREN, TDR_HKID, TDR_LIFE, TDR_ROOT, TDR_TDCS,
    TDR_TDCX_COUNT, VP_ASSOCIATED, VP_INDEX, VP_LAST_EPOCH, VP_POSITION, VP_STATE,
};
use td_words::{EntryState, LifeState, PageKind, VcpuState};
use tlb_epochs::count_at;

// The word at an address, and 0 behind the last one.
fn word_at(words: &[u64], at: usize) -> u64
    ensures { result ≡ slice_index words.now at }
{
    match words.get(at) {
        Some(word) => *word,
        None => 0,
    }
}

// A content word of a page.
fn word_in(words: &[u64], page: u16, index: u16) -> u64
    ensures { result ≡ word_in words.now page index }
{
    word_at(words, 514 * page as usize + 2 + index as usize)
}

pub(crate) fn pamt_seen(words: &[u64], page: u16) -> Option<PamtWord>
    ensures { result ≡ pamt_seen words.now page }
{
    PamtWord::unpack(word_at(words, 514 * page as usize + 1))
}

/// The TDR page of the TD that a page is of; 0 where its PAMT word is none.
pub fn owner_of(words: &[u64], page: u16) -> u16
    ensures { result ≡ owner_read words.now page }
{
    match pamt_seen(words, page) {
        Some(pamt) => pamt.owner,
        None => 0,
    }
}

fn vcpu_told(number: u64) -> VcpuState
    ensures { result ≡ vcpu_told number }
{
    match number {
        0 => VcpuState::Created,
        _ => VcpuState::Ready,
    }
}

fn tdcs_seen(words: &[u64], page: u16) -> TdcsSeen
    ensures { result ≡ tdcs_seen words.now page }
{
    let epoch = word_in(words, page, TDCS_EPOCH);
    let parity = u16::from(count_at((epoch % (1 << 32)) as u32));
    TdcsSeen {
        page: page as u64,
        op: op_told(word_in(words, page, TDCS_OP)),
        epoch,
        entered: word_in(words, page, TDCS_ENTERED + parity),
        entered_before: word_in(words, page, TDCS_ENTERED + (1 - parity)),
        vcpus: word_in(words, page, TDCS_VP_COUNT),
        streams: word_in(words, page, TDCS_STREAM_COUNT),
        session: word_in(words, page, TDCS_SESSION),
        mig_epoch: word_in(words, page, TDCS_MIG_EPOCH),
    }
}

// A TD's TDCS, where it has one that counts.
fn tdcs_found(words: &[u64], tdr: u16) -> Option<TdcsSeen>
    ensures { result ≡ tdcs_found words.now tdr }
{
    if word_in(words, tdr, TDR_TDCX_COUNT) == 0 || !stands(words, tdr) {
        return None;
    }
    let page = (word_in(words, tdr, TDR_TDCS) % 65536) as u16;
    Some(tdcs_seen(words, page))
}

// The entry at an index of a page; None where the word is none, or one that is FREE.
pub(crate) fn used_entry(words: &[u64], page: u16, index: u16) -> Option<Entry>
    ensures { result ≡ used_entry words.now page index }
{
    let entry = Entry::unpack(word_in(words, page, index))?;
    match entry.state {
        EntryState::Free => None,
        _ => Some(entry),
    }
}

// The root of a TD's secure EPT, where it has one that counts.
pub(crate) fn root_in(words: &[u64], tdr: u16) -> Option<u16>
    ensures { result ≡ root_in words.now tdr }
{
    if word_in(words, tdr, TDR_TDCX_COUNT) != 2 || !stands(words, tdr) {
        return None;
    }
    Some((word_in(words, tdr, TDR_ROOT) % 65536) as u16)
}

// Whether a TD isn't in TD_TEARDOWN.
fn stands(words: &[u64], tdr: u16) -> bool
    ensures { result ≡ stands (life_told (word_in words.now tdr TDR_LIFE)) true false }
{
    match life_told(word_in(words, tdr, TDR_LIFE)) {
        LifeState::Teardown => false,
        _ => true,
    }
}

fn td_seen(words: &[u64], tdr: u16) -> TdSeen
    ensures { result ≡ td_seen words.now tdr }
{
    TdSeen {
        life: life_told(word_in(words, tdr, TDR_LIFE)),
        hkid: word_in(words, tdr, TDR_HKID),
        children: word_in(words, tdr, TDR_CHILDREN),
        tdcs: tdcs_found(words, tdr),
    }
}

fn lp_in(word: u64) -> Option<u64>
    ensures { result ≡ lp_in word }
{
    if word == 0 { None } else { Some(word - 1) }
}

fn vcpu_seen(words: &[u64], vp: u16) -> VcpuSeen
    ensures { result ≡ vcpu_seen words.now vp }
{
    VcpuSeen {
        index: word_in(words, vp, VP_INDEX),
        state: vcpu_told(word_in(words, vp, VP_STATE)),
        position: word_in(words, vp, VP_POSITION),
        associated: lp_in(word_in(words, vp, VP_ASSOCIATED)),
        last_epoch: word_in(words, vp, VP_LAST_EPOCH),
    }
}

fn stream_seen(words: &[u64], stream: u16) -> StreamSeen
    ensures { result ≡ stream_seen words.now stream }
{
    StreamSeen {
        counter: word_in(words, stream, STREAM_COUNTER),
    }
}

pub(crate) fn content_in(words: &[u64], page: u16, owner: u16, kind: PageKind) -> Content
    ensures { result ≡ content_in words.now page owner kind }
{
    match kind {
        PageKind::Tdr => Content::Td(td_seen(words, page)),
        PageKind::Tdvpr => {
            if stands(words, owner) {
                Content::Vcpu(vcpu_seen(words, page))
            } else {
                Content::Nothing
            }
        }
        PageKind::Migsc => {
            if stands(words, owner) {
                Content::Stream(stream_seen(words, page))
            } else {
                Content::Nothing
            }
        }
        _ => Content::Nothing,
    }
}
