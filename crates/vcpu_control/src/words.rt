//! What words say that the leaves of virtual processors load.

ghost use Rattle.std.specs.Prelude.{◌≡◌, ◌+◌, ◌%◌, ◌^◌, ◌&&◌, nat_lt, nat_le};
ghost use Rattle.td_words.specs.Address.{word_at};
ghost use Rattle.td_words.specs.declared.names.VcpuState.TheVariants.{Ready};
ghost use Rattle.flat_core.specs.Conditions.{is_elsewhere, lp_shown, same_vp_state};
ghost use Rattle.flat_core.specs.Translations.{is_stale};
ghost use Rattle.vcpu_control.specs.EnterTrees.{lp_told};
ghost use Rattle.vcpu_control.specs.Words.{says_page_of, vcpu_told, has_room};

use leaf_parts::{says_kind, says_owner};
use td_words::places::TDCS_ENTERED;
use td_words::{OpState, PageKind, VcpuState, word_address};

/// Whether a PAMT word says that its page is of that kind and TD.
pub fn says_page_of(tdr: u16, kind: PageKind, pamt: u64) -> bool
    ensures { result ≡ says_page_of tdr kind pamt }
{
    says_kind(kind, pamt) && says_owner(tdr, pamt)
}

/// The state of a virtual processor of that number. Any other number never stands where it is told.
pub fn vcpu_told(word: u64) -> VcpuState
    ensures { result ≡ vcpu_told word }
{
    match word {
        0 => VcpuState::Created,
        _ => VcpuState::Ready,
    }
}

/// Whether a virtual processor is READY.
pub fn is_ready(state: VcpuState) -> bool
    ensures { result ≡ same_vp_state state Ready }
{
    state == VcpuState::Ready
}

/// Whether a TD has room for another virtual processor: eight at most, and in an import as many as
/// it expects.
pub fn has_room(op: OpState, expected: u64, count: u64) -> bool
    ensures { result ≡ has_room op expected count }
{
    let limit = match op {
        OpState::MemoryImport => expected,
        _ => 8,
    };
    count < 8 && count < limit
}

/// Whether an entry may ask for that many operations.
pub fn is_most(most: u64) -> bool
    ensures { result ≡ nat_le 1 most && nat_lt most (2 ^ 16) }
{
    1 <= most && most < 65536
}

/// The logical processor that an association's word names.
pub fn lp_told(word: u64) -> Option<u64>
    ensures { result ≡ lp_told word }
{
    match word {
        0 => None,
        _ => Some(word - 1),
    }
}

/// Whether a virtual processor is associated with another logical processor than this one.
pub fn is_elsewhere(me: u8, associated: Option<u64>) -> bool
    ensures { result ≡ is_elsewhere me associated }
{
    match associated {
        None => false,
        Some(lp) => lp != u64::from(me),
    }
}

/// How an association is shown.
pub fn lp_shown(associated: Option<u64>) -> u64
    ensures { result ≡ lp_shown associated }
{
    match associated {
        None => 0,
        Some(lp) => lp,
    }
}

/// Whether translations that were cached before this entry may be stale.
pub fn is_stale(associated: Option<u64>, last: u64, epoch: u64) -> bool
    ensures { result ≡ is_stale associated last epoch }
{
    match associated {
        None => true,
        Some(_) => last != epoch,
    }
}

/// Where the virtual processors in guest are counted that entered at epochs of that parity.
pub fn entered_address(tdcs: u16, epoch: u64) -> u32
    ensures { result ≡ word_at tdcs (6 + epoch % 2) }
{
    word_address(tdcs, TDCS_ENTERED + (epoch % 2) as u16)
}
