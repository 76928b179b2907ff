//! The first lines of guest code.

ghost use Rattle.std.specs.Prelude.{◌≡◌};
ghost use Rattle.script_text.specs.Blocks.{code_in, code_of, list_place, none_listed};

use crate::faults::Reason;
use crate::lines::{check_count, is_marked, number_of};
use td_words::Machine;

/// The list of VCPU `index` (0 to 7) of the TD whose TDR is page `tdr`.
#[derive(Clone, Copy, Debug, PartialEq, Eq)]
pub struct CodePlace {
    pub tdr: u16,
    pub index: u8,
}

/// Where the list of a VCPU is marked.
pub fn list_place(place: CodePlace) -> usize
    ensures { result ≡ list_place place }
{
    8 * usize::from(place.tdr) + usize::from(place.index)
}

/// The marks where no VCPU had a list. They take no memory of the allocator's, and make the test for
/// a second list as short behind thousands of lists as behind one.
#[tactic(auto, unfolding(crate::specs::Blocks::none_listed))]
pub fn none_listed() -> [bool; 8192]
    ensures { result ≡ none_listed }
{
    [false; 8192]
}

fn code_place(machine: Machine, listed: &[bool], tdr: u64, index: u64) -> Result<CodePlace, Reason>
    ensures { result ≡ code_in machine listed.now tdr index }
{
    if tdr >= u64::from(machine.pages) || index >= 8 {
        return Err(Reason::Range);
    }
    let (tdr, index) = (tdr as u16, index as u8);
    let place = CodePlace { tdr, index };
    if is_marked(listed, list_place(place)) {
        return Err(Reason::Repeated);
    }
    Ok(place)
}

/// What `code TDR INDEX` begins, where its words behind the first are those numbers. `listed` says of
/// 8 times a page and a VCPU whether that VCPU had a list.
#[tactic(auto, unfolding(crate::specs::Blocks::code_of))]
pub fn code_line(
    machine: Machine,
    listed: &[bool],
    numbers: &[Option<u64>],
) -> Result<CodePlace, Reason>
    ensures { result ≡ code_of machine listed.now numbers.now }
{
    check_count(numbers, 2)?;
    let tdr = number_of(numbers, 0)?;
    let index = number_of(numbers, 1)?;
    code_place(machine, listed, tdr, index)
}
