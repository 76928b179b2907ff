//! What one line says.

ghost use Rattle.std.specs.Prelude.{◌≡◌, None, is_some, slice_index_or, false};
ghost use Rattle.std.specs.List.{list_all};
ghost use Rattle.line_words.specs.Mnemonics.{mnemonics, mnemonic_in};
ghost use Rattle.script_text.specs.Counted.{counted_of, number_at, argument};
ghost use Rattle.script_text.specs.Line.{keyword_of, machine_in, machine_of, block_in, block_of, end_of, named_entry, are_given, judged_of, call_of, list_of, operation_line_of, outside_of, named_of, inside_of, entry_of};

use crate::code_blocks::{CodePlace, code_line};
use crate::faults::Reason;
use crate::fields::{fits_slot, slot_at, slot_place};
use crate::operations::{OpName, operation_at, operation_with};
use line_words::{CallName, Mnemonic, is, mnemonic_at};
use td_words::{Call, GuestOp, Machine};

/// The first word of a line that isn't a call.
#[derive(Clone, Copy, Debug, PartialEq, Eq)]
pub enum Keyword {
    Machine,
    Schedule,
    Code,
    Lp,
    End,
}

/// A block that is open.
#[derive(Clone, Copy, Debug, PartialEq, Eq)]
pub enum Block {
    /// That processor's calls.
    Lp(u8),
    /// The operations of that virtual processor.
    Code(CodePlace),
}

/// What stood before a line: the machine, the block that is open, and which processors had a block.
#[derive(Clone, Copy, Debug, PartialEq, Eq)]
pub struct Stage {
    pub machine: Option<Machine>,
    pub block: Option<Block>,
    pub had: [bool; 8],
}

/// What a line says that isn't skipped.
#[derive(Clone, Copy, Debug, PartialEq, Eq)]
pub enum Entry {
    Machine(Machine),
    /// Schedule items follow, each of a processor below that number.
    Schedule(u8),
    /// The block of that processor begins.
    Open(u8),
    /// The list of that virtual processor begins.
    List(CodePlace),
    End,
    /// A call of that processor.
    Call(u8, Call),
    /// That processor's MNG.RD of that TDR; the second word behind the first names the field.
    Read(u8, u64),
    /// The next operation of the list that is open.
    Operation(GuestOp),
}

/// What a line says, or the first reason why it is bad.
pub type Said = Result<Entry, Reason>;

fn keyword_at(word: &[u8]) -> Option<Keyword>
    ensures { result ≡ keyword_of word.now }
{
    if is(word, "machine") {
        Some(Keyword::Machine)
    } else if is(word, "schedule") {
        Some(Keyword::Schedule)
    } else if is(word, "code") {
        Some(Keyword::Code)
    } else if is(word, "lp") {
        Some(Keyword::Lp)
    } else if is(word, "end") {
        Some(Keyword::End)
    } else {
        None
    }
}

pub fn check_count(numbers: &[Option<u64>], count: usize) -> Result<(), Reason>
    ensures { result ≡ counted_of count numbers.now }
{
    if numbers.len() != count {
        return Err(Reason::Count);
    }
    Ok(())
}

fn given(numbers: &[Option<u64>], i: usize) -> Option<u64>
    ensures { result ≡ slice_index_or numbers.now i None }
{
    if i < numbers.len() { numbers[i] } else { None }
}

pub fn number_of(numbers: &[Option<u64>], i: usize) -> Result<u64, Reason>
    ensures { result ≡ number_at numbers.now i }
{
    given(numbers, i).ok_or(Reason::Number)
}

fn machine_at(lps: u64, pages: u64, hkids: u64) -> Said
    ensures { result ≡ machine_in lps pages hkids }
{
    if !(1 <= lps && lps <= 8 && 8 <= pages && pages <= 1024 && 1 <= hkids && hkids <= 15) {
        return Err(Reason::Range);
    }
    let (lps, pages, hkids) = (lps as u8, pages as u16, hkids as u8);
    Ok(Entry::Machine(Machine { lps, pages, hkids }))
}

#[tactic(auto, unfolding(crate::specs::Line::machine_of))]
fn machine_line(numbers: &[Option<u64>]) -> Said
    ensures { result ≡ machine_of numbers.now }
{
    check_count(numbers, 3)?;
    let lps = number_of(numbers, 0)?;
    let pages = number_of(numbers, 1)?;
    let hkids = number_of(numbers, 2)?;
    machine_at(lps, pages, hkids)
}

/// Whether a place is marked; one past the end isn't.
pub fn is_marked(marks: &[bool], place: usize) -> bool
    ensures { result ≡ slice_index_or marks.now place false }
{
    place < marks.len() && marks[place]
}

fn block_at(machine: Machine, had: &[bool; 8], lp: u64) -> Said
    ensures { result ≡ block_in machine had.now lp }
{
    if lp >= u64::from(machine.lps) {
        return Err(Reason::Range);
    }
    let lp = lp as u8;
    if is_marked(had, usize::from(lp)) {
        return Err(Reason::Repeated);
    }
    Ok(Entry::Open(lp))
}

#[tactic(auto, unfolding(crate::specs::Line::block_of))]
fn block_line(machine: Machine, had: &[bool; 8], numbers: &[Option<u64>]) -> Said
    ensures { result ≡ block_of machine had.now numbers.now }
{
    check_count(numbers, 1)?;
    block_at(machine, had, number_of(numbers, 0)?)
}

#[tactic(auto, unfolding(crate::specs::Line::end_of))]
fn end_line(numbers: &[Option<u64>]) -> Said
    ensures { result ≡ end_of numbers.now }
{
    check_count(numbers, 0)?;
    Ok(Entry::End)
}

pub fn argument(numbers: &[Option<u64>], i: usize) -> u64
    ensures { result ≡ argument numbers.now i }
{
    given(numbers, i).unwrap_or(0)
}

fn named_entry(lp: u8, call: CallName, numbers: &[Option<u64>]) -> Entry
    ensures { result ≡ named_entry lp call numbers.now }
{
    let (first, second) = (argument(numbers, 0), argument(numbers, 1));
    let (third, fourth) = (argument(numbers, 2), argument(numbers, 3));
    let (page, tdr, word, vp, gpa) = (first, first, second, second, second);
    let (value, max, level, augmented, start) = (third, third, third, third, third);
    let moved_to = third;
    let (slot, last_slot) = (slot_at(numbers, 1), slot_at(numbers, 2));
    let (page_slot, destination) = (slot_at(numbers, 3), third);
    let call = match call {
        CallName::HostRead => Call::HostRead { page, word },
        CallName::HostWrite => Call::HostWrite { page, word, value },
        CallName::PhymemPageRdmd => Call::PhymemPageRdmd { page },
        CallName::PhymemCacheWb => Call::PhymemCacheWb,
        CallName::PhymemPageReclaim => Call::PhymemPageReclaim { tdr, page: second },
        CallName::MngCreate => Call::MngCreate { tdr, hkid: second },
        CallName::MngKeyConfig => Call::MngKeyConfig { tdr },
        CallName::MngAddcx => Call::MngAddcx { tdr, page: second },
        CallName::MngInit => Call::MngInit { tdr },
        CallName::MngRd => return Entry::Read(lp, tdr),
        CallName::MngVpflushdone => Call::MngVpflushdone { tdr },
        CallName::MngKeyFreeid => Call::MngKeyFreeid { tdr },
        CallName::MrExtend => Call::MrExtend { tdr, gpa },
        CallName::MrFinalize => Call::MrFinalize { tdr },
        CallName::VpCreate => Call::VpCreate { tdr, page: second },
        CallName::VpInit => Call::VpInit { tdr, vp, value },
        CallName::VpEnter => Call::VpEnter { tdr, vp, max },
        CallName::VpFlush => Call::VpFlush { tdr, vp },
        CallName::MemSeptAdd => Call::MemSeptAdd {
            tdr,
            gpa,
            level,
            page: fourth,
        },
        CallName::MemSeptRd => Call::MemSeptRd { tdr, gpa, level },
        CallName::MemSeptRemove => Call::MemSeptRemove { tdr, gpa, level },
        CallName::MemPageAdd => Call::MemPageAdd {
            tdr,
            gpa,
            page: third,
            source: fourth,
        },
        CallName::MemPageAug => Call::MemPageAug {
            tdr,
            gpa,
            page: augmented,
        },
        CallName::MemPageRemove => Call::MemPageRemove { tdr, gpa },
        CallName::MemPageRelocate => Call::MemPageRelocate {
            tdr,
            gpa,
            page: moved_to,
        },
        CallName::MemRangeBlock => Call::MemRangeBlock { tdr, gpa, level },
        CallName::MemRangeUnblock => Call::MemRangeUnblock { tdr, gpa, level },
        CallName::MemTrack => Call::MemTrack { tdr },
        CallName::MigStreamCreate => Call::MigStreamCreate { tdr, page: second },
        CallName::ExportBlockw => Call::ExportBlockw { tdr, gpa },
        CallName::ExportUnblockw => Call::ExportUnblockw { tdr, gpa },
        CallName::ExportPause => Call::ExportPause { tdr },
        CallName::ExportAbort => {
            if numbers.len() == 2 {
                Call::ExportAbortByToken { tdr, slot: second }
            } else {
                Call::ExportAbort { tdr }
            }
        }
        CallName::ExportRestore => Call::ExportRestore { tdr, gpa },
        CallName::ExportStateImmutable => Call::ExportStateImmutable { tdr, slot },
        CallName::ExportMem => Call::ExportMem {
            tdr,
            gpa,
            stream: third,
            slot: page_slot,
        },
        CallName::ExportTrack => Call::ExportTrack { tdr, slot, start },
        CallName::ExportStateTd => Call::ExportStateTd { tdr, slot },
        CallName::ExportStateVp => Call::ExportStateVp {
            tdr,
            vp,
            slot: last_slot,
        },
        CallName::ImportStateImmutable => Call::ImportStateImmutable { tdr, slot: second },
        CallName::ImportMem => Call::ImportMem {
            tdr,
            slot: second,
            page: destination,
        },
        CallName::ImportTrack => Call::ImportTrack { tdr, slot: second },
        CallName::ImportStateTd => Call::ImportStateTd { tdr, slot: second },
        CallName::ImportStateVp => Call::ImportStateVp {
            tdr,
            vp,
            slot: third,
        },
        CallName::ImportCommit => Call::ImportCommit { tdr },
        CallName::ImportEnd => Call::ImportEnd { tdr },
        CallName::ImportAbort => Call::ImportAbort { tdr, slot },
    };
    Entry::Call(lp, call)
}

pub fn are_numbers(numbers: &[Option<u64>]) -> bool
    ensures { result ≡ list_all is_some numbers.now }
{
    numbers.iter().all(|number| number.is_some())
}

fn are_given(call: CallName, numbers: &[Option<u64>]) -> bool
    ensures { result ≡ are_given call numbers.now }
{
    match call {
        CallName::MngRd => given(numbers, 0).is_some(),
        _ => are_numbers(numbers),
    }
}

fn judged(entry: Entry, row: Mnemonic, numbers: &[Option<u64>]) -> Said
    ensures { result ≡ judged_of entry row numbers.now }
{
    if numbers.len() < row.least || numbers.len() > row.most {
        return Err(Reason::Count);
    }
    if !are_given(row.call, numbers) {
        return Err(Reason::Number);
    }
    if !fits_slot(slot_place(row.call), numbers) {
        return Err(Reason::Range);
    }
    Ok(entry)
}

#[tactic(auto, unfolding(crate::specs::Line::call_of))]
fn call_line(lp: u8, mnemonic: Option<Mnemonic>, numbers: &[Option<u64>]) -> Said
    ensures { result ≡ call_of lp mnemonic numbers.now }
{
    let mnemonic = mnemonic.ok_or(Reason::Word)?;
    judged(named_entry(lp, mnemonic.call, numbers), mnemonic, numbers)
}

fn list_line(machine: Machine, listed: &[bool], numbers: &[Option<u64>]) -> Said
    ensures { result ≡ list_of machine listed.now numbers.now }
{
    let place = code_line(machine, listed, numbers)?;
    Ok(Entry::List(place))
}

#[tactic(auto, unfolding(crate::specs::Line::operation_line_of))]
fn operation_line(op: Option<OpName>, numbers: &[Option<u64>]) -> Said
    ensures { result ≡ operation_line_of op numbers.now }
{
    match op {
        None => Err(Reason::Word),
        Some(op) => match operation_with(op, numbers) {
            Ok(named) => Ok(Entry::Operation(named)),
            Err(reason) => Err(reason),
        },
    }
}

fn outside_at(
    machine: Machine,
    had: &[bool; 8],
    listed: &[bool],
    keyword: Option<Keyword>,
    numbers: &[Option<u64>],
) -> Said
    ensures { result ≡ outside_of machine had.now listed.now keyword numbers.now }
{
    match keyword {
        Some(Keyword::Machine) => Err(Reason::Machine),
        Some(Keyword::End) => Err(Reason::Place),
        Some(Keyword::Schedule) => Ok(Entry::Schedule(machine.lps)),
        Some(Keyword::Code) => list_line(machine, listed, numbers),
        Some(Keyword::Lp) => block_line(machine, had, numbers),
        None => Err(Reason::Word),
    }
}

fn named_at(block: Block, word: &[u8], numbers: &[Option<u64>]) -> Said
    ensures { result ≡ named_of block word.now numbers.now }
{
    match block {
        Block::Lp(lp) => call_line(lp, mnemonic_at(word), numbers),
        Block::Code(_) => operation_line(operation_at(word), numbers),
    }
}

fn inside_at(block: Block, keyword: Option<Keyword>, word: &[u8], numbers: &[Option<u64>]) -> Said
    ensures { result ≡ inside_of block keyword word.now numbers.now }
{
    match keyword {
        Some(Keyword::Machine) => Err(Reason::Machine),
        Some(Keyword::End) => end_line(numbers),
        Some(_) => Err(Reason::Place),
        None => named_at(block, word, numbers),
    }
}

/// What a line says whose first word is that and whose next words are those numbers. `listed` says
/// of 8 times a page and a VCPU whether that VCPU had a list.
#[tactic(auto, unfolding(crate::specs::Line::entry_of))]
pub fn entry_at(stage: &Stage, listed: &[bool], word: &[u8], numbers: &[Option<u64>]) -> Said
    ensures { result ≡ entry_of stage.now listed.now word.now numbers.now }
{
    let keyword = keyword_at(word);
    match stage.machine {
        None => match keyword {
            Some(Keyword::Machine) => machine_line(numbers),
            _ => Err(Reason::Machine),
        },
        Some(machine) => match stage.block {
            None => outside_at(machine, &stage.had, listed, keyword, numbers),
            Some(block) => inside_at(block, keyword, word, numbers),
        },
    }
}
