//! The words of guest operations.

ghost use Rattle.std.specs.Prelude.{◌≡◌, ◌≤◌, length, ◌∷◌, ◌++◌, [], Some, None, Ok, is_some, map, nat_lt, if◌then◌else◌, MatchOption};
ghost use Rattle.line_words.specs.Number.{number};
ghost use Rattle.line_words.specs.Words.{words};
ghost use Rattle.script_text.specs.Blocks.{operation_of, name_of, second_operand_of, operand_count, is_operand, fit_operands, numbers_of, guest_op_of, operation_with, is_report, reports_in};
ghost use Rattle.script_text.specs.Line.{operation_in};

use crate::faults::Reason;
use crate::lines::{Entry, are_numbers, argument, check_count};
use line_words::{behind_name, is, next_number};
use td_words::GuestOp;

/// The name of a guest operation.
#[derive(Clone, Copy, Debug, PartialEq, Eq)]
pub enum OpName {
    Set,
    Secret,
    Add,
    Load,
    Store,
    Accept,
    Rtmr,
    Report,
    Vmcall,
}

/// What an operand of a guest operation names.
#[derive(Clone, Copy, Debug, PartialEq, Eq)]
pub enum Operand {
    /// A register, 0 to 7.
    Register,
    /// Any number.
    Value,
    /// A secret word, 0 to 511.
    SecretWord,
    /// A run-time measurement register, 0 to 3.
    RtmrIndex,
    /// A guest physical address below 2^48, a multiple of 8.
    WordGpa,
    /// A guest physical address below 2^47, a multiple of 4,096.
    PageGpa,
}

/// The operation that a word names.
pub fn operation_at(word: &[u8]) -> Option<OpName>
    ensures { result ≡ operation_of word.now }
{
    if is(word, "set") {
        Some(OpName::Set)
    } else if is(word, "secret") {
        Some(OpName::Secret)
    } else if is(word, "add") {
        Some(OpName::Add)
    } else if is(word, "load") {
        Some(OpName::Load)
    } else if is(word, "store") {
        Some(OpName::Store)
    } else if is(word, "accept") {
        Some(OpName::Accept)
    } else if is(word, "rtmr") {
        Some(OpName::Rtmr)
    } else if is(word, "report") {
        Some(OpName::Report)
    } else if is(word, "vmcall") {
        Some(OpName::Vmcall)
    } else {
        None
    }
}

// Whether an operation has a second operand.
fn has_second(op: OpName) -> bool
    ensures { result ≡ is_some (second_operand_of op) }
{
    match op {
        OpName::Accept | OpName::Rtmr | OpName::Report | OpName::Vmcall => false,
        _ => true,
    }
}

// How many operands an operation has.
fn operand_count(op: OpName) -> usize
    ensures { result ≡ operand_count op }
{
    match op {
        OpName::Report => 0,
        _ => { if has_second(op) { 2 } else { 1 } }
    }
}

fn is_operand(operand: Operand, number: u64) -> bool
    ensures { result ≡ is_operand operand number }
{
    match operand {
        Operand::Register => number < 8,
        Operand::Value => true,
        Operand::SecretWord => number < 512,
        Operand::RtmrIndex => number < 4,
        Operand::WordGpa => number < 1 << 48 && number % 8 == 0,
        Operand::PageGpa => number < 1 << 47 && number % 4096 == 0,
    }
}

// A number, where it is in range.
fn operand_in(operand: Operand, number: u64) -> Option<u64>
    ensures { result ≡ (if is_operand operand number then Some number else None) }
{
    if is_operand(operand, number) {
        Some(number)
    } else {
        None
    }
}

fn register_in(number: u64) -> Option<u8>
    ensures { result ≡ (if nat_lt number 8 then Some number else None) }
{
    if is_operand(Operand::Register, number) {
        Some(number as u8)
    } else {
        None
    }
}

fn secret_in(number: u64) -> Option<u16>
    ensures { result ≡ (if nat_lt number 512 then Some number else None) }
{
    if is_operand(Operand::SecretWord, number) {
        Some(number as u16)
    } else {
        None
    }
}

// The operation of that name and those operands, where these are in range. The second one doesn't count
// where the operation has one.
fn ranged_operation(op: OpName, first: u64, second: u64) -> Option<GuestOp>
    ensures { result ≡ (if fit_operands op first second then Some (guest_op_of op first second) else None) }
{
    match op {
        OpName::Set => {
            let register = register_in(first)?;
            Some(GuestOp::Set {
                register,
                value: second,
            })
        }
        OpName::Secret => {
            let register = register_in(first)?;
            let number = secret_in(second)?;
            Some(GuestOp::Secret { register, number })
        }
        OpName::Add => {
            let register = register_in(first)?;
            let other = register_in(second)?;
            Some(GuestOp::Add { register, other })
        }
        OpName::Load => {
            let register = register_in(first)?;
            let gpa = operand_in(Operand::WordGpa, second)?;
            Some(GuestOp::Load { register, gpa })
        }
        OpName::Store => {
            let register = register_in(first)?;
            let gpa = operand_in(Operand::WordGpa, second)?;
            Some(GuestOp::Store { register, gpa })
        }
        OpName::Accept => {
            let gpa = operand_in(Operand::PageGpa, first)?;
            Some(GuestOp::Accept { gpa })
        }
        OpName::Rtmr => {
            let index = operand_in(Operand::RtmrIndex, first)?;
            Some(GuestOp::Rtmr { index: index as u8 })
        }
        OpName::Report => Some(GuestOp::Report),
        OpName::Vmcall => {
            let register = register_in(first)?;
            Some(GuestOp::Vmcall { register })
        }
    }
}

/// The operation of that name whose words behind the first are those numbers, or the first reason why
/// there is none.
pub fn operation_with(op: OpName, numbers: &[Option<u64>]) -> Result<GuestOp, Reason>
    ensures { result ≡ operation_with op numbers.now }
{
    check_count(numbers, operand_count(op))?;
    if !are_numbers(numbers) {
        return Err(Reason::Number);
    }
    ranged_operation(op, argument(numbers, 0), argument(numbers, 1)).ok_or(Reason::Range)
}

// The numbers that a text's words are, where they are as many as the operation has operands; 0 where it
// has none. None tells nothing.
fn operand_numbers(op: OpName, text: &[u8]) -> Option<(u64, u64)>
    ensures { MatchOption result Unit (λ n. map number (words text.now) ≡ numbers_of op n.0 n.1) }
{
    if let OpName::Report = op {
        return None;
    }
    let (number, rest) = next_number(text)?;
    let first = number?;
    if has_second(op) {
        let second = last_number(rest)?;
        Some((first, second))
    } else if rest.is_empty() {
        Some((first, 0))
    } else {
        None
    }
}

/// The one number that a text's words are. None tells nothing.
pub fn last_number(text: &[u8]) -> Option<u64>
    ensures { MatchOption result Unit (λ n. map number (words text.now) ≡ Some n ∷ []) }
{
    let (number, rest) = next_number(text)?;
    if rest.is_empty() { number } else { None }
}

// The operation whose name a text begins with, and what stands behind the space after that. None tells
// nothing, nor of `report`, behind which nothing stands. Those come first that lists have most of.
fn named_operation(text: &[u8]) -> Option<(OpName, &[u8])>
    ensures { MatchOption result Unit (λ x. text.now ≡ name_of x.0 ++ 32 ∷ x.1.now) }
{
    if let Some(rest) = behind_name("load", text) {
        Some((OpName::Load, rest))
    } else if let Some(rest) = behind_name("store", text) {
        Some((OpName::Store, rest))
    } else if let Some(rest) = behind_name("add", text) {
        Some((OpName::Add, rest))
    } else if let Some(rest) = behind_name("set", text) {
        Some((OpName::Set, rest))
    } else if let Some(rest) = behind_name("vmcall", text) {
        Some((OpName::Vmcall, rest))
    } else if let Some(rest) = behind_name("secret", text) {
        Some((OpName::Secret, rest))
    } else if let Some(rest) = behind_name("accept", text) {
        Some((OpName::Accept, rest))
    } else if let Some(rest) = behind_name("rtmr", text) {
        Some((OpName::Rtmr, rest))
    } else {
        None
    }
}

/// The operation that a text says, where it begins with its name, and no reason holds that it is none.
/// None tells nothing.
#[tactic(auto, using(crate::proofs::Names::said))]
pub fn short_operation(text: &[u8]) -> Option<GuestOp>
    ensures { MatchOption result Unit (λ g. operation_in (words text.now) ≡ Ok (Entry.Operation g)) }
{
    let (op, rest) = named_operation(text)?;
    let (first, second) = operand_numbers(op, rest)?;
    ranged_operation(op, first, second)
}

/// Whether an operation is a report.
pub fn is_report(op: GuestOp) -> bool
    ensures { result ≡ is_report op }
{
    match op {
        GuestOp::Report => true,
        _ => false,
    }
}

/// How many of a list's operations are reports.
pub fn reports_in(ops: &[GuestOp]) -> usize
    ensures count { result ≡ reports_in ops.now }
    ensures few { result ≤ length ops.now }
{
    match ops {
        [] => 0,
        [op, further @ ..] => {
            let others = reports_in(further);
            if is_report(*op) { others + 1 } else { others }
        }
    }
}
