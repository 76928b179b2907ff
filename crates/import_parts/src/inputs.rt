//! The bundle that a call takes.

ghost use Rattle.std.specs.Prelude.{◌≡◌, ◌==◌, ℕ, true, length, MatchResult};
ghost use Rattle.std.specs.List.{list_any};
ghost use Rattle.td_words.specs.declared.machines.Machine.{Machine};
ghost use Rattle.flat_core.specs.Opening.{clear_header};
ghost use Rattle.flat_core.specs.Inputs.{input_in, has_values, most_stream, most_index, most_info, most_gpa, fits_list, fits_version, no_header, has_no_fault, fault_shown};
ghost use Rattle.leaf_engine.specs.Inside.{StopIn};
ghost use Rattle.leaf_parts.specs.Parts.{Goes, Feeds, Uses};
ghost use Rattle.import_parts.specs.InputTrees.{input_tree, tag_tree, fits_type, has_numbers};

use incoming::Incoming;
use leaf_engine::{Stop, Told};
use td_words::{Header, HeaderField, Status};

/// There is a bundle in the slot, it has the form of one, and its type is one of these.
pub fn input_of(
    told: &Told,
    slot: u64,
    input: &Option<Incoming<'_>>,
    kinds: &[u8],
) -> Result<(), Stop>
    ensures goes { (n : ℕ) → Goes n (λ f. input_tree (input_in input.now) slot kinds.now (f tt)) told.now.left.now told.now.left.now result }
    ensures feeds { Feeds (λ f. input_tree (input_in input.now) slot kinds.now (f tt)) told.now.left.now told.now.left.now result }
    ensures uses { Uses 0 told.now.left.now told.now.left.now result }
    ensures inside { (m : Machine) → MatchResult result (λ u. Unit {0}) (λ e. StopIn m e) }
{
    told.check(is_there(input), Status::NoBundle(slot))?;
    let fault = fault_of(input);
    told.check(
        has_no_fault(fault),
        Status::BundleHeader(fault_shown(fault)),
    )?;
    let header = header_of(input);
    told.check(
        is_among(header.kind, kinds),
        Status::BundleHeader(HeaderField::Kind),
    )
}

/// Whether there is one.
fn is_there(input: &Option<Incoming<'_>>) -> bool
    ensures { result ≡ (input_in input.now).there }
{
    match input {
        Some(_) => true,
        None => false,
    }
}

/// Whether a type is one of these.
fn is_among(kind: u8, kinds: &[u8]) -> bool
    ensures { result ≡ list_any (λ k. k == kind) kinds.now }
{
    kinds.iter().any(|k| *k == kind)
}

/// Its tag is that of its bytes.
pub fn tag_holds(told: &Told, input: &Option<Incoming<'_>>) -> Result<(), Stop>
    ensures goes { (n : ℕ) → Goes n (λ f. tag_tree (input_in input.now) (f tt)) told.now.left.now told.now.left.now result }
    ensures feeds { Feeds (λ f. tag_tree (input_in input.now) (f tt)) told.now.left.now told.now.left.now result }
    ensures uses { Uses 0 told.now.left.now told.now.left.now result }
    ensures inside { (m : Machine) → MatchResult result (λ u. Unit {0}) (λ e. StopIn m e) }
{
    told.check(opens(input), Status::BundleTag)
}

/// Whether its tag is that of its bytes. A bundle that isn't there has none.
fn opens(input: &Option<Incoming<'_>>) -> bool
    ensures { result ≡ (input_in input.now).tag_right }
{
    match input {
        Some(bundle) => bundle.opens,
        None => false,
    }
}

/// The header of the bundle in a slot, and zeros where it has none.
pub fn header_of(input: &Option<Incoming<'_>>) -> Header
    ensures { clear_header result ≡ (input_in input.now).header }
{
    match input {
        Some(bundle) => match bundle.header {
            Ok(header) => *header,
            Err(_) => zeros(),
        },
        None => zeros(),
    }
}

/// A header of zeros.
fn zeros() -> Header
    ensures { clear_header result ≡ no_header }
{
    Header {
        size: 0,
        version: 0,
        stream: 0,
        kind: 0,
        reserved: 0,
        counter: 0,
        epoch: 0,
        iv: 0,
        session: 0,
        index: 0,
        info: 0,
        gpa: 0,
        total: 0,
        tag: [0; 16],
    }
}

/// The first fault of its form, if it has one.
fn fault_of(input: &Option<Incoming<'_>>) -> Option<HeaderField>
    ensures { result ≡ (input_in input.now).fault }
{
    match input {
        Some(bundle) => match bundle.header {
            Ok(header) => {
                if has_values(header) {
                    None
                } else {
                    Some(HeaderField::Value)
                }
            }
            Err(fault) => Some(*fault),
        },
        None => Some(HeaderField::Short),
    }
}

/// Whether there is no fault.
fn has_no_fault(fault: Option<HeaderField>) -> bool
    ensures { result ≡ has_no_fault fault }
{
    match fault {
        None => true,
        Some(_) => false,
    }
}

/// The fault, where there is one.
fn fault_shown(fault: Option<HeaderField>) -> HeaderField
    ensures { result ≡ fault_shown fault }
{
    match fault {
        None => HeaderField::Short,
        Some(fault) => fault,
    }
}

/// Whether a header's fields have values that its form allows.
fn has_values(header: &Header) -> bool
    ensures { result ≡ has_values (clear_header header.now) }
{
    fits_type(header) && has_numbers(header.counter, header.epoch, header.iv, header.session)
}

/// Whether those have that depend on the type.
fn fits_type(header: &Header) -> bool
    ensures { result ≡ fits_type (clear_header header.now) }
{
    header.stream <= most_stream(header.kind)
        && header.index <= most_index(header.kind)
        && fits_version(header)
        && header.gpa % 4096 == 0
}

/// Whether what it says besides, and its GPA, are those of a list of pages, or of another bundle.
fn fits_version(header: &Header) -> bool
    ensures { result ≡ fits_version (clear_header header.now) }
{
    if header.version == 2 && header.kind == 3 {
        fits_list(header.info, header.gpa)
    } else {
        header.info <= most_info(header.kind) && header.gpa <= most_gpa(header.kind)
    }
}

/// Whether there are so many pages from this GPA on.
fn fits_list(info: u32, gpa: u64) -> bool
    ensures { result ≡ fits_list info gpa }
{
    1 <= info && info <= 16 && gpa <= 0x8000_0000_0000 - 4096 * u64::from(info)
}

/// Whether the counter is the IV too, and the numbers have their bits: 32 an epoch, and 16 a session,
/// which isn't 0.
fn has_numbers(counter: u32, epoch: u32, iv: u64, session: u16) -> bool
    ensures { result ≡ has_numbers counter epoch iv session }
{
    iv == u64::from(counter) && epoch <= u32::MAX && 1 <= session
}

/// The most that the number of a stream may be, by the type.
fn most_stream(kind: u8) -> u16
    ensures { result ≡ most_stream kind }
{
    if kind == 3 { 3 } else { 0 }
}

/// The most that the index of a virtual processor may be.
fn most_index(kind: u8) -> u16
    ensures { result ≡ most_index kind }
{
    if kind == 2 { 7 } else { 0 }
}

/// The most that the field may be that says how many virtual processors there are, or where one of them
/// stands in its guest's list.
fn most_info(kind: u8) -> u32
    ensures { result ≡ most_info kind }
{
    match kind {
        0 => 8,
        2 => 256,
        _ => 0,
    }
}

/// The most that the GPA may be.
fn most_gpa(kind: u8) -> u64
    ensures { result ≡ most_gpa kind }
{
    if kind == 3 { 0x7fff_ffff_ffff } else { 0 }
}
