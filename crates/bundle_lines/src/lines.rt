//! The lines of bundles.

ghost use Rattle.std.specs.Prelude.{◌≡◌, ◌++◌, OnOk, IfOk, map, string_bytes};
ghost use Rattle.std.specs.List.{concat};
ghost use Rattle.bundle_lines.specs.BundleLines.{kind_name, fields_text, read_text, slot_text, bundle_line};

use bundle_format::{BundleKind, read_bundle};
use std::alloc::{AllocError, Global};
use std::fmt::Write;
use td_words::{Header, HeaderField, OutOfMemory, SlotBundle};

fn kind_name(kind: Option<BundleKind>) -> &'static str
    ensures { result.now ≡ kind_name kind }
{
    match kind {
        Some(BundleKind::ImmutableState) => "immutable-state",
        Some(BundleKind::TdState) => "td-state",
        Some(BundleKind::VcpuState) => "vcpu-state",
        Some(BundleKind::Memory) => "memory",
        Some(BundleKind::EpochToken) => "epoch-token",
        Some(BundleKind::StartToken) => "start-token",
        Some(BundleKind::AbortToken) => "abort-token",
        None => "unknown",
    }
}

// The fields of a header that are numbers, in its order; size, version and byte 7 are the same in each.
fn push_fields(text: &mut String, header: &Header) -> Result<(), AllocError>
    ensures { OnOk result (string_bytes text.new ≡ string_bytes text.old ++ fields_text header.now) }
{
    let kind = kind_name(BundleKind::of(header.kind));
    let Header {
        stream,
        counter,
        epoch,
        iv,
        session,
        index,
        info,
        gpa,
        total,
        ..
    } = *header;
    write!(
        text,
        "{kind} stream {stream} counter {counter} epoch {epoch} iv {iv} session {session} index {index} info {info} gpa 0x{gpa:x} total {total}"
    )
}

// The fields of a bundle's header, or its first fault.
fn push_read(
    alloc: Global,
    text: &mut String,
    read: Result<Header, HeaderField>,
) -> Result<(), AllocError>
    ensures { OnOk result (string_bytes text.new ≡ string_bytes text.old ++ read_text read) }
{
    match read {
        Ok(header) => {
            let tag = hex::encode(alloc, header.tag)?;
            push_fields(text, &header)?;
            write!(text, " tag {tag}\n")
        }
        Err(fault) => write!(text, "fault {fault}\n"),
    }
}

fn push_slot(text: &mut String, bundle: &SlotBundle) -> Result<(), AllocError>
    ensures { OnOk result (string_bytes text.new ≡ string_bytes text.old ++ slot_text bundle.now) }
{
    let slot = bundle.slot;
    let bytes = bundle.bytes.len();
    write!(text, "slot {slot} bytes {bytes} ")
}

fn push_bundle(alloc: Global, text: &mut String, bundle: &SlotBundle) -> Result<(), AllocError>
    ensures { OnOk result (string_bytes text.new ≡ string_bytes text.old ++ bundle_line bundle.now) }
{
    push_slot(text, bundle)?;
    push_read(alloc, text, read_bundle(&bundle.bytes))
}

/// The lines of bundles, one each, in their order.
pub fn bundle_lines(alloc: Global, bundles: &[SlotBundle]) -> Result<Vec<u8>, OutOfMemory>
    ensures { IfOk result (λ lines. lines.items ≡ concat (map bundle_line bundles.now)) }
{
    let mut text = String::new(alloc);
    for i in 0..bundles.len() {
        let Ok(()) = push_bundle(alloc, &mut text, &bundles[i]) else {
            return Err(OutOfMemory);
        };
    }
    Ok(text.into_bytes())
}
