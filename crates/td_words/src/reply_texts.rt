//! How refusals, values and replies are printed, and in tests the same.

use crate::refusals::Status;
use crate::replies::{Outcome, Reply, Value};
use std::fmt;

impl fmt::Display for Status {
    ghost use Rattle.std.specs.Prelude.{Some};
    ghost use Rattle.td_words.specs.ReplyText.{status_text};

    ghost output = { λ s. Some (status_text s) };

    fn fmt<W: fmt::Write>(&self, f: &mut fmt::Formatter<W>) -> fmt::Result {
        match self {
            Status::OperandInvalid(place) => write!(f, "OPERAND_INVALID {place}"),
            Status::OperandBusy(lock) => write!(f, "OPERAND_BUSY {lock}"),
            Status::PageMetadataIncorrect(page) => write!(f, "PAGE_METADATA_INCORRECT {page}"),
            Status::LifecycleStateIncorrect(life) => write!(f, "LIFECYCLE_STATE_INCORRECT {life}"),
            Status::OpStateIncorrect(op) => write!(f, "OP_STATE_INCORRECT {op}"),
            Status::HkidNotFree => write!(f, "HKID_NOT_FREE"),
            Status::EptWalkFailed(level) => write!(f, "EPT_WALK_FAILED {level}"),
            Status::EptEntryStateIncorrect(state) => write!(f, "EPT_ENTRY_STATE_INCORRECT {state}"),
            Status::TlbTrackingNotDone => write!(f, "TLB_TRACKING_NOT_DONE"),
            Status::PreviousTlbEpochBusy(count) => write!(f, "PREVIOUS_TLB_EPOCH_BUSY {count}"),
            Status::CounterLimit(counter) => write!(f, "COUNTER_LIMIT {counter}"),
            Status::VcpuAssociated(lp) => write!(f, "VCPU_ASSOCIATED {lp}"),
            Status::VcpuNotAssociated => write!(f, "VCPU_NOT_ASSOCIATED"),
            Status::VcpuStateIncorrect(state) => write!(f, "VCPU_STATE_INCORRECT {state}"),
            Status::PagesExist(count) => write!(f, "PAGES_EXIST {count}"),
            Status::FlushvpNotDone(count) => write!(f, "FLUSHVP_NOT_DONE {count}"),
            Status::SeptNotEmpty(index) => write!(f, "SEPT_NOT_EMPTY {index}"),
            Status::Limit(limit) => write!(f, "LIMIT {limit}"),
            Status::NoBundle(slot) => write!(f, "NO_BUNDLE {slot}"),
            Status::BundleHeader(field) => write!(f, "BUNDLE_HEADER {field}"),
            Status::BundleCounter { expected, got } => write!(f, "BUNDLE_COUNTER {expected} {got}"),
            Status::BundleTag => write!(f, "BUNDLE_TAG"),
            Status::DirtyPages(count) => write!(f, "DIRTY_PAGES {count}"),
            Status::TokenTotal { own, got } => write!(f, "TOKEN_TOTAL {own} {got}"),
            Status::ExportedThisEpoch => write!(f, "EXPORTED_THIS_EPOCH"),
            Status::NotHost => write!(f, "NOT_HOST"),
            Status::TdcxNumIncorrect(count) => write!(f, "TDCX_NUM_INCORRECT {count}"),
            Status::CacheWbNotDone => write!(f, "CACHE_WB_NOT_DONE"),
            Status::StateMissing(count) => write!(f, "STATE_MISSING {count}"),
            Status::NoStream(index) => write!(f, "NO_STREAM {index}"),
            Status::UnrestoredPages(count) => write!(f, "UNRESTORED_PAGES {count}"),
            Status::AlreadyExported => write!(f, "ALREADY_EXPORTED"),
        }
    }
}

/// Bytes as hexadecimal digits.
#[derive(Clone, Copy)]
struct Hexadecimal<'a>(&'a [u8]);

impl fmt::Display for Hexadecimal<'_> {
    ghost use Rattle.std.specs.Prelude.{Some};
    ghost use Rattle.td_words.specs.ReplyText.{digest_text};

    ghost output = { λ d. Some (digest_text d.0.now) };

    fn fmt<W: fmt::Write>(&self, f: &mut fmt::Formatter<W>) -> fmt::Result {
        for byte in self.0 {
            let high = *byte / 16;
            let low = *byte % 16;
            write!(f, "{high:x}{low:x}")?;
        }
        Ok(())
    }
}

impl fmt::Display for Value {
    ghost use Rattle.std.specs.Prelude.{Some};
    ghost use Rattle.td_words.specs.ReplyText.{value_text};

    ghost output = { λ v. Some (value_text v) };

    fn fmt<W: fmt::Write>(&self, f: &mut fmt::Formatter<W>) -> fmt::Result {
        match self {
            Value::Nothing => write!(f, "SUCCESS"),
            Value::Number(number) => write!(f, "SUCCESS {number}"),
            Value::Life(life) => write!(f, "SUCCESS {life}"),
            Value::Op(op) => write!(f, "SUCCESS {op}"),
            Value::Digest(bytes) => {
                let digits = Hexadecimal(bytes);
                write!(f, "SUCCESS {digits}")
            }
            Value::Page { kind, owner, epoch } => write!(f, "SUCCESS {kind} {owner} {epoch}"),
            Value::Entry { state, page: None } => write!(f, "SUCCESS {state}"),
            Value::Entry {
                state,
                page: Some(page),
            } => write!(f, "SUCCESS {state} {page}"),
            Value::Entered {
                stale: true,
                index,
                position,
                root,
            } => write!(f, "SUCCESS STALE {index} {position} {root}"),
            Value::Entered {
                stale: false,
                index,
                position,
                root,
            } => write!(f, "SUCCESS FRESH {index} {position} {root}"),
        }
    }
}

impl fmt::Display for Outcome {
    ghost use Rattle.std.specs.Prelude.{Some};
    ghost use Rattle.td_words.specs.ReplyText.{outcome_text};

    ghost output = { λ o. Some (outcome_text o) };

    fn fmt<W: fmt::Write>(&self, f: &mut fmt::Formatter<W>) -> fmt::Result {
        match self {
            Outcome::Stop => write!(f, "STOP"),
            Outcome::Max => write!(f, "MAX"),
            Outcome::Vmcall(word) => write!(f, "VMCALL {word}"),
            Outcome::EptViolation { gpa, access } => write!(f, "EPT_VIOLATION 0x{gpa:x} {access}"),
            Outcome::Busy(lock) => write!(f, "BUSY {lock}"),
        }
    }
}

impl fmt::Display for Reply {
    ghost use Rattle.std.specs.Prelude.{Some};
    ghost use Rattle.td_words.specs.ReplyText.{reply_text};

    ghost output = { λ r. Some (reply_text r) };

    fn fmt<W: fmt::Write>(&self, f: &mut fmt::Formatter<W>) -> fmt::Result {
        match self {
            Reply::Done(value) => write!(f, "{value}"),
            Reply::Refused(status) => write!(f, "{status}"),
            Reply::Exited(outcome) => write!(f, "EXIT {outcome}"),
        }
    }
}

impl fmt::Debug for Status {
    fn fmt<W: fmt::Write>(&self, f: &mut fmt::Formatter<W>) -> fmt::Result {
        write!(f, "{self}")
    }
}

impl fmt::Debug for Value {
    fn fmt<W: fmt::Write>(&self, f: &mut fmt::Formatter<W>) -> fmt::Result {
        write!(f, "{self}")
    }
}

impl fmt::Debug for Outcome {
    fn fmt<W: fmt::Write>(&self, f: &mut fmt::Formatter<W>) -> fmt::Result {
        write!(f, "{self}")
    }
}

impl fmt::Debug for Reply {
    fn fmt<W: fmt::Write>(&self, f: &mut fmt::Formatter<W>) -> fmt::Result {
        write!(f, "{self}")
    }
}
