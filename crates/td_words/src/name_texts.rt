//! How names are printed: each as it is written in the architecture, and in tests the same.

use crate::names::{
    Access, Counter, EntryState, HeaderField, HkidState, LifeState, LimitName, LockName, OpState,
    PageKind, ReadField, VcpuState,
};
use std::fmt;

impl fmt::Display for PageKind {
    ghost use Rattle.std.specs.Prelude.{Some};
    ghost use Rattle.td_words.specs.NameText.{kind_text};

    ghost output = { λ x. Some (kind_text x) };

    fn fmt<W: fmt::Write>(&self, f: &mut fmt::Formatter<W>) -> fmt::Result {
        let text = match self {
            PageKind::Nda => "PT_NDA",
            PageKind::Reg => "PT_REG",
            PageKind::Tdr => "PT_TDR",
            PageKind::Tdcx => "PT_TDCX",
            PageKind::Tdvpr => "PT_TDVPR",
            PageKind::Ept => "PT_EPT",
            PageKind::Migsc => "PT_MIGSC",
        };
        f.write_str(text)
    }
}

impl fmt::Display for LifeState {
    ghost use Rattle.std.specs.Prelude.{Some};
    ghost use Rattle.td_words.specs.NameText.{life_text};

    ghost output = { λ x. Some (life_text x) };

    fn fmt<W: fmt::Write>(&self, f: &mut fmt::Formatter<W>) -> fmt::Result {
        let text = match self {
            LifeState::HkidAssigned => "TD_HKID_ASSIGNED",
            LifeState::KeysConfigured => "TD_KEYS_CONFIGURED",
            LifeState::Blocked => "TD_BLOCKED",
            LifeState::Teardown => "TD_TEARDOWN",
        };
        f.write_str(text)
    }
}

impl fmt::Display for OpState {
    ghost use Rattle.std.specs.Prelude.{Some};
    ghost use Rattle.td_words.specs.NameText.{op_text};

    ghost output = { λ x. Some (op_text x) };

    fn fmt<W: fmt::Write>(&self, f: &mut fmt::Formatter<W>) -> fmt::Result {
        let text = match self {
            OpState::Uninitialized => "UNINITIALIZED",
            OpState::Initialized => "INITIALIZED",
            OpState::Runnable => "RUNNABLE",
            OpState::LiveExport => "LIVE_EXPORT",
            OpState::PausedExport => "PAUSED_EXPORT",
            OpState::PostExport => "POST_EXPORT",
            OpState::MemoryImport => "MEMORY_IMPORT",
            OpState::StateImport => "STATE_IMPORT",
            OpState::PostImport => "POST_IMPORT",
            OpState::LiveImport => "LIVE_IMPORT",
            OpState::FailedImport => "FAILED_IMPORT",
        };
        f.write_str(text)
    }
}

impl fmt::Display for EntryState {
    ghost use Rattle.std.specs.Prelude.{Some};
    ghost use Rattle.td_words.specs.NameText.{entry_text};

    ghost output = { λ x. Some (entry_text x) };

    fn fmt<W: fmt::Write>(&self, f: &mut fmt::Formatter<W>) -> fmt::Result {
        let text = match self {
            EntryState::Free => "FREE",
            EntryState::Mapped => "MAPPED",
            EntryState::Blocked => "BLOCKED",
            EntryState::Pending => "PENDING",
            EntryState::PendingBlocked => "PENDING_BLOCKED",
            EntryState::NlMapped => "NL_MAPPED",
            EntryState::NlBlocked => "NL_BLOCKED",
            EntryState::BlockedW => "BLOCKEDW",
            EntryState::ExportedBlockedW => "EXPORTED_BLOCKEDW",
            EntryState::ExportedDirty => "EXPORTED_DIRTY",
            EntryState::ExportedDirtyBlockedW => "EXPORTED_DIRTY_BLOCKEDW",
        };
        f.write_str(text)
    }
}

impl fmt::Display for VcpuState {
    ghost use Rattle.std.specs.Prelude.{Some};
    ghost use Rattle.td_words.specs.NameText.{vcpu_text};

    ghost output = { λ x. Some (vcpu_text x) };

    fn fmt<W: fmt::Write>(&self, f: &mut fmt::Formatter<W>) -> fmt::Result {
        let text = match self {
            VcpuState::Created => "CREATED",
            VcpuState::Ready => "READY",
        };
        f.write_str(text)
    }
}

impl fmt::Display for HkidState {
    ghost use Rattle.std.specs.Prelude.{Some};
    ghost use Rattle.td_words.specs.NameText.{hkid_text};

    ghost output = { λ x. Some (hkid_text x) };

    fn fmt<W: fmt::Write>(&self, f: &mut fmt::Formatter<W>) -> fmt::Result {
        let text = match self {
            HkidState::Free => "HKID_FREE",
            HkidState::Assigned => "HKID_ASSIGNED",
            HkidState::Flushed => "HKID_FLUSHED",
        };
        f.write_str(text)
    }
}

impl fmt::Display for Access {
    ghost use Rattle.std.specs.Prelude.{Some};
    ghost use Rattle.td_words.specs.NameText.{access_text};

    ghost output = { λ x. Some (access_text x) };

    fn fmt<W: fmt::Write>(&self, f: &mut fmt::Formatter<W>) -> fmt::Result {
        let text = match self {
            Access::Read => "READ",
            Access::Write => "WRITE",
        };
        f.write_str(text)
    }
}

impl fmt::Display for Counter {
    ghost use Rattle.std.specs.Prelude.{Some};
    ghost use Rattle.td_words.specs.NameText.{counter_text};

    ghost output = { λ x. Some (counter_text x) };

    fn fmt<W: fmt::Write>(&self, f: &mut fmt::Formatter<W>) -> fmt::Result {
        let text = match self {
            Counter::TdEpoch => "TD_EPOCH",
            Counter::MigEpoch => "MIG_EPOCH",
            Counter::Mb => "MB",
            Counter::Session => "SESSION",
        };
        f.write_str(text)
    }
}

impl fmt::Display for LimitName {
    ghost use Rattle.std.specs.Prelude.{Some};
    ghost use Rattle.td_words.specs.NameText.{limit_text};

    ghost output = { λ x. Some (limit_text x) };

    fn fmt<W: fmt::Write>(&self, f: &mut fmt::Formatter<W>) -> fmt::Result {
        let text = match self {
            LimitName::Vcpus => "VCPUS",
            LimitName::Streams => "STREAMS",
        };
        f.write_str(text)
    }
}

impl fmt::Display for HeaderField {
    ghost use Rattle.std.specs.Prelude.{Some};
    ghost use Rattle.td_words.specs.NameText.{field_text};

    ghost output = { λ x. Some (field_text x) };

    fn fmt<W: fmt::Write>(&self, f: &mut fmt::Formatter<W>) -> fmt::Result {
        let text = match self {
            HeaderField::Short => "SHORT",
            HeaderField::Size => "SIZE",
            HeaderField::Version => "VERSION",
            HeaderField::Kind => "TYPE",
            HeaderField::Reserved => "RESERVED",
            HeaderField::Value => "VALUE",
            HeaderField::Length => "LENGTH",
            HeaderField::Stream => "STREAM",
            HeaderField::Session => "SESSION",
            HeaderField::Epoch => "EPOCH",
            HeaderField::Index => "INDEX",
            HeaderField::Count => "COUNT",
        };
        f.write_str(text)
    }
}

impl fmt::Display for ReadField {
    ghost use Rattle.std.specs.Prelude.{Some};
    ghost use Rattle.td_words.specs.NameText.{read_text};

    ghost output = { λ x. Some (read_text x) };

    fn fmt<W: fmt::Write>(&self, f: &mut fmt::Formatter<W>) -> fmt::Result {
        let text = match self {
            ReadField::Life => "LIFE",
            ReadField::Op => "OP",
            ReadField::Epoch => "EPOCH",
            ReadField::Mrtd => "MRTD",
        };
        f.write_str(text)
    }
}

impl fmt::Display for LockName {
    ghost use Rattle.std.specs.Prelude.{Some};
    ghost use Rattle.td_words.specs.NameText.{lock_text};

    ghost output = { λ x. Some (lock_text x) };

    fn fmt<W: fmt::Write>(&self, f: &mut fmt::Formatter<W>) -> fmt::Result {
        match self {
            LockName::Page(page) => write!(f, "P {page}"),
            LockName::Op => write!(f, "O"),
            LockName::Tree => write!(f, "T"),
            LockName::Epoch => write!(f, "E"),
            LockName::Rtmr => write!(f, "R"),
            LockName::Keys => write!(f, "K"),
        }
    }
}

impl fmt::Debug for PageKind {
    fn fmt<W: fmt::Write>(&self, f: &mut fmt::Formatter<W>) -> fmt::Result {
        write!(f, "{self}")
    }
}

impl fmt::Debug for LifeState {
    fn fmt<W: fmt::Write>(&self, f: &mut fmt::Formatter<W>) -> fmt::Result {
        write!(f, "{self}")
    }
}

impl fmt::Debug for OpState {
    fn fmt<W: fmt::Write>(&self, f: &mut fmt::Formatter<W>) -> fmt::Result {
        write!(f, "{self}")
    }
}

impl fmt::Debug for EntryState {
    fn fmt<W: fmt::Write>(&self, f: &mut fmt::Formatter<W>) -> fmt::Result {
        write!(f, "{self}")
    }
}

impl fmt::Debug for VcpuState {
    fn fmt<W: fmt::Write>(&self, f: &mut fmt::Formatter<W>) -> fmt::Result {
        write!(f, "{self}")
    }
}

impl fmt::Debug for HkidState {
    fn fmt<W: fmt::Write>(&self, f: &mut fmt::Formatter<W>) -> fmt::Result {
        write!(f, "{self}")
    }
}

impl fmt::Debug for Access {
    fn fmt<W: fmt::Write>(&self, f: &mut fmt::Formatter<W>) -> fmt::Result {
        write!(f, "{self}")
    }
}

impl fmt::Debug for Counter {
    fn fmt<W: fmt::Write>(&self, f: &mut fmt::Formatter<W>) -> fmt::Result {
        write!(f, "{self}")
    }
}

impl fmt::Debug for LimitName {
    fn fmt<W: fmt::Write>(&self, f: &mut fmt::Formatter<W>) -> fmt::Result {
        write!(f, "{self}")
    }
}

impl fmt::Debug for HeaderField {
    fn fmt<W: fmt::Write>(&self, f: &mut fmt::Formatter<W>) -> fmt::Result {
        write!(f, "{self}")
    }
}

impl fmt::Debug for LockName {
    fn fmt<W: fmt::Write>(&self, f: &mut fmt::Formatter<W>) -> fmt::Result {
        write!(f, "{self}")
    }
}
