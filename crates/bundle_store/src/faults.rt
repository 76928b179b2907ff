//! Why a container can't be read.

ghost use Rattle.std.specs.Prelude.{◌≡◌};
ghost use Rattle.bundle_store.specs.declared.faults.ContainerFault.TheVariants.{OutOfMemory};

use std::alloc::{AllocError, AllocFailed};

/// The bytes are no container. `At` has the place of the first bad entry, or 0 where the first eight
/// bytes are wrong.
#[derive(Clone, Copy, Debug, PartialEq, Eq)]
pub enum ContainerFault {
    At(u64),
    OutOfMemory,
}

impl From<AllocError> for ContainerFault {
    ghost from_gives = { λ _ e. e ≡ OutOfMemory };

    fn from(_e: AllocError) -> ContainerFault {
        ContainerFault::OutOfMemory
    }
}

impl<T: Drop> From<AllocFailed<T>> for ContainerFault {
    ghost from_gives = { λ _ e. e ≡ OutOfMemory };

    fn from(_e: AllocFailed<T>) -> ContainerFault {
        ContainerFault::OutOfMemory
    }
}
