//! Why reading stopped.

ghost use Rattle.lvm_text.specs.declared.stop.Stop.TheVariants.{Memory};
ghost use Rattle.std.specs.Prelude.{◌≡◌};

use rack::NoMemory;
use std::alloc::{AllocError, AllocFailed};

/// Why reading stopped.
#[derive(Debug, Drop)]
pub(crate) enum Stop {
    /// No text of the grammar goes on with what comes when this many bytes are left.
    Left(usize),
    /// No memory.
    Memory,
}

impl From<AllocError> for Stop {
    ghost from_gives = { λ _ e. e ≡ Memory };

    fn from(_error: AllocError) -> Stop {
        Stop::Memory
    }
}

impl<T: Drop> From<AllocFailed<T>> for Stop {
    ghost from_gives = { λ _ e. e ≡ Memory };

    fn from(_error: AllocFailed<T>) -> Stop {
        Stop::Memory
    }
}

impl From<NoMemory> for Stop {
    ghost from_gives = { λ _ e. e ≡ Memory };

    fn from(_error: NoMemory) -> Stop {
        Stop::Memory
    }
}
