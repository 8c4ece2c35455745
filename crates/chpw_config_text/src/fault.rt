//! Why a configuration isn't written.
use std::alloc::{AllocError, AllocFailed};
use thiserror::Error;

/// Why a configuration isn't written.
#[derive(Clone, Copy, Debug, Drop, Error)]
pub enum WriteFault {
    /// The realm or a component of a name isn't UTF-8, a component has a `/`, or a rule's target is
    /// the name `*`, which stands for everyone in a file.
    #[error("the configuration can't be written")]
    Unwritable,
    /// Memory ran out.
    #[error("memory")]
    Memory,
}

impl From<AllocError> for WriteFault {
    ghost use Rattle.std.specs.Prelude.{◌≡◌};
    ghost use Rattle.chpw_config_text.specs.declared.fault.WriteFault.TheVariants.{Memory};

    ghost from_gives = { λ _ fault. fault ≡ Memory };

    fn from(_refused: AllocError) -> WriteFault {
        WriteFault::Memory
    }
}

impl<T: Drop> From<AllocFailed<T>> for WriteFault {
    ghost use Rattle.std.specs.Prelude.{◌≡◌};
    ghost use Rattle.chpw_config_text.specs.declared.fault.WriteFault.TheVariants.{Memory};

    ghost from_gives = { λ _ fault. fault ≡ Memory };

    fn from(_refused: AllocFailed<T>) -> WriteFault {
        WriteFault::Memory
    }
}
