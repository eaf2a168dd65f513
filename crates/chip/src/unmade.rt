ghost use Rattle.std.specs.Prelude.{◌≡◌};
ghost use Rattle.chip.specs.declared.unmade.Unmade.TheVariants.{Refused, Memory};

use fault::ChipFault;
use std::alloc::AllocError;

/// Why a chip was not made.
#[derive(Clone, Copy, Debug, PartialEq, Eq)]
pub enum Unmade {
    /// Its numbers do not fit.
    Refused(ChipFault),
    /// There was no memory for its cells.
    Memory,
}

impl From<ChipFault> for Unmade {
    ghost from_gives = { λ f e. e ≡ Refused f };

    fn from(fault: ChipFault) -> Unmade {
        Unmade::Refused(fault)
    }
}

impl From<AllocError> for Unmade {
    ghost from_gives = { λ _ e. e ≡ Memory };

    fn from(_none: AllocError) -> Unmade {
        Unmade::Memory
    }
}
