ghost use Rattle.std.specs.Prelude.{◌≡◌};
ghost use Rattle.array.specs.declared.unmade.Unmade.TheVariants.{Refused, Memory};

use fault::PartFault;
use std::alloc::AllocError;

/// Why an array was not made.
#[derive(Clone, Copy, Debug, PartialEq, Eq)]
pub enum Unmade {
    /// It cannot be made of these numbers.
    Refused(PartFault),
    /// There was no memory for its cells.
    Memory,
}

impl From<PartFault> for Unmade {
    ghost from_gives = { λ f e. e ≡ Refused f };

    fn from(fault: PartFault) -> Unmade {
        Unmade::Refused(fault)
    }
}

impl From<AllocError> for Unmade {
    ghost from_gives = { λ _ e. e ≡ Memory };

    fn from(_none: AllocError) -> Unmade {
        Unmade::Memory
    }
}
