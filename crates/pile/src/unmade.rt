ghost use Rattle.std.specs.Prelude.{◌≡◌};
ghost use Rattle.pile.specs.declared.unmade.Unmade.TheVariants.{Memory};

use fault::PartFault;
use std::alloc::AllocError;

/// Why a pile was not made.
#[derive(Clone, Copy, Debug, PartialEq, Eq)]
pub enum Unmade {
    /// More than four pieces were named.
    TooMany,
    /// A piece, counted from 0, cannot be made of its numbers.
    Refused { piece: usize, fault: PartFault },
    /// More cells were given than the part has.
    TooLong,
    /// There was no memory for a piece's cells.
    Memory,
}

impl From<AllocError> for Unmade {
    ghost from_gives = { λ _ e. e ≡ Memory };

    fn from(_none: AllocError) -> Unmade {
        Unmade::Memory
    }
}
