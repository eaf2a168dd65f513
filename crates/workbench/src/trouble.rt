ghost use Rattle.std.specs.Prelude.{◌≡◌};
ghost use Rattle.workbench.specs.declared.trouble.Trouble.TheVariants.{Chip, Part, Console, Memory, Output};
ghost use Rattle.workbench.specs.Troubles.{no_chip, no_array};

use fault::{ChipFault, ConsoleFault, PartFault};
use std::alloc::AllocError;
use std::io;

/// What can stop a program of the workbench.
#[derive(Debug, Drop)]
pub enum Trouble {
    /// The chip refused a call.
    Chip(ChipFault),
    /// A part refused a call.
    Part(PartFault),
    /// A console refused a call.
    Console(ConsoleFault),
    /// There was no memory.
    Memory,
    /// The output could not be written.
    Output(io::Error),
    /// The chip did not finish in the time that its data sheet allows.
    Late,
}

// By hand, since a derive writes none of the contracts that say which trouble `?` makes.

impl From<ChipFault> for Trouble {
    ghost from_gives = { λ f r. r ≡ Chip f };

    fn from(fault: ChipFault) -> Trouble {
        Trouble::Chip(fault)
    }
}

impl From<PartFault> for Trouble {
    ghost from_gives = { λ f r. r ≡ Part f };

    fn from(fault: PartFault) -> Trouble {
        Trouble::Part(fault)
    }
}

impl From<ConsoleFault> for Trouble {
    ghost from_gives = { λ f r. r ≡ Console f };

    fn from(fault: ConsoleFault) -> Trouble {
        Trouble::Console(fault)
    }
}

impl From<chip::Unmade> for Trouble {
    ghost from_gives = { λ e r. r ≡ no_chip e };

    fn from(unmade: chip::Unmade) -> Trouble {
        match unmade {
            chip::Unmade::Refused(fault) => Trouble::Chip(fault),
            chip::Unmade::Memory => Trouble::Memory,
        }
    }
}

impl From<array::Unmade> for Trouble {
    ghost from_gives = { λ e r. r ≡ no_array e };

    fn from(unmade: array::Unmade) -> Trouble {
        match unmade {
            array::Unmade::Refused(fault) => Trouble::Part(fault),
            array::Unmade::Memory => Trouble::Memory,
        }
    }
}

impl From<AllocError> for Trouble {
    ghost from_gives = { λ _ r. r ≡ Memory };

    fn from(_none: AllocError) -> Trouble {
        Trouble::Memory
    }
}

impl From<io::Error> for Trouble {
    ghost from_gives = { λ e r. r ≡ Output e };

    fn from(error: io::Error) -> Trouble {
        Trouble::Output(error)
    }
}
