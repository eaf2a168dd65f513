// A console's own refusals, and the position of a call in the fault of its part.
ghost use Rattle.std.specs.Prelude.{◌≡◌};
ghost use Rattle.console.specs.Faults.{no_place, placed};

use fault::{Cause, ConsoleFault, PartFault};

// A refusal of the console's own: it has no place.
pub(crate) fn refused(cause: Cause, position: u32) -> ConsoleFault
    ensures { result ≡ no_place cause position }
{
    ConsoleFault {
        cause,
        place: 0,
        position,
    }
}

// What the part answered, with the position of the call in its fault.
pub(crate) fn at<T>(res: Result<T, PartFault>, position: u32) -> Result<T, ConsoleFault>
    ensures { result ≡ placed position res }
{
    res.map_err(|fault| ConsoleFault {
        position,
        ..ConsoleFault::from(fault)
    })
}
