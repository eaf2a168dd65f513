ghost use Rattle.std.specs.Prelude.{◌≡◌};
ghost use Rattle.part.specs.Calls.{answer};

use fault::{Cause, PartFault};

/// Grants a call for which there is no cause of refusal, or refuses it with the place that the caller gave. A cause is an `Option`, and no
/// `Result`, since the definitions of the calls go by it, both for the answer and for what is left afterwards.
pub fn granted(no: Option<Cause>, place: u32) -> Result<(), PartFault>
    ensures { result ≡ answer no place tt }
{
    no.map_or(Ok(()), |cause| Err(PartFault { cause, place }))
}
