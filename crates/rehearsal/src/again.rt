ghost use Rattle.console.specs.Desks.{closed};
ghost use Rattle.console.specs.Opening.{Opens};
ghost use Rattle.rehearsal.specs.Promises.{SameAgain};

use crate::account::Seats;
use console::{Answer, Console};
use fault::ConsoleFault;
use part::Part;

/// A console made anew over the same part and opened again, as after the power was off.
#[tactic(auto, using(crate::proofs::Promised::same_again))]
pub fn reopen<P: Part + Drop>(
    console: Console<P>,
    on: Seats,
) -> (Console<P>, Result<Answer, ConsoleFault>)
    ensures again { Opens (closed console.part) on.first on.second result.1 result.0 }
    // It is the console that was, if quiet answered yes.
    ensures law { SameAgain }
{
    let mut anew = Console::new(console.into_part());
    let reply = anew.open(on.first, on.second);
    (anew, reply)
}
