// Whether two consoles answered alike, the microseconds aside.
ghost use Rattle.std.specs.Prelude.{◌≡◌, ◌↔◌, IsTrue};
ghost use Rattle.rehearsal.specs.Promises.{Same};

use console::{Answer, Said};
use fault::ConsoleFault;

fn same_fault(a: ConsoleFault, b: ConsoleFault) -> bool
    ensures { IsTrue result ↔ (a ≡ b) }
{
    a.cause == b.cause && a.place == b.place && a.position == b.position
}

fn same_said(a: Said, b: Said) -> bool
    ensures { IsTrue result ↔ (a ≡ b) }
{
    match (a, b) {
        (Said::Done, Said::Done) => true,
        (Said::Shows(x), Said::Shows(y)) => x == y,
        (Said::Finds(x), Said::Finds(y)) => x == y,
        _ => false,
    }
}

// Whether two calls were both accepted and said the same, or were both refused for one reason.
pub(crate) fn same_answer(a: Result<Answer, ConsoleFault>, b: Result<Answer, ConsoleFault>) -> bool
    ensures { IsTrue result ↔ Same a b }
{
    match (a, b) {
        (Ok(x), Ok(y)) => same_said(x.said, y.said),
        (Err(x), Err(y)) => same_fault(x, y),
        _ => false,
    }
}
