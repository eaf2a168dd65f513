ghost use Rattle.std.specs.Prelude.{◌≡◌};
ghost use Rattle.rehearsal.specs.Rows.{calls_of, lines_of, quick_lines, slow_lines, other};
ghost use Rattle.rehearsal.specs.Accounts.{run, Performed};
ghost use Rattle.rehearsal.specs.Promises.{Promise};
ghost use Rattle.rehearsal.specs.Examples.{WorkedExamples};

use crate::account::{Openings, Seats};
use crate::line::{Act, Line};
use crate::row::{Row, Side};
use console::Console;
use part::Part;

/// Opens a console and makes the calls of the rows on it, also where the opening is refused. Its lines go to one side of the rows.
pub(crate) fn play<P: Part + Drop>(
    console: &mut Console<P>,
    on: Seats,
    rows: &mut [Row],
    side: Side,
) -> Line
    ensures account { Performed (calls_of rows.old) (run console.old on result (lines_of side rows.new) console.new) }
    ensures calls { calls_of rows.new ≡ calls_of rows.old }
    ensures beside { lines_of (other side) rows.new ≡ lines_of (other side) rows.old }
{
    let opening = Act::Open(on).play(console);
    for row in rows.iter_mut() {
        let line = Act::Call(row.call).play(console);
        *row = row.with(side, line);
    }
    opening
}

/// Opens two consoles, makes the calls of the rows on each, and writes both accounts into the rows.
#[tactic(auto, using(crate::proofs::Worked::worked_examples))]
pub fn rehearse<P: Part + Drop, Q: Part + Drop>(
    quick: &mut Console<P>,
    slow: &mut Console<Q>,
    quick_on: Seats,
    slow_on: Seats,
    rows: &mut [Row],
) -> Openings
    // The calls stay as the caller wrote them.
    ensures calls { calls_of rows.new ≡ calls_of rows.old }
    ensures quick_account { Performed (calls_of rows.old) (run quick.old quick_on result.quick (quick_lines rows.new) quick.new) }
    ensures slow_account { Performed (calls_of rows.old) (run slow.old slow_on result.slow (slow_lines rows.new) slow.new) }
    // What an organist is promised.
    ensures promise { Promise (calls_of rows.old)
        (run quick.old quick_on result.quick (quick_lines rows.new) quick.new)
        (run slow.old slow_on result.slow (slow_lines rows.new) slow.new) }
    ensures examples { WorkedExamples }
{
    Openings {
        quick: play(quick, quick_on, rows, Side::Quick),
        slow: play(slow, slow_on, rows, Side::Slow),
    }
}
