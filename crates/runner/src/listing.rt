// Whether a script is one open and then a list of calls.
ghost use Rattle.std.specs.Prelude.{◌≡◌, Ok};
ghost use Rattle.std.specs.Option.{option_map};
ghost use Rattle.script.specs.Scripts.{Gives};
ghost use Rattle.runner.specs.Listing.{rows_of, list_of};

use rehearsal::{Row, Seats};
use script::{Request, Step, Unread};
use std::alloc::Global;

// A row for each of some steps, if they are nothing but calls of the list.
#[tactic(auto, using(crate::proofs::Listed::at_first, crate::proofs::Listed::one_row, crate::proofs::Listed::no_open, crate::proofs::Listed::no_quiet, crate::proofs::Listed::no_anew, crate::proofs::Listed::all_rows))]
fn rows_of(heap: Global, steps: &[Step]) -> Result<Option<Vec<Row>>, Unread>
    ensures { Gives (option_map (λ rows. rows.items)) result (Ok (rows_of steps.now)) }
{
    let mut rows = Vec::new(heap);
    let mut rest = steps;
    while let Some((step, more)) = rest.split_first() {
        match step.request {
            Request::Call(call) => rows.push(Row::of(call))?,
            Request::Open(_, _) => return Ok(None),
            Request::Quiet => return Ok(None),
            Request::Anew => return Ok(None),
        }
        rest = more;
    }
    Ok(Some(rows))
}

/// The seats and the rows of a script that is one open and then a list of calls; none of any other.
#[tactic(auto, unfolding(crate::specs::Listing::list_of))]
pub fn list_of(heap: Global, steps: &[Step]) -> Result<Option<(Seats, Seats, Vec<Row>)>, Unread>
    ensures { Gives (option_map (λ x. (x.0, x.1, x.2.items))) result (Ok (list_of steps.now)) }
{
    let Some((first, rest)) = steps.split_first() else {
        return Ok(None);
    };
    match first.request {
        Request::Open(quick, slow) => match rows_of(heap, rest)? {
            Some(rows) => Ok(Some((quick, slow, rows))),
            None => Ok(None),
        },
        Request::Call(_) => Ok(None),
        Request::Quiet => Ok(None),
        Request::Anew => Ok(None),
    }
}
