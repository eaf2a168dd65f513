// The worked examples of a console on a chip.
ghost use Rattle.std.specs.Prelude.{◌≡◌};
ghost use Rattle.rehearsal.specs.Rows.{calls_of, quick_lines};
ghost use Rattle.rehearsal.specs.Bench.{Made, OnBench, Came};

use crate::account::Seats;
use crate::line::Line;
use crate::row::{Row, Side};
use crate::together::play;
use chip::{Chip, Setup, Unmade};
use console::Console;
use std::alloc::Global;
use tc58::{DrivenChip, driven};

/// A closed console on a chip under its driver, FFh throughout. Unfit numbers are refused before memory is asked for.
#[tactic(auto, using(crate::proofs::OnChip::on_bench), unfolding(chip::specs::Resets::after_reset))]
pub fn console_on_bench(heap: Global, setup: Setup) -> Result<Console<DrivenChip>, Unmade>
    ensures { Made setup (OnBench setup) result }
{
    let chip = Chip::blank(heap, setup)?;
    Ok(Console::new(driven(chip)))
}

/// Opens such a console on blocks 1 and 2, and makes the calls of the rows on it. Its lines go to the quick side of the rows.
pub fn play_on_bench(
    heap: Global,
    setup: Setup,
    rows: &mut [Row],
) -> Result<(Console<DrivenChip>, Line), Unmade>
    // The calls stay as the caller wrote them.
    ensures calls { calls_of rows.new ≡ calls_of rows.old }
    ensures came { Made setup (Came setup (calls_of rows.old) (quick_lines rows.new)) result }
{
    let mut console = console_on_bench(heap, setup)?;
    let books = Seats {
        first: 1,
        second: 2,
    };
    let opening = play(&mut console, books, rows, Side::Quick);
    Ok((console, opening))
}
