// Worked examples of a console on the bench chip, whose books are blocks 1 and 2: what the calls leave in the cells.
ghost use Rattle.std.specs.Prelude.{[], ◌∷◌, IfOk};
ghost use Rattle.console.specs.declared.call.Call.TheVariants.{Set, Clear};
ghost use Rattle.rehearsal.specs.Rows.{calls_of};
ghost use Rattle.examples.specs.Told.{AsTold, Listed};

use book::Fetched;
use console::{Call, Console, Said};
use part::{Part, Standing, Turn};
use rehearsal::{Row, console_on_bench, play_on_bench};
use std::alloc::Global;
use tc58::DrivenChip;
use workbench::{BENCH_CHIP, Trouble};

// A console that is open on blank books.
fn opened(rt: &HostRuntime) -> Result<Console<DrivenChip>, Trouble> {
    let mut console = console_on_bench(rt.alloc(), BENCH_CHIP)?;
    console.open(1, 2)?;
    Ok(console)
}

// Stops at a call that was refused.
fn accepted(rows: &[Row]) -> Result<(), Trouble> {
    for row in rows {
        row.quick.reply?;
    }
    Ok(())
}

// The chip after the calls of an example, each accepted. Its cells are as the table of the examples says.
fn played(heap: Global, rows: &mut [Row]) -> Result<DrivenChip, Trouble>
    ensures { IfOk result (λ part. AsTold (calls_of rows.old) (⟦<DrivenChip as Part>⟧.means part)) }
{
    let (console, opening) = play_on_bench(heap, BENCH_CHIP, rows)?;
    opening.reply?;
    accepted(rows)?;
    Ok(console.into_part())
}

// The chip after the first example.
#[tactic(auto, using(crate::proofs::OnBenchChip::set_listed))]
fn after_set(heap: Global) -> Result<DrivenChip, Trouble>
    ensures { IfOk result (λ part. Listed (Set 3 1 ∷ []) (⟦<DrivenChip as Part>⟧.means part)) }
{
    let set = Call::Set {
        position: 3,
        stops: 1,
    };
    played(heap, &mut [Row::of(set)])
}

// The chip after the second.
#[tactic(auto, using(crate::proofs::OnBenchChip::clear_listed))]
fn after_clear(heap: Global) -> Result<DrivenChip, Trouble>
    ensures { IfOk result (λ part. Listed (Set 3 1 ∷ Clear 3 ∷ []) (⟦<DrivenChip as Part>⟧.means part)) }
{
    let set = Call::Set {
        position: 3,
        stops: 1,
    };
    let clear = Call::Clear { position: 3 };
    played(heap, &mut [Row::of(set), Row::of(clear)])
}

// Prints what the cells hold, and says whether it is what they should.
fn cells(rt: &HostRuntime, part: &mut DrivenChip, expected: &[(u32, u8)]) -> Result<(), Trouble> {
    let mut right = true;
    for (address, byte) in expected {
        let cell = part.peek(*address)?;
        right &= cell == *byte;
        print!(rt; " {address:03X}h {cell:02X}h")?;
    }
    let verdict = if right { "as it should be" } else { "WRONG" };
    println!(rt; ", {verdict}")?;
    Ok(())
}

// One set, and a clear after it.
pub fn set_and_clear(rt: &HostRuntime) -> Result<(), Trouble> {
    let mut part = after_set(rt.alloc())?;
    print!(rt; "set 3 to 1:")?;
    cells(
        rt,
        &mut part,
        &[(0x4C8, 0x00), (0x4CE, 0x00), (0x4CF, 0x01), (0x4C0, 0xFE)],
    )?;
    let mut part = after_clear(rt.alloc())?;
    print!(rt; "set 3 to 1, clear 3:")?;
    cells(
        rt,
        &mut part,
        &[(0x4C0, 0xFC), (0x4D0, 0xFF), (0x4D7, 0xFF)],
    )
}

// Eight sets at one position change the books, and the old one is being erased.
pub fn eight_sets(rt: &HostRuntime) -> Result<(), Trouble> {
    let mut console = opened(rt)?;
    for stops in 1..9u64 {
        console.set(3, stops)?;
    }
    let mut part = console.into_part();
    print!(rt; "eight sets at 3:")?;
    match part.shape().standing {
        Standing::Running(block) => print!(rt; " block {block} in erasure,")?,
        Standing::Suspended(block) => print!(rt; " block {block} suspended, WRONG,")?,
        Standing::Idle => print!(rt; " no erasure, WRONG,")?,
    }
    if part.hold() == Turn::Nothing {
        print!(rt; " not held, WRONG,")?;
    }
    cells(rt, &mut part, &[(0x600, 0x00), (0x6C0, 0xFE)])
}

// The last position and the most stops.
pub fn last_position(rt: &HostRuntime) -> Result<(), Trouble> {
    let mut console = opened(rt)?;
    console.set(7, 0x7FFF_FFFF_FFFF_FFFF)?;
    let mut fetched = Fetched::none();
    let verdict = match console.recall(7, &mut fetched)?.said {
        Said::Shows(Some(0x7FFF_FFFF_FFFF_FFFF)) => "as it should be",
        _ => "WRONG",
    };
    println!(rt; "position 7, 63 stops drawn: accepted, {verdict}")?;
    let verdict = match console.next(7, &mut fetched)?.said {
        Said::Finds(None) => "none, as it should be",
        _ => "WRONG",
    };
    println!(rt; "next 7: {verdict}")?;
    Ok(())
}
