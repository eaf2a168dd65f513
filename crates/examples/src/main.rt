//! The worked examples of the command machine and of the console, run through the code and compared with what they should give.
#![tactic(auto)]

mod books;
mod cycle;
mod table;

use chip::Chip;
use cycle::Cycle;
use table::{EXAMPLES, Example};
use workbench::{BENCH_CHIP, Trouble};

// Runs an example on a fresh chip, prints the bytes that are read, and says whether they are the expected ones.
fn run(rt: &HostRuntime, example: &Example) -> Result<(), Trouble> {
    let mut chip = Chip::blank(rt.alloc(), BENCH_CHIP)?;
    let mut right = true;
    print!(rt; "{}:", example.name)?;
    for &cycle in example.cycles {
        match cycle {
            Cycle::Write(address, byte) => chip.write(address, byte)?,
            Cycle::Program(address, byte) => workbench::program(&mut chip, address, byte)?,
            Cycle::Erase(address) => workbench::erase(&mut chip, address)?,
            Cycle::Wait(n) => chip.pass(n)?,
            Cycle::Read(address, expected) => {
                let byte = chip.read(address)?;
                right &= byte == expected;
                print!(rt; " {byte:02X}h")?;
            }
        }
    }
    let verdict = if right { "as it should be" } else { "WRONG" };
    println!(rt; ", {verdict}")?;
    Ok(())
}

fn main(rt: HostRuntime) -> Result<(), Trouble> {
    for example in EXAMPLES {
        run(&rt, example)?;
    }
    books::set_and_clear(&rt)?;
    books::eight_sets(&rt)?;
    books::last_position(&rt)
}
