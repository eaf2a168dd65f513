//! A day at the bench: what a technician does with one chip, by bus cycles and time alone, what is seen of it, one errand on three parts, and a
//! rehearsal on two consoles.
#![tactic(auto)]

mod errand;
mod record;
mod steps;
mod together;
mod watch;

use array::{Array, Layout};
use chip::{Chip, Setup};
use errand::Errand;
use geometry::BlockSet;
use joined::Joined;
use steps::Bench;
use tc58::driven;
use workbench::{BENCH_CHIP, Trouble};

// The bench chip with block 0 protected.
const SETUP: Setup = Setup {
    protected: BlockSet { mask: 0x001 },
    ..BENCH_CHIP
};

const LAYOUT: Layout = Layout {
    count: 4,
    width: 512,
};

// The same errand on an array, on a driven chip, and on a pile of both.
fn three_parts(rt: &HostRuntime) -> Result<(), Trouble> {
    println!(rt; "\nThe same errand on three parts.")?;
    Errand {
        rt,
        name: "An array",
        part: Array::blank(rt.alloc(), LAYOUT)?,
        at: 0,
        block: 1,
    }
    .run()?;
    Errand {
        rt,
        name: "A driven bench chip",
        part: driven(Chip::blank(rt.alloc(), SETUP)?),
        at: 0x400,
        block: 2,
    }
    .run()?;
    let first = Array::blank(rt.alloc(), LAYOUT)?;
    let second = driven(Chip::blank(rt.alloc(), SETUP)?);
    Errand {
        rt,
        name: "Both, end to end",
        part: Joined::new(first, second),
        at: 0,
        block: 5,
    }
    .run()
}

fn main(rt: HostRuntime) -> Result<(), Trouble> {
    let mut bench = Bench {
        rt: &rt,
        chip: Chip::blank(rt.alloc(), SETUP)?,
    };
    bench.describe()?;
    bench.identify()?;
    bench.find_guards()?;
    bench.store_record()?;
    bench.try_protected()?;
    bench.spoil_neighbour()?;
    bench.start_erase()?;
    bench.suspend()?;
    bench.read_record()?;
    bench.finish_erase()?;
    bench.read_record()?;
    bench.total()?;
    three_parts(&rt)?;
    together::run(&rt)
}
