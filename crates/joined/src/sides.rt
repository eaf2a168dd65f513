// The two sides of a joined part.
ghost use Rattle.std.specs.Prelude.{◌≡◌};
ghost use Rattle.std.specs.Fn.{FnOnceReturnsAtMut};
ghost use Rattle.part.specs.Calls.{passed};
ghost use Rattle.part.specs.Neighbours.{elapsed};
ghost use Rattle.joined.specs.Pile.{either_stands, small, shapes_joinable, Room, placed};

use crate::joined::{MOST_BLOCKS, MOST_BYTES};
use fault::PartFault;
use part::{Part, Shape, Standing, catch_up};

/// Whether two parts of these shapes are small enough to be joined.
pub fn small_together(first: Shape, second: Shape) -> bool
    ensures { result ≡ small first second }
{
    u64::from(first.size) + u64::from(second.size) <= u64::from(MOST_BYTES)
        && u64::from(first.blocks) + u64::from(second.blocks) <= u64::from(MOST_BLOCKS)
}

// Whether two parts are small enough together, and have no erasure.
pub(crate) fn joinable(first: Shape, second: Shape) -> bool
    ensures { result ≡ shapes_joinable first second }
{
    small_together(first, second) && !first.standing.stands() && !second.standing.stands()
}

// The one erasure of both sides, by the numbers that the blocks have in the joined part.
pub(crate) fn either(first: Standing, second: Standing, blocks: u32) -> Standing
    requires { Room second blocks }
    ensures { result ≡ either_stands first second blocks }
{
    if first.stands() {
        first
    } else {
        raised(second, blocks)
    }
}

// The same standing, its block so many numbers higher.
fn raised(standing: Standing, blocks: u32) -> Standing
    requires { Room standing blocks }
    ensures { result ≡ either_stands Standing.Idle standing blocks }
{
    match standing {
        Standing::Idle => Standing::Idle,
        Standing::Running(block) => Standing::Running(blocks + block),
        Standing::Suspended(block) => Standing::Suspended(blocks + block),
    }
}

// The same answer, with the place that the caller gave.
pub(crate) fn placed<T>(res: Result<T, PartFault>, place: u32) -> Result<T, PartFault>
    ensures { result ≡ placed res place }
{
    res.map_err(|fault| PartFault { place, ..fault })
}

// Does something on one side, and lets the time that it takes pass on the other.
pub(crate) fn beside<P: Part, Q: Part, T, F: FnOnce(&mut P) -> T>(
    busy: &mut P,
    idle: &mut Q,
    act: F,
) -> T
    requires { F.IsAlwaysCallable act }
    ensures acted { FnOnceReturnsAtMut F.FnOnce act busy.old result busy.new }
    ensures waited { Q.Part.means idle.new ≡ passed (Q.Part.means idle.old) (elapsed (P.Part.means busy.old).clock (P.Part.means busy.new).clock) }
{
    let before = busy.clock();
    let answer = act(busy);
    catch_up(idle, busy, before);
    answer
}
