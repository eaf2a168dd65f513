// Beginning an erase, and looking whether it has ended.
ghost use Rattle.std.specs.Prelude.{◌≡◌, ◌<◌, true, length};
ghost use Rattle.driver.specs.Rig.{inside};
ghost use Rattle.driver.specs.Steps.{Erases, Mends, Looks};

use crate::bus::Bus;
use crate::commands::{command, unlock};
use crate::verdict::{Verdict, judge};

// Begins the erase of a block.
pub(crate) fn erase<B: Bus>(bus: &mut B, block: u32)
    requires { block < length (B.Bus.rig bus.old).sheet.sizes }
    ensures { Erases (B.Bus.rig bus.old) block (B.Bus.rig bus.new) }
{
    let start = bus.block(block).unwrap().start;
    command(bus, block, 0x80);
    unlock(bus, block);
    bus.write(start, 0x30).unwrap();
}

// Brings a failed chip back to read mode.
fn mend<B: Bus>(bus: &mut B, address: u32, verdict: Verdict)
    requires { inside (B.Bus.rig bus.old).sheet address ≡ true }
    ensures { Mends (B.Bus.rig bus.old) address verdict (B.Bus.rig bus.new) }
{
    if verdict == Verdict::Failed {
        bus.write(address, 0xF0).unwrap();
    }
}

// One read of a chip that was erasing a block. After a failure the chip is brought back to read mode. In a block that there is not, nothing is left to do.
pub(crate) fn look<B: Bus>(bus: &mut B, block: u32) -> Verdict
    ensures { Looks (B.Bus.rig bus.old) block result (B.Bus.rig bus.new) }
{
    let Some(place) = bus.block(block) else {
        return Verdict::Done;
    };
    let verdict = judge(bus.read(place.start).unwrap(), 0xFF);
    mend(bus, place.start, verdict);
    verdict
}
