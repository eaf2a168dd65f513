// Programming a byte, to its end.
ghost use Rattle.std.specs.Prelude.{◌≡◌, true};
ghost use Rattle.driver.specs.Rig.{inside};
ghost use Rattle.driver.specs.Steps.{Polls, Ends, Programs};

use crate::bus::Bus;
use crate::commands::command;
use crate::verdict::{Verdict, judge};
use flash::LONGEST_PROGRAM;

// One microsecond, then one read of an operation that is to leave `wanted` in the cell.
fn poll<B: Bus>(bus: &mut B, address: u32, wanted: u8) -> Verdict
    requires { inside (B.Bus.rig bus.old).sheet address ≡ true }
    ensures { Polls (B.Bus.rig bus.old) address wanted result (B.Bus.rig bus.new) }
{
    bus.pass(1).unwrap();
    judge(bus.read(address).unwrap(), wanted)
}

// Polls a chip that has begun to program a byte until it is done or has failed, and tells whether it is done. After a failure the chip is brought back to
// read mode.
fn finish<B: Bus>(bus: &mut B, address: u32, byte: u8) -> bool
    requires { inside (B.Bus.rig bus.old).sheet address ≡ true }
    ensures { Ends (B.Bus.rig bus.old) address byte result (B.Bus.rig bus.new) }
{
    for _turn in 0..LONGEST_PROGRAM {
        match poll(bus, address, byte) {
            Verdict::Busy => {}
            Verdict::Done => return true,
            Verdict::Failed => {
                bus.write(address, 0xF0).unwrap();
                return false;
            }
        }
    }
    false
}

// Programs a byte and tells whether it worked: it does not in a worn block. A `bool`, since it fails in one way alone, and the caller of the part is told
// its cause and place.
pub(crate) fn program<B: Bus>(bus: &mut B, address: u32, byte: u8) -> bool
    requires { inside (B.Bus.rig bus.old).sheet address ≡ true }
    ensures { Programs (B.Bus.rig bus.old) address byte result (B.Bus.rig bus.new) }
{
    let block = bus.block_at(address);
    command(bus, block, 0xA0);
    bus.write(address, byte).unwrap();
    finish(bus, address, byte)
}
