// Suspending an erase, and going on with it: in the block that is erased. In a block that there is not, there is nothing to do.
ghost use Rattle.std.specs.Prelude.{◌≡◌, true};
ghost use Rattle.driver.specs.Rig.{inside};
ghost use Rattle.driver.specs.Steps.{LooksTwice, Settles, Suspends, Resumes};

use crate::bus::Bus;
use flash::LONGEST_SUSPENSION;

// One microsecond, then two reads: whether they agree in the toggle bit.
fn still<B: Bus>(bus: &mut B, address: u32) -> bool
    requires { inside (B.Bus.rig bus.old).sheet address ≡ true }
    ensures { LooksTwice (B.Bus.rig bus.old) address result (B.Bus.rig bus.new) }
{
    bus.pass(1).unwrap();
    let first = bus.read(address).unwrap();
    let second = bus.read(address).unwrap();
    first / 64 % 2 == second / 64 % 2
}

// Waits until the toggle bit stands still.
fn settle<B: Bus>(bus: &mut B, address: u32)
    requires { inside (B.Bus.rig bus.old).sheet address ≡ true }
    ensures { Settles (B.Bus.rig bus.old) address (B.Bus.rig bus.new) }
{
    for _turn in 0..LONGEST_SUSPENSION {
        if still(bus, address) {
            return;
        }
    }
}

// Suspends a running erase, and waits until the chip is suspended.
pub(crate) fn suspend<B: Bus>(bus: &mut B, block: u32)
    ensures { Suspends (B.Bus.rig bus.old) block (B.Bus.rig bus.new) }
{
    if let Some(place) = bus.block(block) {
        bus.write(place.start, 0xB0).unwrap();
        settle(bus, place.start);
    }
}

// Goes on with a suspended erase.
pub(crate) fn resume<B: Bus>(bus: &mut B, block: u32)
    ensures { Resumes (B.Bus.rig bus.old) block (B.Bus.rig bus.new) }
{
    if let Some(place) = bus.block(block) {
        bus.write(place.start, 0x30).unwrap();
    }
}
