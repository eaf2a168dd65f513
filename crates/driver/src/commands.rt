// The command sequences, at the addresses of a block, and the guards, which are read in ID mode.
ghost use Rattle.std.specs.Prelude.{◌≡◌, ◌<◌, length, true};
ghost use Rattle.geometry.specs.Blocks.{start_of};
ghost use Rattle.driver.specs.Rig.{Rig, SameChip};
ghost use Rattle.driver.specs.Steps.{Unlocks, Commands, Asks, Collects};

use crate::bus::Bus;
use geometry::BlockSet;

// The two unlocking writes.
pub(crate) fn unlock<B: Bus>(bus: &mut B, block: u32)
    requires { block < length (B.Bus.rig bus.old).sheet.sizes }
    ensures { Unlocks (B.Bus.rig bus.old) (B.Bus.rig bus.new) }
{
    let first = bus.first(block);
    let second = bus.second(block);
    bus.write(first, 0xAA).unwrap();
    bus.write(second, 0x55).unwrap();
}

// The two unlocking writes, and a command.
pub(crate) fn command<B: Bus>(bus: &mut B, block: u32, byte: u8)
    requires { block < length (B.Bus.rig bus.old).sheet.sizes }
    ensures { Commands (B.Bus.rig bus.old) block byte (B.Bus.rig bus.new) }
{
    let first = bus.first(block);
    unlock(bus, block);
    bus.write(first, byte).unwrap();
}

// Whether a block is guarded, by ID mode, which is left again.
fn ask<B: Bus>(bus: &mut B, block: u32) -> bool
    requires { block < length (B.Bus.rig bus.old).sheet.sizes }
    ensures { Asks (B.Bus.rig bus.old) block result (B.Bus.rig bus.new) }
{
    let guard = bus.guard(block);
    command(bus, block, 0x90);
    let shown = bus.read(guard).unwrap();
    bus.write(guard, 0xF0).unwrap();
    shown == 1
}

// The guarded blocks.
pub(crate) fn collect<B: Bus>(bus: &mut B) -> BlockSet
    ensures { Collects (B.Bus.rig bus.old) result (B.Bus.rig bus.new) }
{
    let mut guards = BlockSet::NONE;
    for block in 0..bus.count() {
        if ask(bus, block) {
            guards = guards.union(BlockSet::only(block as usize));
        }
    }
    guards
}
