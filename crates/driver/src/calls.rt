// The driver's calls on the bus of a chip and its own notes. Each is whole: it refuses what is to be refused, and where the notes are tied to the chip it
// does what a part does, and leaves them tied. Whatever the chip and the notes are, the chip stays the same one. The type of a chip's family hands its calls
// on to these.
ghost use Rattle.std.specs.Prelude.{◌≡◌, OnOk, OnErr, true};
ghost use Rattle.driver.specs.Rig.{SameChip, resting, start, inside};
ghost use Rattle.driver.specs.Notes.{Tied};
ghost use Rattle.driver.specs.Calls.{Peeks, Burns, Begins, Holds, GoesOn, Waits, AtOnce, InsideOnly, BlocksOnly, LongestAtMost, to_hold, to_go_on};
ghost use Rattle.part.specs.declared.answers.Turn.TheVariants.{Nothing};
ghost use Rattle.driver.specs.Steps.{MayBurn};

use crate::bus::Bus;
use crate::commands::collect;
use crate::erase::{erase, look};
use crate::notes::Notes;
use crate::program::program;
use crate::suspend::{resume, suspend};
use crate::verdict::stands_after;
use fault::{Cause, PartFault};
use part::{Progress, Shape, Standing, Turn, granted};

/// Takes a chip in read mode: reads its guards in ID mode.
pub fn take<B: Bus>(bus: &mut B) -> Notes
    ensures chip { AtOnce (B.Bus.rig bus.old) (B.Bus.rig bus.new) }
    ensures same { (B.Bus.rig bus.old).doing ≡ resting None start → B.Bus.rig bus.new ≡ B.Bus.rig bus.old }
    ensures tied { (B.Bus.rig bus.old).doing ≡ resting None start → Tied (B.Bus.rig bus.new) result }
{
    Notes {
        guards: collect(bus),
        standing: Standing::Idle,
    }
}

/// Gives a cell: one read cycle.
pub fn peek<B: Bus>(bus: &mut B, notes: &Notes, address: u32) -> Result<u8, PartFault>
    ensures chip { AtOnce (B.Bus.rig bus.old) (B.Bus.rig bus.new) }
    ensures outside { InsideOnly (B.Bus.rig bus.old) address result (B.Bus.rig bus.new) }
    ensures call { Tied (B.Bus.rig bus.old) notes.now → Peeks (B.Bus.rig bus.old) address result (B.Bus.rig bus.new) }
    ensures tied { Tied (B.Bus.rig bus.old) notes.now → Tied (B.Bus.rig bus.new) notes.now }
{
    let seen = bus.read(address)?;
    if notes.standing.hides(bus.block_at(address)) {
        return Err(PartFault {
            cause: Cause::ErasureInTheWay,
            place: address,
        });
    }
    Ok(seen)
}

// Refuses a burn for every cause but a worn block, which shows only once the chip has failed.
fn may_burn<B: Bus>(bus: &mut B, notes: &Notes, address: u32, byte: u8) -> Result<(), PartFault>
    ensures chip { AtOnce (B.Bus.rig bus.old) (B.Bus.rig bus.new) }
    ensures outside { InsideOnly (B.Bus.rig bus.old) address result (B.Bus.rig bus.new) }
    ensures within { OnOk result (inside (B.Bus.rig bus.new).sheet address ≡ true) }
    ensures call { Tied (B.Bus.rig bus.old) notes.now → MayBurn (B.Bus.rig bus.old) address byte result (B.Bus.rig bus.new) }
    ensures tied { Tied (B.Bus.rig bus.old) notes.now → Tied (B.Bus.rig bus.new) notes.now }
{
    let old = bus.read(address)?;
    granted(notes.burn_why(bus.block_at(address), old, byte), address)
}

/// Burns a byte into a cell, and polls the chip until it is done or has failed.
pub fn burn<B: Bus>(bus: &mut B, notes: &Notes, address: u32, byte: u8) -> Result<(), PartFault>
    ensures chip { SameChip (B.Bus.rig bus.old) (B.Bus.rig bus.new) }
    ensures outside { InsideOnly (B.Bus.rig bus.old) address result (B.Bus.rig bus.new) }
    ensures call { Tied (B.Bus.rig bus.old) notes.now → Burns (B.Bus.rig bus.old) address byte result (B.Bus.rig bus.new) }
    ensures tied { Tied (B.Bus.rig bus.old) notes.now → Tied (B.Bus.rig bus.new) notes.now }
{
    may_burn(bus, notes, address, byte)?;
    if program(bus, address, byte) {
        Ok(())
    } else {
        Err(PartFault {
            cause: Cause::Worn,
            place: address,
        })
    }
}

/// Begins the erasure of a block.
pub fn begin<B: Bus>(bus: &mut B, notes: &mut Notes, block: u32) -> Result<(), PartFault>
    ensures chip { AtOnce (B.Bus.rig bus.old) (B.Bus.rig bus.new) }
    ensures outside { BlocksOnly (B.Bus.rig bus.old) block result (B.Bus.rig bus.new) }
    ensures refused { OnErr result (notes.new ≡ notes.old) }
    ensures guards { notes.new.guards ≡ notes.old.guards }
    ensures call { Tied (B.Bus.rig bus.old) notes.old → Begins (B.Bus.rig bus.old) block result (B.Bus.rig bus.new) }
    ensures tied { Tied (B.Bus.rig bus.old) notes.old → Tied (B.Bus.rig bus.new) notes.new }
{
    let shape = Shape {
        size: bus.size(),
        blocks: bus.count(),
        standing: notes.standing,
    };
    granted(shape.begin_no(block, notes.guards(block)), block)?;
    erase(bus, block);
    notes.standing = Standing::Running(block);
    Ok(())
}

/// Holds a running erasure, and waits until the chip is suspended.
pub fn hold<B: Bus>(bus: &mut B, notes: &mut Notes) -> Turn
    ensures chip { SameChip (B.Bus.rig bus.old) (B.Bus.rig bus.new) }
    ensures turn { result ≡ to_hold notes.old.standing }
    ensures nothing { result ≡ Nothing → (B.Bus.rig bus.new ≡ B.Bus.rig bus.old) × (notes.new ≡ notes.old) }
    ensures guards { notes.new.guards ≡ notes.old.guards }
    ensures call { Tied (B.Bus.rig bus.old) notes.old → Holds (B.Bus.rig bus.old) result (B.Bus.rig bus.new) }
    ensures tied { Tied (B.Bus.rig bus.old) notes.old → Tied (B.Bus.rig bus.new) notes.new }
{
    match notes.standing {
        Standing::Running(block) => {
            suspend(bus, block);
            notes.standing = Standing::Suspended(block);
            Turn::Done
        }
        _ => Turn::Nothing,
    }
}

/// Lets a held erasure go on.
pub fn go_on<B: Bus>(bus: &mut B, notes: &mut Notes) -> Turn
    ensures chip { AtOnce (B.Bus.rig bus.old) (B.Bus.rig bus.new) }
    ensures turn { result ≡ to_go_on notes.old.standing }
    ensures nothing { result ≡ Nothing → (B.Bus.rig bus.new ≡ B.Bus.rig bus.old) × (notes.new ≡ notes.old) }
    ensures guards { notes.new.guards ≡ notes.old.guards }
    ensures call { Tied (B.Bus.rig bus.old) notes.old → GoesOn (B.Bus.rig bus.old) result (B.Bus.rig bus.new) }
    ensures tied { Tied (B.Bus.rig bus.old) notes.old → Tied (B.Bus.rig bus.new) notes.new }
{
    match notes.standing {
        Standing::Suspended(block) => {
            resume(bus, block);
            notes.standing = Standing::Running(block);
            Turn::Done
        }
        _ => Turn::Nothing,
    }
}

/// Lets n microseconds pass. Where an erasure runs, one read tells what became of it.
pub fn pass<B: Bus>(bus: &mut B, notes: &mut Notes, n: u32) -> Result<Progress, PartFault>
    ensures chip { SameChip (B.Bus.rig bus.old) (B.Bus.rig bus.new) }
    ensures long { LongestAtMost (B.Bus.rig bus.old) n result (B.Bus.rig bus.new) }
    ensures refused { OnErr result (notes.new ≡ notes.old) }
    ensures guards { notes.new.guards ≡ notes.old.guards }
    ensures call { Tied (B.Bus.rig bus.old) notes.old → Waits (B.Bus.rig bus.old) n result (B.Bus.rig bus.new) }
    ensures tied { Tied (B.Bus.rig bus.old) notes.old → Tied (B.Bus.rig bus.new) notes.new }
{
    bus.pass(n)?;
    match notes.standing {
        Standing::Idle => Ok(Progress::Idle),
        Standing::Suspended(_) => Ok(Progress::Suspended),
        Standing::Running(block) => {
            let verdict = look(bus, block);
            notes.standing = stands_after(block, verdict);
            Ok(verdict.into())
        }
    }
}
