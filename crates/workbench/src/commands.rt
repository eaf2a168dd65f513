// The chip's command sequences, at the command addresses of its data sheet. A sequence ends at a write that is refused.
#![tactic(auto, unfolding(chip::specs::Writes::heard, chip::specs::Writes::written))]

ghost use Rattle.std.specs.Prelude.{◌≡◌};
ghost use Rattle.chip.specs.Flash.{view, commands};
ghost use Rattle.workbench.specs.Commands.{unlock, command, program, erase, all_heard, all_written};

use chip::Chip;
use fault::ChipFault;

// The two unlocking writes.
fn unlock(chip: &mut Chip) -> Result<(), ChipFault>
    ensures answer { let f = view chip.old in result ≡ all_heard f (unlock (commands f)) }
    ensures chip { let f = view chip.old in view chip.new ≡ all_written f (unlock (commands f)) }
{
    let commands = chip.sheet().commands;
    chip.write(commands.first, 0xAA)?;
    chip.write(commands.second, 0x55)
}

/// A command of three writes: 90h for ID mode, F0h for read mode.
pub fn command(chip: &mut Chip, byte: u8) -> Result<(), ChipFault>
    ensures answer { let f = view chip.old in result ≡ all_heard f (command (commands f) byte) }
    ensures chip { let f = view chip.old in view chip.new ≡ all_written f (command (commands f) byte) }
{
    unlock(chip)?;
    chip.write(chip.sheet().commands.first, byte)
}

/// The four writes that program a byte.
pub fn program(chip: &mut Chip, address: u32, byte: u8) -> Result<(), ChipFault>
    ensures answer { let f = view chip.old in result ≡ all_heard f (program (commands f) address byte) }
    ensures chip { let f = view chip.old in view chip.new ≡ all_written f (program (commands f) address byte) }
{
    command(chip, 0xA0)?;
    chip.write(address, byte)
}

/// The six writes that erase the block of an address.
pub fn erase(chip: &mut Chip, address: u32) -> Result<(), ChipFault>
    ensures answer { let f = view chip.old in result ≡ all_heard f (erase (commands f) address) }
    ensures chip { let f = view chip.old in view chip.new ≡ all_written f (erase (commands f) address) }
{
    command(chip, 0x80)?;
    unlock(chip)?;
    chip.write(address, 0x30)
}
