// The bus of a chip of this family, and what its data sheet says.
ghost use Rattle.std.specs.Prelude.{◌≡◌};

use chip::Chip;
use driver::Bus;
use fault::ChipFault;
use geometry::Block;

/// A chip on its wires: cycles, time, and what its data sheet says. The reset pin is not among them.
#[derive(Drop)]
pub struct Wires {
    pub(crate) chip: Chip,
}

// One pair of command addresses serves all blocks, and all blocks are one zone.
impl Bus for Wires {
    ghost use Rattle.chip.specs.Flash.{view};
    ghost use Rattle.tc58.specs.Rigs.{rig_of};
    ghost use Rattle.tc58.specs.ProofOfSound;

    ghost rig = { λ s. rig_of (view s.chip) };

    fn write(&mut self, address: u32, byte: u8) -> Result<(), ChipFault> {
        self.chip.write(address, byte)
    }

    fn read(&mut self, address: u32) -> Result<u8, ChipFault> {
        self.chip.read(address)
    }

    fn pass(&mut self, n: u32) -> Result<(), ChipFault> {
        self.chip.pass(n)
    }

    fn clock(&self) -> u32 {
        self.chip.clock()
    }

    fn size(&self) -> u32 {
        self.chip.size()
    }

    fn count(&self) -> u32 {
        self.chip.blocks() as u32
    }

    fn block(&self, number: u32) -> Option<Block> {
        self.chip.block(number as usize)
    }

    fn block_at(&self, address: u32) -> u32 {
        self.chip.block_at(address) as u32
    }

    fn first(&self, _block: u32) -> u32 {
        self.chip.sheet().commands.first
    }

    fn second(&self, _block: u32) -> u32 {
        self.chip.sheet().commands.second
    }

    // In the block, with A1 alone of the address bits that choose.
    fn guard(&self, block: u32) -> u32 {
        let start = self.chip.block(block as usize).map_or(0, |at| at.start);
        start + (1 << self.chip.sheet().choice.middle)
    }

    ghost sound = { λ s. ProofOfSound.sound s.chip };
}
