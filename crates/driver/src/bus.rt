ghost use Rattle.std.specs.Prelude.{◌≡◌, ℕ, length};
ghost use Rattle.part.specs.Calls.{block_at};
ghost use Rattle.geometry.specs.Blocks.{total, block_of};
ghost use Rattle.driver.specs.Rig.{Rig, meaning};
ghost use Rattle.driver.specs.Cycles.{Writes, Reads, Passes};
ghost use Rattle.driver.specs.Sound.{Sound};

use fault::ChipFault;
use geometry::Block;

/// The bus of a chip, and what a bus master knows of the chip from its data sheet. `rig` is the chip as its driver sees it.
pub trait Bus {
    ghost rig: { Self → Rig };

    /// A write cycle.
    fn write(&mut self, address: u32, byte: u8) -> Result<(), ChipFault>
        ensures { Writes (rig self.old) address byte result (rig self.new) };

    /// A read cycle.
    fn read(&mut self, address: u32) -> Result<u8, ChipFault>
        ensures { Reads (rig self.old) address result (rig self.new) };

    /// Lets n microseconds pass.
    fn pass(&mut self, n: u32) -> Result<(), ChipFault>
        ensures { Passes (rig self.old) n result (rig self.new) };

    /// The microseconds that have passed on the chip, modulo 4,294,967,296.
    fn clock(&self) -> u32
        ensures { result ≡ (rig self.now).clock };

    /// How many bytes the chip has.
    fn size(&self) -> u32
        ensures { result ≡ total (rig self.now).sheet.sizes };

    /// How many blocks the chip has.
    fn count(&self) -> u32
        ensures { result ≡ length (rig self.now).sheet.sizes };

    /// Where a block begins and how many bytes it has; none where there is no such block.
    fn block(&self, number: u32) -> Option<Block>
        ensures { result ≡ block_at (meaning (rig self.now)) number };

    /// The block that an address lies in; the number of blocks where the address is outside.
    fn block_at(&self, address: u32) -> u32
        ensures { result ≡ block_of (rig self.now).sheet.sizes address };

    /// The first of the two addresses at which the commands for a block are written.
    fn first(&self, block: u32) -> u32
        ensures { result ≡ (rig self.now).sheet.first block };

    /// The second one.
    fn second(&self, block: u32) -> u32
        ensures { result ≡ (rig self.now).sheet.second block };

    /// Where ID mode shows whether a block is guarded.
    fn guard(&self, block: u32) -> u32
        ensures { result ≡ (rig self.now).sheet.guard block };

    ghost sound: { (s : Self) → Sound (rig s) };
}
