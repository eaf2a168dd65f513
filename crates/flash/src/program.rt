// Programming a byte.
ghost use Rattle.std.specs.Prelude.{◌≡◌};
ghost use Rattle.flash.specs.BlockMaps.{block_map};
ghost use Rattle.flash.specs.Programs.{burnt, program_time, program_fails, after_program};

use crate::block_map::BlockMap;
use crate::limits::{LONGEST_PROGRAM, PROTECTED_PROGRAM};
use fault::needs_erase;
use geometry::cell_at;

// The cell at an address becomes cell AND byte.
fn burn(cells: &mut [u8], address: u32, byte: u8)
    ensures { cells.new ≡ burnt cells.old address byte }
{
    let place = address as usize;
    if place < cells.len() {
        cells[place] &= byte;
    }
}

impl BlockMap {
    /// How long the chip is busy with a byte, where a byte that does not fail takes `each`.
    pub fn program_time(&self, each: u32, cells: &[u8], address: u32, byte: u8) -> u32
        ensures { result ≡ program_time (block_map self.now) each cells.now address byte }
    {
        let block = self.table.block_at(address);
        if self.protected.contains(block) {
            PROTECTED_PROGRAM
        } else if self.worn.contains(block) || needs_erase(cell_at(cells, address), byte) {
            LONGEST_PROGRAM
        } else {
            each
        }
    }

    /// Whether the program of a byte fails.
    pub fn program_fails(&self, cells: &[u8], address: u32, byte: u8) -> bool
        ensures { result ≡ program_fails (block_map self.now) cells.now address byte }
    {
        let block = self.table.block_at(address);
        !self.protected.contains(block)
            && (self.worn.contains(block) || needs_erase(cell_at(cells, address), byte))
    }

    /// Does to the cells what the program of a byte does, at its end and where a reset breaks it off.
    pub fn program(&self, cells: &mut [u8], address: u32, byte: u8)
        ensures { cells.new ≡ after_program (block_map self.now) cells.old address byte }
    {
        let block = self.table.block_at(address);
        if !self.protected.contains(block) && !self.worn.contains(block) {
            burn(cells, address, byte);
        }
    }
}
