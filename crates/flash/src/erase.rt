// Erasing blocks.
ghost use Rattle.std.specs.Prelude.{◌≡◌, min};
ghost use Rattle.flash.specs.Limits.{longest_erase};
ghost use Rattle.flash.specs.BlockMaps.{block_map};
ghost use Rattle.flash.specs.Erases.{erasable, spoils, erase_time, after_erase, after_broken_erase};

use crate::block_map::BlockMap;
use crate::limits::{LONGEST_ERASE, PROTECTED_ERASE};
use geometry::BlockSet;

/// What an erase leaves in a cell.
pub const ERASED: u8 = 0xFF;

impl BlockMap {
    /// The selected blocks that an erase works on: those that are not protected.
    pub fn erasable(&self, selected: BlockSet) -> BlockSet
        ensures { result ≡ erasable (block_map self.now) selected }
    {
        selected.without(self.protected)
    }

    /// Whether one of the blocks that an erase works on is worn, so that the erase fails.
    pub fn spoils(&self, selected: BlockSet) -> bool
        ensures { result ≡ spoils (block_map self.now) selected }
    {
        self.erasable(selected).meets(self.worn)
    }

    /// How long the erasing lasts, where a block takes `each`; a larger time than the longest counts as the longest.
    pub fn erase_time(&self, each: u32, selected: BlockSet) -> u32
        ensures { result ≡ erase_time (block_map self.now) (min each longest_erase) selected }
    {
        let count = self.erasable(selected).count();
        let each = if self.spoils(selected) {
            LONGEST_ERASE
        } else {
            each.min(LONGEST_ERASE)
        };
        if count == 0 {
            PROTECTED_ERASE
        } else {
            count * each
        }
    }

    /// Does to the cells what an erase has done at its end.
    pub fn erase(&self, cells: &mut [u8], selected: BlockSet)
        ensures { cells.new ≡ after_erase (block_map self.now) selected cells.old }
    {
        if !self.spoils(selected) {
            self.table.fill(cells, self.erasable(selected), ERASED);
        }
    }

    /// Does to the cells what a reset does that breaks an erasing off.
    pub fn break_erase(&self, cells: &mut [u8], selected: BlockSet)
        ensures { cells.new ≡ after_broken_erase (block_map self.now) selected cells.old }
    {
        let sound = self.erasable(selected).without(self.worn);
        self.table.fill(cells, sound, 0x00);
    }
}
