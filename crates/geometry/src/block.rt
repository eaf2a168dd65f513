// One block of a chip.
ghost use Rattle.std.specs.Prelude.{◌≡◌, ℕ, ◌+◌, ◌<◌, ◌&&◌, length, if◌then◌else◌, nat_le, nat_lt, slice_index};
ghost use Rattle.geometry.specs.Plans.{holds};

/// A block: where it begins, and how many bytes it has.
#[derive(Clone, Copy, Debug, PartialEq, Eq)]
pub struct Block {
    pub start: u32,
    pub size: u32,
}

impl Block {
    /// Whether an address lies in the block.
    pub fn contains(self, address: u32) -> bool
        ensures { result ≡ holds address self }
    {
        address >= self.start && address - self.start < self.size
    }

    /// Sets the block's cells to `byte`, as far as there are cells.
    #[tactic(auto, using(crate::proofs::Filling::stretch_set, std::proofs::lemmas::Grind::common_steps))]
    pub fn fill(self, cells: &mut [u8], byte: u8)
        ensures { (k : ℕ) → k < length cells.old → slice_index cells.new k ≡ (if nat_le self.start k && nat_lt k (self.start + self.size) then byte else slice_index cells.old k) }
    {
        let start = (self.start as usize).min(cells.len());
        let end = (start + self.size as usize).min(cells.len());
        cells[start..end].fill(byte);
    }
}
