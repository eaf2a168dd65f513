ghost use Rattle.std.specs.Prelude.{◌≡◌, ◌*◌, ◌<◌, ◌≤◌, true, vec_len};
ghost use Rattle.array.specs.Limits.{most_blocks, least_width, most_width, in_blocks};

use geometry::Block;
use part::Standing;

/// How an array is laid out: equal blocks.
#[derive(Clone, Copy, Debug, PartialEq, Eq)]
pub struct Layout {
    /// How many blocks there are.
    pub count: u32,
    /// How many bytes each has.
    pub width: u32,
}

impl Layout {
    // One of the blocks.
    pub(crate) fn block(self, number: u32) -> Block
        requires few { number < self.count }
        requires small { self.count * self.width < 4294967296 }
        ensures { result ≡ record { start = number * self.width; size = self.width } }
    {
        Block {
            start: number * self.width,
            size: self.width,
        }
    }
}

/// Equal blocks in plain memory. A burn and an erasure take 1 microsecond, and a hold none.
// No `impl Model`: what an array means is `means` of the trait `Part`, and `lawful` is proved from the ghost fields.
#[derive(Drop)]
pub struct Array {
    pub(crate) cells: Vec<u8>,
    pub(crate) layout: Layout,
    pub(crate) standing: Standing,
    pub(crate) clock: u32,
    ghost whole: { vec_len cells ≡ layout.count * layout.width },
    ghost few: { layout.count ≤ most_blocks },
    ghost least: { least_width ≤ layout.width },
    ghost most: { layout.width ≤ most_width },
    ghost within: { in_blocks standing layout.count ≡ true },
    ghost counted: { clock < 4294967296 },
}
