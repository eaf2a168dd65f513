// The chips: for each what its data sheet says, with the table of its blocks. The definitions in specs/ are built from these very constants.
ghost use Rattle.std.specs.Prelude.{◌≡◌, ℕ, ◌≤◌, length};
ghost use Rattle.geometry.specs.Plans.{Plan, top, bottom, bench, dead, sheet_of, IsTable, Contiguous};
ghost use Rattle.geometry.specs.Sets.{largest_set};
ghost use Rattle.std.proofs.Common.{rules};

use crate::block::Block;
use crate::datasheet::{Choice, Commands, Sheet};

/// What a geometry brings: its size, its device code, what else its data sheet says, and its blocks. `plan` gives them in the words of the
/// documents; the facts at the end tie the constants to it, so that code generic over a geometry knows what it is given. Each impl proves them
/// itself: a macro may write no impl.
pub trait Geometry {
    /// How many bytes the chip has.
    const SIZE: u32;

    ghost SIZE: { ℕ };

    /// The device code that the chip gives in ID mode.
    const CODE: u8;

    ghost CODE: { ℕ };

    /// How many blocks the chip has. A constant beside the table, so that it can stand where a constant is wanted.
    const BLOCKS: usize;

    ghost BLOCKS: { ℕ };

    ghost plan: { Plan };

    /// What the data sheet says beside the blocks.
    fn sheet() -> Sheet
        ensures { result ≡ sheet_of plan };

    /// The blocks, one after the other.
    fn table() -> &'static [Block]
        ensures { IsTable plan result.now };

    ghost size_is: { SIZE ≡ plan.size };

    ghost code_is: { CODE ≡ plan.code };

    ghost count_is: { BLOCKS ≡ length plan.sizes };

    // Blocks follow one another from 0 without gap or overlap and end at the size.
    ghost contiguous: { Contiguous plan };

    // A set of blocks has room for all of them.
    ghost few: { length plan.sizes ≤ largest_set };
}

// What the three chips share: the maker, where they take commands, and how an address chooses in ID mode.
const TOSHIBA: u8 = 0x98;

const COMMANDS: Commands = Commands {
    first: 0x5555,
    second: 0x2AAA,
    bits: 15,
};

const CHOICE: Choice = Choice {
    low: 0,
    middle: 1,
    high: 6,
};

// A table of blocks, each by its start and its size.
macro_rules! blocks {
    ($($start:literal => $size:literal),* $(,)?) => {
        [$(Block { start: $start, size: $size }),*]
    };
}

/// TC58FVT004: the small blocks lie at the top.
pub struct Top;

const TOP_SHEET: Sheet = Sheet {
    size: 524288,
    maker: TOSHIBA,
    code: 0x3B,
    commands: COMMANDS,
    choice: CHOICE,
};

const TOP_BLOCKS: [Block; 11] = blocks![
    0 => 65536,
    65536 => 65536,
    131072 => 65536,
    196608 => 65536,
    262144 => 65536,
    327680 => 65536,
    393216 => 65536,
    458752 => 32768,
    491520 => 8192,
    499712 => 8192,
    507904 => 16384,
];

impl Geometry for Top {
    const SIZE: u32 = TOP_SHEET.size;

    ghost SIZE = { top.size };

    const CODE: u8 = TOP_SHEET.code;

    ghost CODE = { top.code };

    const BLOCKS: usize = TOP_BLOCKS.len();

    ghost BLOCKS = { length top.sizes };

    ghost plan = { top };

    fn sheet() -> Sheet {
        TOP_SHEET
    }

    fn table() -> &'static [Block] {
        &TOP_BLOCKS
    }

    ghost size_is = { Prim.search rules };

    ghost code_is = { Prim.search rules };

    ghost count_is = { Prim.search rules };

    ghost contiguous = { Prim.search rules };

    ghost few = { Prim.search rules };
}

/// TC58FVB004: the small blocks lie at the bottom.
pub struct Bottom;

const BOTTOM_SHEET: Sheet = Sheet {
    size: 524288,
    maker: TOSHIBA,
    code: 0xBA,
    commands: COMMANDS,
    choice: CHOICE,
};

const BOTTOM_BLOCKS: [Block; 11] = blocks![
    0 => 16384,
    16384 => 8192,
    24576 => 8192,
    32768 => 32768,
    65536 => 65536,
    131072 => 65536,
    196608 => 65536,
    262144 => 65536,
    327680 => 65536,
    393216 => 65536,
    458752 => 65536,
];

impl Geometry for Bottom {
    const SIZE: u32 = BOTTOM_SHEET.size;

    ghost SIZE = { bottom.size };

    const CODE: u8 = BOTTOM_SHEET.code;

    ghost CODE = { bottom.code };

    const BLOCKS: usize = BOTTOM_BLOCKS.len();

    ghost BLOCKS = { length bottom.sizes };

    ghost plan = { bottom };

    fn sheet() -> Sheet {
        BOTTOM_SHEET
    }

    fn table() -> &'static [Block] {
        &BOTTOM_BLOCKS
    }

    ghost size_is = { Prim.search rules };

    ghost code_is = { Prim.search rules };

    ghost count_is = { Prim.search rules };

    ghost contiguous = { Prim.search rules };

    ghost few = { Prim.search rules };
}

/// The bench chip: TC58FVB004 with every size divided by 16.
pub struct Bench;

const BENCH_SHEET: Sheet = Sheet {
    size: 32768,
    maker: TOSHIBA,
    code: 0xBA,
    commands: COMMANDS,
    choice: CHOICE,
};

const BENCH_BLOCKS: [Block; 11] = blocks![
    0 => 1024,
    1024 => 512,
    1536 => 512,
    2048 => 2048,
    4096 => 4096,
    8192 => 4096,
    12288 => 4096,
    16384 => 4096,
    20480 => 4096,
    24576 => 4096,
    28672 => 4096,
];

impl Geometry for Bench {
    const SIZE: u32 = BENCH_SHEET.size;

    ghost SIZE = { bench.size };

    const CODE: u8 = BENCH_SHEET.code;

    ghost CODE = { bench.code };

    const BLOCKS: usize = BENCH_BLOCKS.len();

    ghost BLOCKS = { length bench.sizes };

    ghost plan = { bench };

    fn sheet() -> Sheet {
        BENCH_SHEET
    }

    fn table() -> &'static [Block] {
        &BENCH_BLOCKS
    }

    ghost size_is = { Prim.search rules };

    ghost code_is = { Prim.search rules };

    ghost count_is = { Prim.search rules };

    ghost contiguous = { Prim.search rules };

    ghost few = { Prim.search rules };
}

/// No chip: what is left where a chip could not be made.
pub struct Dead;

const DEAD_SHEET: Sheet = Sheet {
    size: 0,
    maker: 0,
    code: 0,
    commands: Commands {
        first: 0,
        second: 0,
        bits: 0,
    },
    choice: Choice {
        low: 0,
        middle: 0,
        high: 0,
    },
};

const DEAD_BLOCKS: [Block; 0] = [];

impl Geometry for Dead {
    const SIZE: u32 = DEAD_SHEET.size;

    ghost SIZE = { dead.size };

    const CODE: u8 = DEAD_SHEET.code;

    ghost CODE = { dead.code };

    const BLOCKS: usize = DEAD_BLOCKS.len();

    ghost BLOCKS = { length dead.sizes };

    ghost plan = { dead };

    fn sheet() -> Sheet {
        DEAD_SHEET
    }

    fn table() -> &'static [Block] {
        &DEAD_BLOCKS
    }

    ghost size_is = { Prim.search rules };

    ghost code_is = { Prim.search rules };

    ghost count_is = { Prim.search rules };

    ghost contiguous = { Prim.search rules };

    ghost few = { Prim.search rules };
}
