use chip::Setup;
use geometry::BlockSet;

/// The bench chip with the times of its data sheet's typical byte and a quick erase, with no block protected or worn.
pub const BENCH_CHIP: Setup = Setup {
    kind: geometry::BENCH,
    program: 16,
    erase: 1000,
    suspend: 15,
    protected: BlockSet::NONE,
    worn: BlockSet::NONE,
};
