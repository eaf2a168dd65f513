// Sets of blocks, which every chip, command and law speaks of.
ghost use Rattle.std.specs.Prelude.{◌≡◌, ◌≤◌, count_ones};
ghost use Rattle.geometry.specs.Sets.{largest_set, bit, has, none, only, first, count_of, union, without, meets, is_within};

/// How many blocks a set can hold: blocks 0 to 127.
pub const LARGEST_SET: usize = 128;

/// A set of blocks, block b as bit b of the mask.
#[derive(Clone, Copy, Debug, PartialEq, Eq)]
pub struct BlockSet {
    pub mask: u128,
}

// Whether a bit of a mask is 1.
fn is_set(mask: u128, place: usize) -> bool
    ensures { result ≡ bit mask place }
{
    place < LARGEST_SET && mask >> place & 1 == 1
}

// How many bits of a mask are 1.
fn ones(mask: u128) -> u32
    ensures value { result ≡ count_ones mask }
    ensures bound { result ≤ largest_set }
{
    mask.count_ones()
}

impl BlockSet {
    /// No block.
    pub const NONE: BlockSet = BlockSet { mask: 0 };

    /// One block alone; no block, where the number is past 127.
    #[tactic(auto, using(crate::proofs::Sets::shifted_one))]
    pub fn only(block: usize) -> BlockSet
        ensures { result ≡ only block }
    {
        if block < LARGEST_SET {
            BlockSet { mask: 1 << block }
        } else {
            BlockSet::NONE
        }
    }

    /// Blocks 0 to `count` - 1; all that a set has room for, where `count` is larger.
    #[tactic(auto, using(crate::proofs::Sets::shifted_one))]
    pub fn first(count: usize) -> BlockSet
        ensures { result ≡ first count }
    {
        if count < LARGEST_SET {
            BlockSet {
                mask: (1 << count) - 1,
            }
        } else {
            BlockSet { mask: u128::MAX }
        }
    }

    /// Whether a block is in the set.
    pub fn contains(self, block: usize) -> bool
        ensures { result ≡ has self block }
    {
        is_set(self.mask, block)
    }

    /// How many blocks the set has.
    pub fn count(self) -> u32
        ensures value { result ≡ count_of self }
        ensures bound { result ≤ largest_set }
    {
        ones(self.mask)
    }

    /// The blocks of either set.
    pub fn union(self, other: BlockSet) -> BlockSet
        ensures { result ≡ union self other }
    {
        BlockSet {
            mask: self.mask | other.mask,
        }
    }

    /// The blocks of this set that are not in the other.
    pub fn without(self, other: BlockSet) -> BlockSet
        ensures { result ≡ without self other }
    {
        BlockSet {
            mask: self.mask ^ (self.mask & other.mask),
        }
    }

    /// Whether the two sets share a block.
    pub fn meets(self, other: BlockSet) -> bool
        ensures { result ≡ meets self other }
    {
        self.mask & other.mask != 0
    }

    /// Whether each block of this set is in the other.
    pub fn is_within(self, other: BlockSet) -> bool
        ensures { result ≡ is_within self other }
    {
        self.mask & other.mask == self.mask
    }
}
