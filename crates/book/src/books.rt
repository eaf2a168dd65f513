ghost use Rattle.std.specs.Prelude.{◌≡◌, ◌≤◌, true};
ghost use Rattle.book.specs.Pages.{Addressable};
ghost use Rattle.book.specs.Pairs.{book_size, apart};

use crate::book::Book;

/// The two books of a console: the one that is read, and the other, which takes its place when it is full.
#[derive(Clone, Copy, Debug, PartialEq, Eq)]
pub struct Books {
    pub current: Book,
    pub spare: Book,
    /// How many positions each has.
    pub positions: u8,
    /// The other book's erasure ended as worn.
    pub spoilt: bool,
    ghost few: { positions ≤ 127 },
    ghost current_fits: { Addressable current.start (book_size positions) },
    ghost spare_fits: { Addressable spare.start (book_size positions) },
    ghost distinct: { apart current.start spare.start positions ≡ true },
}
