ghost use Rattle.std.specs.Prelude.{◌≡◌, ◌≤◌};
ghost use Rattle.book.specs.Views.{pair_of};

use crate::books::Books;
use crate::page::PageAt;

/// A position that two books have, or 0, which stands before the first.
#[derive(Clone, Copy, Debug, PartialEq, Eq)]
pub struct Spot {
    pub books: Books,
    pub position: u8,
    ghost within: { position ≤ books.positions },
}

impl Spot {
    // Its page in the current book.
    pub(crate) fn page(self) -> PageAt
        ensures start { result.start ≡ (pair_of self.books).current.start }
        ensures position { result.position ≡ self.position }
    {
        self.books.current.page(self.position)
    }
}
