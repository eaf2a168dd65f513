ghost use Rattle.std.specs.Prelude.{◌≡◌};
ghost use Rattle.book.specs.Pages.{Addressable, page_at};
ghost use Rattle.book.specs.Pairs.{book_size};

use crate::page::{PAGE, PageAt};

/// A book: a block of a part that holds registrations.
#[derive(Clone, Copy, Debug, PartialEq, Eq)]
pub struct Book {
    pub block: u32,
    /// The address at which the block begins.
    pub start: u32,
}

impl Book {
    // The page of a position.
    pub(crate) fn page(self, position: u8) -> PageAt
        requires { Addressable (page_at self.start position) 64 }
        ensures start { result.start ≡ self.start }
        ensures position { result.position ≡ position }
    {
        PageAt {
            start: self.start,
            position,
        }
    }
}

// How many bytes a book of so many positions has: a page for its head, and one for each.
pub(crate) fn book_size(positions: u8) -> u32
    ensures { result ≡ book_size positions }
{
    PAGE * (u32::from(positions) + 1)
}
