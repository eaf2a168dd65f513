// Taking two blocks of a part for books.
ghost use Rattle.std.specs.Prelude.{◌≡◌, ◌+◌, ◌≤◌, false, not, ◌||◌};
ghost use Rattle.part.specs.Meaning.{size};
ghost use Rattle.part.specs.Calls.{stands};
ghost use Rattle.book.specs.Pairs.{book_size};
ghost use Rattle.book.specs.Reading.{unless};
ghost use Rattle.book.specs.Pages.{blank};
ghost use Rattle.book.specs.Finding.{fit_size, books_no, pair, Cleared, Settled, Opened};
ghost use Rattle.book.specs.Views.{pair_of, pair_in};

use crate::book::{Book, book_size};
use crate::books::Books;
use crate::copy::IN_USE;
use crate::finding::Finding;
use crate::page::PAGE;
use crate::survey::is_blank;
use fault::{Cause, PartFault};
use geometry::Block;
use part::Part;

// The fewest bytes that a book has: a head, and one position.
const SMALLEST: u32 = 128;

// The most bytes that a book has.
const LARGEST: u32 = 8192;

// Why two blocks are refused, and where.
fn refused(cause: Cause, place: u32) -> PartFault
    ensures { result ≡ record { cause = cause; place = place } }
{
    PartFault { cause, place }
}

// Whether a book can have so many bytes.
fn is_fit_size(size: u32) -> bool
    ensures { result ≡ fit_size size }
{
    (SMALLEST..=LARGEST).contains(&size) && size % PAGE == 0
}

// Two blocks as books, the first of them current; or why they cannot be.
fn seat<P: Part>(part: &P, a: u32, b: u32) -> Result<Books, PartFault>
    ensures { pair_in result ≡ unless (books_no (P.Part.means part.now) a b) (pair (P.Part.means part.now) a b) }
{
    let first = part.block(a).ok_or(refused(Cause::NoSuchBlock, a))?;
    let second = part.block(b).ok_or(refused(Cause::NoSuchBlock, b))?;
    if a == b || first.size != second.size || !is_fit_size(first.size) {
        return Err(refused(Cause::UnfitBooks, 0));
    }
    if part.guarded(a) {
        return Err(refused(Cause::Guarded, a));
    }
    if part.guarded(b) {
        return Err(refused(Cause::Guarded, b));
    }
    if part.shape().standing.stands() {
        return Err(refused(Cause::ErasureInTheWay, a));
    }
    Ok(Books {
        current: Book {
            block: a,
            start: first.start,
        },
        spare: Book {
            block: b,
            start: second.start,
        },
        positions: (first.size / PAGE - 1) as u8,
        spoilt: false,
    })
}

impl Books {
    // The current book is taken as it is. The other begins to be erased, unless it is blank.
    fn take<P: Part>(self, part: &mut P) -> Result<Books, PartFault>
        requires still { stands (P.Part.means part.old) ≡ false }
        requires within { (pair_of self).spare.start + book_size (pair_of self).positions ≤ size (P.Part.means part.old) }
        ensures { Cleared (blank (P.Part.means part.old).cells (pair_of self).spare.start (book_size (pair_of self).positions)) (P.Part.means part.old) (pair_of self) (pair_in result) (P.Part.means part.new) }
    {
        if !is_blank(part, self.spare.start, book_size(self.positions)) {
            part.begin(self.spare.block)?;
        }
        Ok(self)
    }

    // Does with two blocks what was found in them.
    fn settle<P: Part>(self, part: &mut P, finding: Finding) -> Result<Books, PartFault>
        requires still { stands (P.Part.means part.old) ≡ false }
        requires one { (pair_of self).current.start + book_size (pair_of self).positions ≤ size (P.Part.means part.old) }
        requires two { (pair_of self).spare.start + book_size (pair_of self).positions ≤ size (P.Part.means part.old) }
        ensures { Settled finding (P.Part.means part.old) (pair_of self) (pair_in result) (P.Part.means part.new) }
    {
        match finding {
            Finding::Fresh => {
                part.burn(self.current.start, IN_USE)?;
                Ok(self)
            }
            Finding::First => self.take(part),
            Finding::Second => self.changed().take(part),
            Finding::Neither => Err(refused(Cause::NoReadableBook, 0)),
        }
    }

    /// Takes two blocks of a part for books. If both are blank, the first comes into use; otherwise the one that is in use and can
    /// be read is current, and the other begins to be erased unless it is blank.
    pub fn open<P: Part>(part: &mut P, a: u32, b: u32) -> Result<Books, PartFault>
        ensures { Opened (P.Part.means part.old) a b (pair_in result) (P.Part.means part.new) }
    {
        let books = seat(part, a, b)?;
        let finding = books.survey(part);
        books.settle(part, finding)
    }
}
