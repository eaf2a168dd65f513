// The change of books.
ghost use Rattle.std.specs.Prelude.{◌≡◌, ◌≤◌};
ghost use Rattle.book.specs.Pages.{page_at};
ghost use Rattle.book.specs.Burning.{Ran, page_copied, will_hold, book_copied};
ghost use Rattle.book.specs.Views.{pair_of};
ghost use Rattle.book.specs.Laws.{CopyLaws};

use crate::books::Books;
use crate::fetched::Fetched;
use fault::PartFault;
use part::Part;

// The first byte of a book that is in use.
pub(crate) const IN_USE: u8 = 0x00;

impl Books {
    // Copies one position from the current book to the other; at p it is the new registration that goes there.
    fn copy_position<P: Part>(
        self,
        part: &mut P,
        q: u8,
        p: u8,
        new: Option<u64>,
    ) -> Result<(), PartFault>
        requires { q ≤ self.positions }
        ensures { Ran (P.Part.means part.old) (page_copied (page_at (pair_of self).spare.start q) (will_hold (P.Part.means part.old) (pair_of self).current.start p new q)) result (P.Part.means part.new) }
    {
        let to = self.spare.page(q);
        if q == p {
            return to.fill(part, new);
        }
        let page = self.current.page(q).read(part, &mut Fetched::none())?;
        to.fill(part, page.stops)
    }

    /// Copies every position to the other book, p as it will be, and then burns that book's head.
    #[tactic(auto, using(crate::proofs::LawsOfBooks::copy_laws))]
    pub fn copy<P: Part>(
        self,
        part: &mut P,
        position: u8,
        new: Option<u64>,
    ) -> Result<(), PartFault>
        ensures steps { Ran (P.Part.means part.old) (book_copied (will_hold (P.Part.means part.old) (pair_of self).current.start position new) (pair_of self).spare.start (pair_of self).positions) result (P.Part.means part.new) }
        ensures law { CopyLaws }
    {
        for q in 1..self.positions + 1 {
            self.copy_position(part, q, position, new)?;
        }
        part.burn(self.spare.start, IN_USE)
    }
}
