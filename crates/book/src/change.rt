// What becomes of the two books.
ghost use Rattle.std.specs.Prelude.{◌≡◌};
ghost use Rattle.book.specs.Pairs.{changed, spoilt_if};
ghost use Rattle.book.specs.Views.{pair_of};

use crate::books::Books;

impl Books {
    /// The same two books with the other one current.
    pub fn changed(self) -> Books
        ensures { pair_of result ≡ changed (pair_of self) }
    {
        Books {
            current: self.spare,
            spare: self.current,
            positions: self.positions,
            spoilt: self.spoilt,
        }
    }

    /// The same books, the other one spoilt if this is so or was so before.
    pub fn spoilt_if(mut self, spoilt: bool) -> Books
        ensures { pair_of result ≡ spoilt_if spoilt (pair_of self) }
    {
        self.spoilt |= spoilt;
        self
    }
}
