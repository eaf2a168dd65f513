// set and clear: a position takes new stops, or none.
ghost use Rattle.std.specs.Prelude.{◌≡◌, Some, None};
ghost use Rattle.book.specs.Views.{pair_of};
ghost use Rattle.console.specs.Laws.{OrderLaw, SetLaw, ClearLaw};
ghost use Rattle.console.specs.Storing.{way, Changes, Goes, Stored, Stores};

use crate::answers::{Answer, Said};
use crate::check::store_spot;
use crate::console::Console;
use crate::faults::at;
use crate::waiting::let_end;
use book::{Fetched, Page, Spot};
use fault::{Cause, ConsoleFault, PartFault};
use part::Part;

// How a page takes new stops.
#[derive(Clone, Copy, Debug, PartialEq, Eq)]
pub(crate) enum Way {
    // There is nothing to clear.
    Nothing,
    // It has a free line.
    Line,
    // It is full, and the books change.
    Change,
    // It is full, and the other book is spoilt.
    Spoilt,
}

impl Way {
    // The way of a page, by whether the other book is spoilt.
    pub(crate) fn of(page: Page, new: Option<u64>, spoilt: bool) -> Way
        ensures { result ≡ way page new spoilt }
    {
        if page.stops.is_none() && new.is_none() {
            Way::Nothing
        } else if page.has_line() {
            Way::Line
        } else if spoilt {
            Way::Spoilt
        } else {
            Way::Change
        }
    }
}

// Changes books: every position is copied to the other one, that one becomes current, and the old one begins to be erased.
fn change<P: Part>(part: &mut P, spot: &mut Spot, new: Option<u64>) -> Result<(), PartFault>
    ensures { Changes (P.Part.means part.old) (pair_of spot.old.books) spot.old.position new result (P.Part.means part.new) (pair_of spot.new.books) }
{
    spot.books.copy(part, spot.position, new)?;
    let old = spot.books.current.block;
    spot.books = spot.books.changed();
    part.begin(old)
}

// Goes one of the ways by which a page takes new stops.
fn go<P: Part>(
    part: &mut P,
    spot: &mut Spot,
    page: Page,
    new: Option<u64>,
    way: Way,
) -> Result<(), PartFault>
    ensures { Goes way (P.Part.means part.old) (pair_of spot.old.books) spot.old.position page new result (P.Part.means part.new) (pair_of spot.new.books) }
{
    match way {
        Way::Nothing => Ok(()),
        Way::Line => spot.add(part, page.tally, new),
        Way::Change => change(part, spot, new),
        Way::Spoilt => Err(PartFault {
            cause: Cause::SpareSpoilt,
            place: 0,
        }),
    }
}

// Lets a standing erasure end, and stores at a position.
fn store<P: Part>(part: &mut P, spot: &mut Spot, new: Option<u64>) -> Result<(), PartFault>
    ensures { Stored (P.Part.means part.old) (pair_of spot.old.books) spot.old.position new result (P.Part.means part.new) (pair_of spot.new.books) }
{
    let worn = let_end(part);
    spot.books = spot.books.spoilt_if(worn);
    let page = spot.read(part, &mut Fetched::none())?;
    let way = Way::of(page, new, spot.books.spoilt);
    go(part, spot, page, new, way)
}

impl<P: Part + Drop> Console<P> {
    // Stores some stops at a position, or none.
    fn store(&mut self, position: u32, new: Option<u64>) -> Result<Answer, ConsoleFault>
        ensures { Stores self.old position new result self.new }
    {
        let mut spot = store_spot(self.books, position, new)?;
        let before = self.part.clock();
        let stored = store(&mut self.part, &mut spot, new);
        self.books = Some(spot.books);
        at(stored, position)?;
        Ok(Answer {
            said: Said::Done,
            us: self.since(before),
        })
    }

    /// Stores a registration at a position, and reports the microseconds.
    #[tactic(auto, using(crate::proofs::LawsOfShowing::set_law, crate::proofs::LawsOfShowing::order_law))]
    pub fn set(&mut self, position: u32, stops: u64) -> Result<Answer, ConsoleFault>
        ensures stores { Stores self.old position (Some stops) result self.new }
        // What the books show at every position afterwards.
        ensures law { SetLaw }
        // What the laws of the calls need holds of every opened console.
        ensures order { OrderLaw }
    {
        self.store(position, Some(stops))
    }

    /// Empties a position, and reports the microseconds.
    #[tactic(auto, using(crate::proofs::LawsOfShowing::clear_law))]
    pub fn clear(&mut self, position: u32) -> Result<Answer, ConsoleFault>
        ensures stores { Stores self.old position None result self.new }
        ensures law { ClearLaw }
    {
        self.store(position, None)
    }
}
