// The writer of pages.
ghost use Rattle.std.specs.Prelude.{◌≡◌, ◌<◌, Ok};
ghost use Rattle.book.specs.Pages.{page_at, line_at, byte_of, next_line, marked};
ghost use Rattle.book.specs.Burning.{Ran, bytes_burnt, line_added, page_copied};
ghost use Rattle.book.specs.Views.{pair_of};
ghost use Rattle.book.specs.Laws.{WriteLaws};

use crate::page::{LAST_LINE, LINE, PageAt};
use crate::spot::Spot;
use fault::PartFault;
use part::Part;

// A tally with one line used.
const ONE_LINE: u8 = 0xFE;

// Byte i of the eight that spell a number, the highest first.
fn byte_of(n: u64, i: u32) -> u8
    requires { i < 8 }
    ensures { result ≡ byte_of n i }
{
    ((n >> (56 - 8 * i)) % 256) as u8
}

// The tally with one line more used: its lowest 1 bit is 0.
fn mark(tally: u8) -> u8
    ensures { result ≡ marked tally }
{
    tally & tally.saturating_sub(1)
}

// The line that is used next: the one after the last used line, or the last line again where none is free.
fn next_line(tally: u8) -> u32
    ensures { result ≡ next_line tally }
{
    (tally.trailing_zeros() + 1).min(LAST_LINE)
}

impl PageAt {
    // Burns a registration into the eight bytes of a line, first to last.
    fn burn_line<P: Part>(self, part: &mut P, k: u32, stops: u64) -> Result<(), PartFault>
        requires { k < 8 }
        ensures { Ran (P.Part.means part.old) (bytes_burnt (line_at (page_at self.start self.position) k) stops 8) result (P.Part.means part.new) }
    {
        let at = self.line_start(k);
        for i in 0..LINE {
            part.burn(at + i, byte_of(stops, i))?;
        }
        Ok(())
    }

    // Uses one line more: the line first, then the tally. An empty line is left as it is.
    fn add<P: Part>(self, part: &mut P, tally: u8, new: Option<u64>) -> Result<(), PartFault>
        ensures { Ran (P.Part.means part.old) (line_added (page_at self.start self.position) tally new) result (P.Part.means part.new) }
    {
        if let Some(stops) = new {
            self.burn_line(part, next_line(tally), stops)?;
        }
        part.burn(self.tally(), mark(tally))
    }

    // Writes a registration to line 1 of a blank page, or leaves the page blank.
    pub(crate) fn fill<P: Part>(self, part: &mut P, stops: Option<u64>) -> Result<(), PartFault>
        ensures { Ran (P.Part.means part.old) (page_copied (page_at self.start self.position) (Ok stops)) result (P.Part.means part.new) }
    {
        let Some(stops) = stops else {
            return Ok(());
        };
        self.burn_line(part, 1, stops)?;
        part.burn(self.tally(), ONE_LINE)
    }
}

impl Spot {
    /// Uses one line more at the position in the current book, where the tally is as given.
    #[tactic(auto, using(crate::proofs::LawsOfBooks::write_laws))]
    pub fn add<P: Part>(self, part: &mut P, tally: u8, new: Option<u64>) -> Result<(), PartFault>
        ensures steps { Ran (P.Part.means part.old) (line_added (page_at (pair_of self.books).current.start self.position) tally new) result (P.Part.means part.new) }
        ensures law { WriteLaws }
    {
        self.page().add(part, tally, new)
    }
}
