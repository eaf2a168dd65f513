// The reader of pages.
ghost use Rattle.std.specs.Prelude.{◌≡◌, ◌<◌};
ghost use Rattle.book.specs.Pages.{page_at, line_at, is_line, spelled, registration};
ghost use Rattle.book.specs.Reading.{unless, peeks_no, reading, counted, got, page_bytes};
ghost use Rattle.book.specs.Views.{pair_of};
ghost use Rattle.book.specs.Laws.{ReadLaws};

use crate::fetched::Fetched;
use crate::page::{EMPTY, LAST_LINE, LINE, Page, PageAt};
use crate::spot::Spot;
use fault::PartFault;
use part::Part;

// What a line holds; one of FFh throughout is empty.
fn held(line: u64) -> Option<u64>
    ensures { result ≡ registration line }
{
    (line != EMPTY).then_some(line)
}

// Whether there is such a line.
fn is_line(line: u32) -> bool
    ensures { result ≡ is_line line }
{
    (1..=LAST_LINE).contains(&line)
}

impl PageAt {
    // The number in the eight bytes of a line, the highest byte first.
    pub(crate) fn line<P: Part>(
        self,
        part: &mut P,
        fetched: &mut Fetched,
        k: u32,
    ) -> Result<u64, PartFault>
        requires { k < 8 }
        ensures answer { result ≡ unless (peeks_no (P.Part.means part.old) (line_at (page_at self.start self.position) k) 8) (spelled (P.Part.means part.old).cells (line_at (page_at self.start self.position) k) 8) }
        ensures same { P.Part.means part.new ≡ P.Part.means part.old }
        ensures counts { fetched.new.bytes ≡ counted fetched.old.bytes (got (peeks_no (P.Part.means part.old) (line_at (page_at self.start self.position) k) 8) (line_at (page_at self.start self.position) k) 8) }
    {
        let at = self.line_start(k);
        let mut stops: u64 = 0;
        for i in 0..LINE {
            let byte = fetched.peek(part, at + i)?;
            stops = stops * 256 + u64::from(byte);
        }
        Ok(stops)
    }

    // What the page says. No more is peeked than its tally and the last used line.
    pub(crate) fn read<P: Part>(
        self,
        part: &mut P,
        fetched: &mut Fetched,
    ) -> Result<Page, PartFault>
        ensures answer { result ≡ reading (P.Part.means part.old) (page_at self.start self.position) }
        ensures same { P.Part.means part.new ≡ P.Part.means part.old }
        ensures counts { fetched.new.bytes ≡ counted fetched.old.bytes (page_bytes (P.Part.means part.old) (page_at self.start self.position)) }
    {
        let tally = fetched.peek(part, self.tally())?;
        let used = tally.trailing_zeros();
        if !is_line(used) {
            return Ok(Page { tally, stops: None });
        }
        let number = self.line(part, fetched, used)?;
        Ok(Page {
            tally,
            stops: held(number),
        })
    }
}

impl Spot {
    /// Reads the position's page in the current book, and counts the bytes that it fetches.
    #[tactic(auto, using(crate::proofs::LawsOfBooks::read_laws))]
    pub fn read<P: Part>(self, part: &mut P, fetched: &mut Fetched) -> Result<Page, PartFault>
        ensures answer { result ≡ reading (P.Part.means part.old) (page_at (pair_of self.books).current.start self.position) }
        ensures same { P.Part.means part.new ≡ P.Part.means part.old }
        ensures counts { fetched.new.bytes ≡ counted fetched.old.bytes (page_bytes (P.Part.means part.old) (page_at (pair_of self.books).current.start self.position)) }
        ensures law { ReadLaws }
    {
        self.page().read(part, fetched)
    }
}
