// Looking through whole blocks of a part in which no erasure stands.
ghost use Rattle.std.specs.Prelude.{◌≡◌, ◌+◌, ◌*◌, ◌<◌, ◌≤◌, false, ◌||◌, ◌==◌};
ghost use Rattle.part.specs.Meaning.{size, cell};
ghost use Rattle.part.specs.Calls.{stands};
ghost use Rattle.book.specs.Pages.{page_at, line_at, spelled, blank, fit_line, readable_page, readable_book};
ghost use Rattle.book.specs.Pairs.{book_size};
ghost use Rattle.book.specs.Finding.{found};
ghost use Rattle.book.specs.Views.{pair_of};

use crate::book::book_size;
use crate::books::Books;
use crate::copy::IN_USE;
use crate::fetched::Fetched;
use crate::finding::Finding;
use crate::page::{EMPTY, ERASED, LAST_LINE, LINE, PAGE, PageAt, STOPS};
use part::Part;

// A cell that can be peeked.
#[tactic(auto, using(crate::proofs::Surveying::peek_free))]
fn see<P: Part>(part: &mut P, at: u32) -> u8
    requires still { stands (P.Part.means part.old) ≡ false }
    requires within { at < size (P.Part.means part.old) }
    ensures answer { result ≡ cell (P.Part.means part.old) at }
    ensures same { P.Part.means part.new ≡ P.Part.means part.old }
{
    part.peek(at).unwrap()
}

// The number in a line of a page that can be peeked.
#[tactic(auto, using(crate::proofs::Surveying::peeks_free))]
fn see_line<P: Part>(part: &mut P, page: PageAt, k: u32) -> u64
    requires still { stands (P.Part.means part.old) ≡ false }
    requires within { page_at page.start page.position + 64 ≤ size (P.Part.means part.old) }
    requires line { k < 8 }
    ensures answer { result ≡ spelled (P.Part.means part.old).cells (line_at (page_at page.start page.position) k) 8 }
    ensures same { P.Part.means part.new ≡ P.Part.means part.old }
{
    page.line(part, &mut Fetched::none(), k).unwrap()
}

// Whether so many bytes from an address on are FFh.
pub(crate) fn is_blank<P: Part>(part: &mut P, from: u32, count: u32) -> bool
    requires still { stands (P.Part.means part.old) ≡ false }
    requires within { from + count ≤ size (P.Part.means part.old) }
    ensures answer { result ≡ blank (P.Part.means part.old).cells from count }
    ensures same { P.Part.means part.new ≡ P.Part.means part.old }
{
    for i in 0..count {
        if see(part, from + i) != ERASED {
            return false;
        }
    }
    true
}

// Whether a line holds 63 stops, or is empty.
fn is_fit(line: u64) -> bool
    ensures { result ≡ fit_line line }
{
    line < STOPS || line == EMPTY
}

// Whether the last used line fits, if one is used.
fn last_fits<P: Part>(part: &mut P, page: PageAt, used: u32) -> bool
    requires still { stands (P.Part.means part.old) ≡ false }
    requires within { page_at page.start page.position + 64 ≤ size (P.Part.means part.old) }
    requires few { used < 8 }
    ensures answer { result ≡ (used == 0 || fit_line (spelled (P.Part.means part.old).cells (line_at (page_at page.start page.position) used) 8)) }
    ensures same { P.Part.means part.new ≡ P.Part.means part.old }
{
    used == 0 || is_fit(see_line(part, page, used))
}

// Whether a page can be read.
fn is_readable<P: Part>(part: &mut P, page: PageAt) -> bool
    requires still { stands (P.Part.means part.old) ≡ false }
    requires within { page_at page.start page.position + 64 ≤ size (P.Part.means part.old) }
    ensures answer { result ≡ readable_page (P.Part.means part.old).cells (page_at page.start page.position) }
    ensures same { P.Part.means part.new ≡ P.Part.means part.old }
{
    let at = page.tally();
    let tally = see(part, at);
    let used = tally.trailing_zeros();
    if used > LAST_LINE {
        return false;
    }
    let whole = u32::from(tally) == 256 - (1 << used);
    let reserved = is_blank(part, at + 1, LINE - 1);
    let last = last_fits(part, page, used);
    let beyond = is_blank(part, page.line_start(used + 1), LINE * (LAST_LINE - used));
    whole & reserved & last & beyond
}

// Whether a book can be read: the rest of its head is FFh, and so can each position.
fn is_readable_book<P: Part>(part: &mut P, start: u32, positions: u8) -> bool
    requires still { stands (P.Part.means part.old) ≡ false }
    requires within { start + book_size positions ≤ size (P.Part.means part.old) }
    ensures answer { result ≡ readable_book (P.Part.means part.old).cells start positions }
    ensures same { P.Part.means part.new ≡ P.Part.means part.old }
{
    if !is_blank(part, start + 1, PAGE - 1) {
        return false;
    }
    for p in 0..positions {
        let page = PageAt {
            start,
            position: p + 1,
        };
        if !is_readable(part, page) {
            return false;
        }
    }
    true
}

impl Books {
    // What the blocks of two books hold.
    pub(crate) fn survey<P: Part>(self, part: &mut P) -> Finding
        requires still { stands (P.Part.means part.old) ≡ false }
        requires one { (pair_of self).current.start + book_size (pair_of self).positions ≤ size (P.Part.means part.old) }
        requires two { (pair_of self).spare.start + book_size (pair_of self).positions ≤ size (P.Part.means part.old) }
        ensures answer { result ≡ found (P.Part.means part.old).cells (pair_of self).current.start (pair_of self).spare.start (pair_of self).positions }
        ensures same { P.Part.means part.new ≡ P.Part.means part.old }
    {
        let (first, second) = (self.current.start, self.spare.start);
        let width = book_size(self.positions);
        let one = see(part, first) == IN_USE;
        let two = see(part, second) == IN_USE;
        if one == two {
            Finding::Fresh.only_if(is_blank(part, first, width) & is_blank(part, second, width))
        } else if one {
            Finding::First.only_if(is_readable_book(part, first, self.positions))
        } else {
            Finding::Second.only_if(is_readable_book(part, second, self.positions))
        }
    }
}
