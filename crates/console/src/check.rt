// The checks that run before anything is touched.
ghost use Rattle.console.specs.Desks.{books_of};
ghost use Rattle.console.specs.Checks.{store_books, recall_books, next_books, Checked};

use crate::faults::refused;
use book::{Books, STOPS, Spot};
use fault::{Cause, ConsoleFault};

// Where recall looks, or why it is refused.
pub(crate) fn recall_spot(books: Option<Books>, position: u32) -> Result<Spot, ConsoleFault>
    ensures { Checked (recall_books (books_of books) position) position result }
{
    let books = books.ok_or(refused(Cause::OutOfTurn, position))?;
    if (1..=u32::from(books.positions)).contains(&position) {
        Ok(Spot {
            books,
            position: position as u8,
        })
    } else {
        Err(refused(Cause::PositionOutside, position))
    }
}

// After which position next looks, or why it is refused.
pub(crate) fn next_spot(books: Option<Books>, position: u32) -> Result<Spot, ConsoleFault>
    ensures { Checked (next_books (books_of books) position) position result }
{
    let books = books.ok_or(refused(Cause::OutOfTurn, position))?;
    if position <= u32::from(books.positions) {
        Ok(Spot {
            books,
            position: position as u8,
        })
    } else {
        Err(refused(Cause::PositionOutside, position))
    }
}

// Where set or clear stores, or why it is refused.
pub(crate) fn store_spot(
    books: Option<Books>,
    position: u32,
    new: Option<u64>,
) -> Result<Spot, ConsoleFault>
    ensures { Checked (store_books (books_of books) position new) position result }
{
    let spot = recall_spot(books, position)?;
    match new {
        Some(stops) if stops >= STOPS => Err(refused(Cause::StopOutside, position)),
        _ => Ok(spot),
    }
}
