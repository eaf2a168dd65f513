ghost use Rattle.std.specs.Prelude.{◌≡◌};
ghost use Rattle.part.specs.Meaning.{Lawful};
ghost use Rattle.part.specs.Neighbours.{elapsed};
ghost use Rattle.console.specs.Desks.{closed, is_quiet};
ghost use Rattle.console.specs.Opening.{Opens};

use crate::answers::{Answer, Said};
use crate::faults::refused;
use book::Books;
use fault::{Cause, ConsoleFault};
use part::Part;
use std::marker::Model;

/// A console over a part, with two of its blocks as books while it is open. What it stores is in the part alone.
#[derive(Drop)]
pub struct Console<P: Part> {
    pub(crate) part: P,
    pub(crate) books: Option<Books>,
}

// A contract sees a console as a desk: what its part means, and its books if it is open.
impl<P: Part> Model for Console<P> {
    ghost use Rattle.console.specs.Desks.{Desk, desk};

    ghost Value = { Desk };

    ghost view = { λ c. desk (P.Part.means c.part) c.books };
}

impl<P: Part + Drop> Console<P> {
    /// A console that is not open.
    pub fn new(part: P) -> Console<P>
        ensures { result ≡ closed (P.Part.means part) }
    {
        Console { part, books: None }
    }

    /// The part of a console that is no longer needed.
    pub fn into_part(self) -> P
        ensures { P.Part.means result ≡ self.part }
    {
        let Console { part, .. } = self;
        part
    }

    /// The reading of the part's clock.
    pub fn clock(&self) -> u32
        ensures reads { result ≡ self.now.part.clock }
        // What holds of every part holds of a console's.
        ensures lawful { Lawful self.now.part }
    {
        self.part.clock()
    }

    // The microseconds that have passed since a reading of the clock.
    pub(crate) fn since(&self, before: u32) -> u32
        ensures { result ≡ elapsed before self.now.part.clock }
    {
        self.clock().wrapping_sub(before)
    }

    /// Whether no erasure stands and no book is spoilt: only then may the power go off.
    pub fn quiet(&self) -> bool
        ensures { result ≡ is_quiet self.now }
    {
        let spoilt = self.books.is_some_and(|books| books.spoilt);
        !self.part.shape().standing.stands() && !spoilt
    }

    /// Opens the console on two blocks of its part, and reports the microseconds. A refused open leaves it closed.
    pub fn open(&mut self, a: u32, b: u32) -> Result<Answer, ConsoleFault>
        ensures { Opens self.old a b result self.new }
    {
        if self.books.is_some() {
            return Err(refused(Cause::OutOfTurn, 0));
        }
        let before = self.part.clock();
        let books = Books::open(&mut self.part, a, b)?;
        self.books = Some(books);
        Ok(Answer {
            said: Said::Done,
            us: self.since(before),
        })
    }
}
