// The reading calls: a running erasure is held, the part is looked at, and the erasure goes on. How to hold it and let it go on
// is said once, in `Console::look`; a reading call adds what is looked at. The bytes that it fetches are counted for the caller.
ghost use Rattle.std.specs.Prelude.{◌≡◌, ℕ, ◌-◌, Result};
ghost use Rattle.fault.specs.declared.faults.PartFault.{PartFault as Fault};
ghost use Rattle.part.specs.Meaning.{Meaning};
ghost use Rattle.book.specs.Reading.{counted};
ghost use Rattle.book.specs.Views.{pair_of};
ghost use Rattle.console.specs.declared.answers.Said.{Said as Says};
ghost use Rattle.console.specs.Laws.{RecallLaw, NextLaw};
ghost use Rattle.console.specs.Looking.{shown, found, searched, Looks, Recalls, Nexts, shown_bytes, found_bytes, searched_bytes, Fetches, RecallFetches, NextFetches};

use crate::answers::{Answer, Said};
use crate::check::{next_spot, recall_spot};
use crate::console::Console;
use crate::faults::at;
use book::{Fetched, Spot};
use fault::{ConsoleFault, PartFault};
use part::Part;

// What is looked at, while no erasure runs. What is seen, and how many bytes are fetched for it, is told by what the part means then.
trait Look {
    ghost sees: { Self → Meaning → Result Says Fault };

    ghost bytes: { Self → Meaning → ℕ };

    // Looks, and moves nothing.
    fn look<P: Part>(&self, part: &mut P, fetched: &mut Fetched) -> Result<Said, PartFault>
        ensures answer { result ≡ sees self.now (P.Part.means part.old) }
        ensures same { P.Part.means part.new ≡ P.Part.means part.old }
        ensures counts { fetched.new.bytes ≡ counted fetched.old.bytes (bytes self.now (P.Part.means part.old)) };
}

// A look at one position.
#[derive(Drop)]
struct At(Spot);

impl Look for At {
    ghost sees = { λ s. shown (pair_of s.0.books) s.0.position };

    ghost bytes = { λ s. shown_bytes (pair_of s.0.books) s.0.position };

    fn look<P: Part>(&self, part: &mut P, fetched: &mut Fetched) -> Result<Said, PartFault> {
        Ok(Said::Shows(self.0.read(part, fetched)?.stops))
    }
}

// A look for the first filled position after one.
#[derive(Drop)]
struct After(Spot);

impl Look for After {
    ghost sees = { λ s. found (pair_of s.0.books) s.0.position };

    ghost bytes = { λ s. found_bytes (pair_of s.0.books) s.0.position };

    fn look<P: Part>(&self, part: &mut P, fetched: &mut Fetched) -> Result<Said, PartFault> {
        Ok(Said::Finds(search(part, self.0, fetched)?))
    }
}

// The first filled position after one, or none. It stops there.
fn search<P: Part>(
    part: &mut P,
    after: Spot,
    fetched: &mut Fetched,
) -> Result<Option<u32>, PartFault>
    ensures answer { result ≡ searched (P.Part.means part.old) (pair_of after.books).current.start after.position ((pair_of after.books).positions - after.position) }
    ensures same { P.Part.means part.new ≡ P.Part.means part.old }
    ensures counts { fetched.new.bytes ≡ counted fetched.old.bytes (searched_bytes (P.Part.means part.old) (pair_of after.books).current.start after.position ((pair_of after.books).positions - after.position)) }
{
    for q in after.position..after.books.positions {
        let spot = Spot {
            books: after.books,
            position: q + 1,
        };
        if spot.read(part, fetched)?.stops.is_some() {
            return Ok(Some(u32::from(q) + 1));
        }
    }
    Ok(None)
}

impl<P: Part + Drop> Console<P> {
    // Holds a running erasure, looks, and lets it go on. It does the same whether or not there was an erasure to hold.
    fn look<L: Look>(
        &mut self,
        position: u32,
        look: &L,
        fetched: &mut Fetched,
    ) -> Result<Answer, ConsoleFault>
        ensures looks { Looks self.old position (L.Look.sees look.now) result self.new }
        ensures counts { Fetches self.old (L.Look.bytes look.now) fetched.old.bytes fetched.new.bytes }
    {
        let before = self.part.clock();
        self.part.hold();
        let seen = look.look(&mut self.part, fetched);
        self.part.go_on();
        let said = at(seen, position)?;
        Ok(Answer {
            said,
            us: self.since(before),
        })
    }

    /// Shows the stops at a position, or that it is empty, and counts the bytes that it fetches.
    pub fn recall(&mut self, position: u32, fetched: &mut Fetched) -> Result<Answer, ConsoleFault>
        ensures recalls { Recalls self.old position result self.new }
        ensures counts { RecallFetches self.old position fetched.old.bytes fetched.new.bytes }
        // It shows what the books show.
        ensures law { RecallLaw }
    {
        let spot = recall_spot(self.books, position)?;
        self.look(position, &At(spot), fetched)
    }

    /// Gives the nearest filled position after one, from 0 on, or none, and counts the bytes that it fetches.
    pub fn next(&mut self, position: u32, fetched: &mut Fetched) -> Result<Answer, ConsoleFault>
        ensures nexts { Nexts self.old position result self.new }
        ensures counts { NextFetches self.old position fetched.old.bytes fetched.new.bytes }
        // It finds what the books show.
        ensures law { NextLaw }
    {
        let after = next_spot(self.books, position)?;
        self.look(position, &After(after), fetched)
    }
}
