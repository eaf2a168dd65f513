ghost use Rattle.std.specs.Prelude.{◌≡◌, ◌<◌, is_ok, if◌then◌else◌};
ghost use Rattle.part.specs.Meaning.{cell};
ghost use Rattle.part.specs.Calls.{answer, peek_no};
ghost use Rattle.book.specs.Reading.{counted};

use fault::PartFault;
use part::Part;

/// Counts the bytes that are fetched from a part, modulo 4,294,967,296. Each byte of a reading is fetched through it.
#[derive(Clone, Copy, Debug, PartialEq, Eq)]
pub struct Fetched {
    pub bytes: u32,
    ghost within: { bytes < 4294967296 },
}

impl Fetched {
    /// None so far.
    pub fn none() -> Fetched
        ensures { result.bytes ≡ 0 }
    {
        Fetched { bytes: 0 }
    }

    /// Fetches a cell, and counts it. A refused peek fetches nothing.
    pub fn peek<P: Part>(&mut self, part: &mut P, address: u32) -> Result<u8, PartFault>
        ensures answer { result ≡ answer (peek_no (P.Part.means part.old) address) address (cell (P.Part.means part.old) address) }
        ensures same { P.Part.means part.new ≡ P.Part.means part.old }
        ensures counts { self.new.bytes ≡ (if is_ok result then counted self.old.bytes 1 else self.old.bytes) }
    {
        let byte = part.peek(address)?;
        self.bytes = self.bytes.wrapping_add(1);
        Ok(byte)
    }
}
