// Why an array refuses to peek and to burn.
ghost use Rattle.std.specs.Prelude.{◌≡◌};
ghost use Rattle.part.specs.Meaning.{size, cell};
ghost use Rattle.part.specs.Calls.{peek_no, burn_no};
ghost use Rattle.array.specs.Means.{means};

use crate::array::Array;
use fault::Cause;
use part::burn_why;

impl Array {
    pub(crate) fn size(&self) -> u32
        ensures { result ≡ size (means self.now) }
    {
        self.layout.count * self.layout.width
    }

    pub(crate) fn cell(&self, address: u32) -> u8
        ensures { result ≡ cell (means self.now) address }
    {
        geometry::cell_at(self.cells.as_slice(), address)
    }

    #[tactic(auto, using(crate::proofs::Rules::array_rules))]
    pub(crate) fn peek_no(&self, address: u32) -> Option<Cause>
        ensures { result ≡ peek_no (means self.now) address }
    {
        if address >= self.size() {
            Some(Cause::AddressOutside)
        } else if self.standing.hides(address / self.layout.width) {
            Some(Cause::ErasureInTheWay)
        } else {
            None
        }
    }

    #[tactic(auto, using(crate::proofs::Rules::array_rules))]
    pub(crate) fn burn_no(&self, address: u32, byte: u8) -> Option<Cause>
        ensures { result ≡ burn_no (means self.now) address byte }
    {
        if address >= self.size() {
            Some(Cause::AddressOutside)
        } else {
            let barred = self.standing.bars(address / self.layout.width);
            burn_why(barred, false, self.cell(address), byte)
        }
    }
}
