// The chip's bus: write and read cycles, which take no time, the passing of time, and the reset pin.
ghost use Rattle.std.specs.Prelude.{◌≡◌};
ghost use Rattle.chip.specs.Flash.{view};
ghost use Rattle.chip.specs.Writes.{at_address, heard, written};
ghost use Rattle.chip.specs.Reads.{answered, seen};
ghost use Rattle.chip.specs.Times.{waited, after};
ghost use Rattle.chip.specs.Laws.{WriteLaws, ReadLaws, PassLaws};

use crate::chip::Chip;
use fault::{Cause, ChipFault, time_no};

// Refuses a time over the longest.
fn short_enough(n: u32) -> Result<(), ChipFault>
    ensures { result ≡ waited n }
{
    match time_no(n) {
        None => Ok(()),
        Some(cause) => Err(ChipFault { cause, place: n }),
    }
}

impl Chip {
    fn inside(&self, address: u32) -> Result<(), ChipFault>
        ensures { result ≡ at_address (view self.now) address tt }
    {
        if (address as usize) < self.cells.len() {
            Ok(())
        } else {
            Err(ChipFault {
                cause: Cause::AddressOutside,
                place: address,
            })
        }
    }

    /// A write cycle. An address outside is refused, and nothing changes. Address and byte are two numbers here and in all that follows from a
    /// write, as they are on the wires: a pair would be taken apart in each.
    #[tactic(auto, using(crate::proofs::WriteLaws::write_laws), unfolding(crate::specs::Writes::heard, crate::specs::Writes::written))]
    pub fn write(&mut self, address: u32, byte: u8) -> Result<(), ChipFault>
        ensures answer { result ≡ heard (view self.old) address }
        ensures chip { view self.new ≡ written (view self.old) address byte }
        ensures laws { WriteLaws }
    {
        self.inside(address)?;
        self.heed(address, byte);
        Ok(())
    }

    /// A read cycle. An address outside is refused, and nothing changes.
    #[tactic(auto, using(crate::proofs::WriteLaws::read_laws), unfolding(crate::specs::Reads::answered, crate::specs::Reads::seen))]
    pub fn read(&mut self, address: u32) -> Result<u8, ChipFault>
        ensures answer { result ≡ answered (view self.old) address }
        ensures chip { view self.new ≡ seen (view self.old) address }
        ensures laws { ReadLaws }
    {
        self.inside(address)?;
        let byte = self.show(address);
        self.state.flip();
        Ok(byte)
    }

    /// Lets n microseconds pass. A time over 1,000,000,000 is refused, and nothing changes.
    #[tactic(auto, using(crate::proofs::PassLaws::pass_laws), unfolding(crate::specs::Times::after))]
    pub fn pass(&mut self, n: u32) -> Result<(), ChipFault>
        ensures answer { result ≡ waited n }
        ensures chip { view self.new ≡ after n (view self.old) }
        ensures laws { PassLaws }
    {
        short_enough(n)?;
        self.run(n);
        self.count(n);
        Ok(())
    }
}
