// The calls of a seated chip: each is the driver's, on the wires and the notes.
use crate::seated::Seated;
use crate::wires::Wires;
use driver::{Notes, Seat};
use fault::PartFault;
use part::{Progress, Turn};

impl Seat for Seated {
    ghost use Rattle.chip.specs.Flash.{view};
    ghost use Rattle.tc58.specs.Rigs.{rig_of};
    ghost use Rattle.tc58.specs.ProofOfSound;

    type Wires = Wires;

    ghost rig = { λ s. rig_of (view s.wires.chip) };

    ghost notes = { λ s. s.notes };

    fn bus(&self) -> &Wires {
        &self.wires
    }

    fn notes(&self) -> &Notes {
        &self.notes
    }

    fn peek(&mut self, address: u32) -> Result<u8, PartFault> {
        driver::peek(&mut self.wires, &self.notes, address)
    }

    fn burn(&mut self, address: u32, byte: u8) -> Result<(), PartFault> {
        driver::burn(&mut self.wires, &self.notes, address, byte)
    }

    fn begin(&mut self, block: u32) -> Result<(), PartFault> {
        driver::begin(&mut self.wires, &mut self.notes, block)
    }

    fn hold(&mut self) -> Turn {
        driver::hold(&mut self.wires, &mut self.notes)
    }

    fn go_on(&mut self) -> Turn {
        driver::go_on(&mut self.wires, &mut self.notes)
    }

    fn pass(&mut self, n: u32) -> Result<Progress, PartFault> {
        driver::pass(&mut self.wires, &mut self.notes, n)
    }

    ghost sound = { λ s. ProofOfSound.sound s.wires.chip };

    ghost tied = { λ s. s.follows };
}
