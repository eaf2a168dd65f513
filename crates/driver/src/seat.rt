ghost use Rattle.std.specs.Prelude.{◌≡◌};
ghost use Rattle.driver.specs.Rig.{Rig};
ghost use Rattle.driver.specs.Sound.{Sound};
ghost use Rattle.driver.specs.Notes.{Tied};
ghost use Rattle.driver.specs.Calls.{Peeks, Burns, Begins, Holds, GoesOn, Waits};
ghost use Rattle.driver.specs.declared.notes.Notes.{Notes};

use crate::bus::Bus;
use crate::notes::Notes;
use fault::PartFault;
use part::{Progress, Turn};

/// A chip with the driver's notes beside it. Each family of chips has a type of its own for it, which keeps what ties the two, and hands its calls on to
/// those of this crate.
pub trait Seat {
    type Wires: Bus;

    ghost rig: { Self → Rig };

    ghost notes: { Self → Notes };

    /// The chip, to be asked.
    fn bus(&self) -> &Self::Wires
        ensures { Self.Wires.Bus.rig result.now ≡ rig self.now };

    /// The notes, to be read.
    fn notes(&self) -> &Notes
        ensures { result.now ≡ notes self.now };

    fn peek(&mut self, address: u32) -> Result<u8, PartFault>
        ensures { Peeks (rig self.old) address result (rig self.new) };

    fn burn(&mut self, address: u32, byte: u8) -> Result<(), PartFault>
        ensures { Burns (rig self.old) address byte result (rig self.new) };

    fn begin(&mut self, block: u32) -> Result<(), PartFault>
        ensures { Begins (rig self.old) block result (rig self.new) };

    fn hold(&mut self) -> Turn
        ensures { Holds (rig self.old) result (rig self.new) };

    fn go_on(&mut self) -> Turn
        ensures { GoesOn (rig self.old) result (rig self.new) };

    fn pass(&mut self, n: u32) -> Result<Progress, PartFault>
        ensures { Waits (rig self.old) n result (rig self.new) };

    ghost sound: { (s : Self) → Sound (rig s) };

    // What ties the notes to the chip.
    ghost tied: { (s : Self) → Tied (rig s) (notes s) };
}
