// Taking a chip under the driver.
ghost use Rattle.std.specs.Prelude.{◌≡◌};
ghost use Rattle.chip.specs.Flash.{view};
ghost use Rattle.chip.specs.Resets.{after_reset};
ghost use Rattle.driver.specs.Rig.{meaning};
ghost use Rattle.tc58.specs.Rigs.{rig_of};

use crate::seated::Seated;
use crate::wires::Wires;
use chip::Chip;
use driver::{Driven, Rigged, Seat};
use part::Part;

/// A chip of this family under its driver.
pub type DrivenChip = Driven<Seated>;

impl Seated {
    // Resets a chip by its reset pin, and reads its guards in ID mode.
    fn new(mut chip: Chip) -> Seated
        ensures { ⟦<Seated as Seat>⟧.rig result ≡ rig_of (after_reset (view chip)) }
    {
        chip.reset();
        let mut wires = Wires { chip };
        let notes = driver::take(&mut wires);
        Seated { wires, notes }
    }
}

/// Takes a chip: resets it, and reads its guards in ID mode.
pub fn driven(chip: Chip) -> DrivenChip
    ensures chip { ⟦<DrivenChip as Rigged>⟧.rig result ≡ rig_of (after_reset (view chip)) }
    ensures part { ⟦<DrivenChip as Part>⟧.means result ≡ meaning (rig_of (after_reset (view chip))) }
{
    Driven::new(Seated::new(chip))
}
