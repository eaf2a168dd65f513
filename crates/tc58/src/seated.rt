ghost use Rattle.std.specs.Prelude.{◌≡◌, true};
ghost use Rattle.chip.specs.Flash.{view};
ghost use Rattle.driver.specs.Notes.{Tied};
ghost use Rattle.tc58.specs.Rigs.{rig_of};

use crate::wires::Wires;
use driver::Notes;

/// A chip of this family with the driver's notes beside it. The ghost field is what ties the two.
#[derive(Drop)]
pub struct Seated {
    pub(crate) wires: Wires,
    pub(crate) notes: Notes,
    ghost follows: { Tied (rig_of (view wires.chip)) notes },
}
