ghost use Rattle.std.specs.Prelude.{◌≡◌, ◌<◌, true, vec_len};
ghost use Rattle.geometry.specs.Plans.{plan_of};
ghost use Rattle.chip.specs.Setups.{in_limits};

use crate::setup::Setup;
use crate::state::State;

/// A chip: the numbers it was made with, its cells, what it is doing, and the microseconds that have passed on it,
/// modulo 4,294,967,296. It has exactly as many cells as its geometry says, which are none where it is dead.
// No `impl Model`: the laws over every chip are proved from the ghost fields, which a model would hide; `view` is what contracts see.
#[derive(Drop)]
pub struct Chip {
    pub(crate) setup: Setup,
    pub(crate) cells: Vec<u8>,
    pub(crate) state: State,
    pub(crate) clock: u32,
    ghost limits: { in_limits setup ≡ true },
    ghost whole: { vec_len cells ≡ (plan_of setup.kind).size },
    ghost counted: { clock < 4294967296 },
}
