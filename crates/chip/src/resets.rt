// The reset pin.
ghost use Rattle.std.specs.Prelude.{◌≡◌};
ghost use Rattle.chip.specs.Flash.{view};
ghost use Rattle.chip.specs.Resets.{broken_erase, broken, after_reset};
ghost use Rattle.chip.specs.Laws.{ResetLaws};

use crate::chip::Chip;
use crate::state::{Erase, Phase, State};
use crate::time::READ_MODE;

impl Chip {
    // What breaking off an erase leaves.
    #[tactic(auto, using(flash::proofs::Cells::length_after_broken_erase))]
    fn break_erase(&mut self, e: Erase)
        ensures { view self.new ≡ record (view self.old) { cells = broken_erase (view self.old) e e.phase } }
    {
        if e.phase == Phase::Erasing {
            let map = self.block_map();
            map.break_erase(self.cells.as_mut_slice(), e.selected);
        }
    }

    // What breaking off whatever the chip is doing leaves.
    fn break_off(&mut self)
        ensures { view self.new ≡ record (view self.old) { cells = broken (view self.old) self.old.state } }
    {
        match self.state {
            State::Programming(p) => self.program(p),
            State::Erasing(e) | State::Suspending(e, _) | State::Suspended(e) => {
                self.break_erase(e)
            }
            _ => {}
        }
    }

    /// A pulse on the reset pin. It takes no time.
    #[tactic(auto, using(crate::proofs::PassLaws::reset_laws), unfolding(crate::specs::Resets::after_reset))]
    pub fn reset(&mut self)
        ensures chip { view self.new ≡ after_reset (view self.old) }
        ensures laws { ResetLaws }
    {
        self.break_off();
        self.state = READ_MODE;
    }
}
