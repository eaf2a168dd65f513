// The read cycle.
ghost use Rattle.std.specs.Prelude.{◌≡◌};
ghost use Rattle.chip.specs.Flash.{view};
ghost use Rattle.chip.specs.Reads.{erase_status, shown, flip_erase, flipped};

use crate::chip::Chip;
use crate::state::{Erase, Phase, State};
use flash::{ERASED, Mode, SUSPENDED_STATUS, identity, status};

impl Erase {
    fn status(self) -> u8
        ensures { result ≡ erase_status self }
    {
        status(ERASED, self.toggle, false, self.phase == Phase::Erasing)
    }

    fn flip(&mut self)
        ensures { self.new ≡ flip_erase self.old }
    {
        self.toggle = !self.toggle;
    }
}

impl State {
    // A read of the status flips the toggle bit. It is done in place: a state that is made anew at each read costs as much again as the read.
    pub(crate) fn flip(&mut self)
        ensures { self.new ≡ flipped self.old }
    {
        match self {
            State::Programming(p) => p.toggle = !p.toggle,
            State::Erasing(e) => e.flip(),
            State::Suspending(e, _) => e.flip(),
            State::Failed(_, toggle) => *toggle = !*toggle,
            _ => {}
        }
    }
}

impl Chip {
    // What a read answers, by what the chip is doing.
    pub(crate) fn show(&self, address: u32) -> u8
        ensures { result ≡ shown (view self.now) self.now.state address }
    {
        match self.state {
            State::Ready(Mode::Read, _) => self.cell(address),
            State::Ready(Mode::Id, _) => identity(self.sheet(), &self.block_map(), address),
            State::Programming(p) => status(p.byte, p.toggle, false, false),
            State::Erasing(e) | State::Suspending(e, _) => e.status(),
            State::Suspended(e) if self.lies_in(e.selected, address) => SUSPENDED_STATUS,
            State::Suspended(_) => self.cell(address),
            State::Failed(byte, toggle) => status(byte, toggle, true, true),
        }
    }
}
