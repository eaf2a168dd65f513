// The write cycle.
ghost use Rattle.std.specs.Prelude.{◌≡◌};
ghost use Rattle.chip.specs.Flash.{view};
ghost use Rattle.chip.specs.Writes.{program_time, block_alone, decision, obeyed, interrupted, heeded};

use crate::chip::Chip;
use crate::state::{Erase, Phase, Program, State};
use crate::time::READ_MODE;
use flash::{Decision, Mode, Place, WINDOW};
use geometry::BlockSet;

impl Chip {
    fn program_time(&self, address: u32, byte: u8) -> u32
        ensures { result ≡ program_time (view self.now) address byte }
    {
        self.block_map()
            .program_time(self.setup.program, self.cells.as_slice(), address, byte)
    }

    // The block that an address lies in, as a set.
    fn block_alone(&self, address: u32) -> BlockSet
        ensures { result ≡ block_alone (view self.now) address }
    {
        self.block_map().block_alone(address)
    }

    // What a write means at a place of a sequence.
    fn decide(&self, place: Place, address: u32, byte: u8) -> Decision
        ensures { result ≡ decision (view self.now) place address byte }
    {
        let commands = self.sheet().commands;
        place.decide(commands, commands.low_bits(address), byte)
    }

    // Does what a write of a sequence that began in `mode` means. The state is changed in place here and below: one that is made anew at each write costs
    // as much again as the write.
    fn obey(&mut self, mode: Mode, address: u32, byte: u8, decision: Decision)
        ensures { view self.new ≡ record (view self.old) { state = obeyed (view self.old) mode address byte decision } }
    {
        match decision {
            Decision::Next(place) => self.state = State::Ready(mode, place),
            Decision::Enter(other) => self.state = State::Ready(other, Place::Start),
            Decision::Program => {
                let left = self.program_time(address, byte);
                self.state = State::Programming(Program {
                    address,
                    byte,
                    left,
                    toggle: false,
                });
            }
            Decision::Erase => {
                let selected = self.block_alone(address);
                self.state = State::Erasing(Erase {
                    phase: Phase::Window,
                    selected,
                    left: WINDOW,
                    toggle: false,
                });
            }
            Decision::GiveUp => self.state = State::Ready(mode, Place::Start),
        }
    }

    // Does what a write during a block erase means.
    fn interrupt(&mut self, erase: Erase, address: u32, byte: u8)
        ensures { view self.new ≡ record (view self.old) { state = interrupted (view self.old) erase erase.phase address byte } }
    {
        match (erase.phase, byte) {
            (_, 0xB0) => self.state = State::Suspending(erase, self.setup.suspend),
            (Phase::Erasing, _) => self.state = State::Erasing(erase),
            (Phase::Window, 0x30) => {
                let selected = erase.selected.union(self.block_alone(address));
                self.state = State::Erasing(Erase {
                    selected,
                    left: WINDOW, // counted from this 30h on
                    ..erase
                });
            }
            (Phase::Window, _) => self.state = READ_MODE,
        }
    }

    // Does what a write means, by what the chip is doing.
    pub(crate) fn heed(&mut self, address: u32, byte: u8)
        ensures { view self.new ≡ record (view self.old) { state = heeded (view self.old) self.old.state address byte } }
    {
        match self.state {
            State::Ready(mode, place) => {
                self.obey(mode, address, byte, self.decide(place, address, byte))
            }
            State::Erasing(erase) => self.interrupt(erase, address, byte),
            State::Suspended(erase) if byte == 0x30 => self.state = State::Erasing(erase),
            State::Failed(_, _) if byte == 0xF0 => self.state = READ_MODE,
            _ => {}
        }
    }
}
