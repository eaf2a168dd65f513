// The passing of time, from the end of one state to the next.
ghost use Rattle.std.specs.Prelude.{◌≡◌, ◌+◌, ◌-◌, ◌%◌, max, Some, if◌then◌else◌, is_some, nat_le};
ghost use Rattle.flash.specs.Programs.{after_program};
ghost use Rattle.flash.specs.Erases.{after_erase};
ghost use Rattle.chip.specs.Flash.{view, block_map_of};
ghost use Rattle.chip.specs.Times.{programmed, erase_time, erased, ended, due, within, lowered, steps};

use crate::chip::Chip;
use crate::state::{Erase, Phase, Program, State};
use flash::{ERASED, Mode, Place};
use geometry::BlockSet;

// Takes n microseconds off those that are left, of which at least one is, and answers none. Where they are over by then, they stay, and are the answer.
fn run_down(left: &mut u32, n: u32) -> Option<u32>
    ensures over { result ≡ within n (Some (max 1 left.old)) }
    ensures rest { left.new ≡ if nat_le (max 1 left.old) n then left.old else left.old - n }
{
    let due = (*left).max(1);
    if due <= n {
        return Some(due);
    }
    *left = left.saturating_sub(n);
    None
}

pub(crate) const READ_MODE: State = State::Ready(Mode::Read, Place::Start);

impl State {
    // Lets n microseconds pass, where the state does not end by itself within them, and answers none. Where it does, it stays as it is, and the answer is
    // how long it lasts.
    fn end_within(&mut self, n: u32) -> Option<u32>
        ensures over { result ≡ within n (due self.old) }
        ensures rest { self.new ≡ if is_some (within n (due self.old)) then self.old else lowered n self.old }
    {
        match self {
            State::Programming(p) => run_down(&mut p.left, n),
            State::Erasing(e) => run_down(&mut e.left, n),
            State::Suspending(_, wait) => run_down(wait, n),
            _ => None,
        }
    }
}

impl Chip {
    // Does to the cells what a program does.
    #[tactic(auto, using(flash::proofs::Cells::length_after_program))]
    pub(crate) fn program(&mut self, p: Program)
        ensures { view self.new ≡ record (view self.old) { cells = after_program (block_map_of (view self.old)) self.old.cells.items p.address p.byte } }
    {
        let map = self.block_map();
        map.program(self.cells.as_mut_slice(), p.address, p.byte);
    }

    fn end_program(&mut self, p: Program)
        ensures { view self.new ≡ programmed (view self.old) p }
    {
        let fails = self
            .block_map()
            .program_fails(self.cells.as_slice(), p.address, p.byte);
        self.program(p);
        self.state = if fails {
            State::Failed(p.byte, p.toggle)
        } else {
            READ_MODE
        };
    }

    fn erase_time(&self, selected: BlockSet) -> u32
        ensures { result ≡ erase_time (view self.now) selected }
    {
        self.block_map().erase_time(self.setup.erase, selected)
    }

    // Does to the cells what an erase has done at its end.
    #[tactic(auto, using(flash::proofs::Cells::length_after_erase))]
    fn erase(&mut self, selected: BlockSet)
        ensures { view self.new ≡ record (view self.old) { cells = after_erase (block_map_of (view self.old)) selected self.old.cells.items } }
    {
        let map = self.block_map();
        map.erase(self.cells.as_mut_slice(), selected);
    }

    fn end_erase(&mut self, e: Erase)
        ensures { view self.new ≡ erased (view self.old) e e.phase }
    {
        match e.phase {
            Phase::Window => {
                let left = self.erase_time(e.selected);
                self.state = State::Erasing(Erase {
                    phase: Phase::Erasing,
                    left,
                    ..e
                });
            }
            Phase::Erasing => {
                let fails = self.block_map().spoils(e.selected);
                self.erase(e.selected);
                self.state = if fails {
                    State::Failed(ERASED, e.toggle)
                } else {
                    READ_MODE
                };
            }
        }
    }

    // Ends what the chip is doing. Most passes end before the state does, and have no part in what its end costs.
    #[inline(never)]
    fn end(&mut self)
        ensures { view self.new ≡ ended (view self.old) self.old.state }
    {
        match self.state {
            State::Programming(p) => self.end_program(p),
            State::Erasing(e) => self.end_erase(e),
            State::Suspending(e, _) => self.state = State::Suspended(e),
            _ => {}
        }
    }

    // Lets n microseconds pass, the count aside: each turn is a whole state, to its end.
    pub(crate) fn run(&mut self, n: u32)
        ensures { view self.new ≡ steps n (view self.old) }
    {
        let mut rest = n;
        while let Some(left) = self.state.end_within(rest) {
            self.end();
            rest -= left;
        }
    }

    // Adds n microseconds to the count.
    pub(crate) fn count(&mut self, n: u32)
        ensures { view self.new ≡ record (view self.old) { clock = (self.old.clock + n) % 4294967296 } }
    {
        self.clock = self.clock.wrapping_add(n);
    }
}
