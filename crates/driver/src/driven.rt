// A chip of any family as a part.
ghost use Rattle.std.specs.Prelude.{◌≡◌};
ghost use Rattle.driver.specs.Rig.{Rig, meaning};
ghost use Rattle.driver.specs.Calls.{Peeks, Burns, Begins, Holds, GoesOn, Waits};

use crate::bus::Bus;
use crate::seat::Seat;
use fault::PartFault;
use geometry::Block;
use part::{Part, Progress, Shape, Turn};

/// A chip under its driver. The driver never looks into the chip. No `impl Model`: what it means is `means` of the trait `Part`.
#[derive(Drop)]
pub struct Driven<S> {
    pub(crate) seat: S,
}

/// What a driven chip is to its driver, for the contracts of its calls.
pub trait Rigged {
    ghost rig: { Self → Rig };
}

impl<S: Seat> Rigged for Driven<S> {
    ghost rig = { λ s. S.Seat.rig s.seat };
}

impl<S: Seat + Drop> Driven<S> {
    /// A driven chip of what a family has taken.
    pub fn new(seat: S) -> Driven<S>
        ensures chip { ⟦<Driven<S> as Rigged>⟧.rig result ≡ S.Seat.rig seat }
        ensures part { ⟦<Driven<S> as Part>⟧.means result ≡ meaning (S.Seat.rig seat) }
    {
        Driven { seat }
    }
}

impl<S: Seat + Drop> Part for Driven<S> {
    ghost use Rattle.driver.specs.ProofOfLawful;

    ghost means = { λ s. meaning (S.Seat.rig s.seat) };

    ghost lawful = { λ s. ProofOfLawful.lawful (S.Seat.rig s.seat) (S.Seat.notes s.seat) (S.Seat.sound s.seat) (S.Seat.tied s.seat) };

    fn shape(&self) -> Shape {
        Shape {
            size: self.seat.bus().size(),
            blocks: self.seat.bus().count(),
            standing: self.seat.notes().standing,
        }
    }

    fn block(&self, number: u32) -> Option<Block> {
        self.seat.bus().block(number)
    }

    fn guarded(&self, block: u32) -> bool {
        self.seat.notes().guards(block)
    }

    fn clock(&self) -> u32 {
        self.seat.bus().clock()
    }

    fn peek(&mut self, address: u32) -> Result<u8, PartFault>
        ensures { Peeks (⟦<Driven<S> as Rigged>⟧.rig self.old) address result (⟦<Driven<S> as Rigged>⟧.rig self.new) }
    {
        self.seat.peek(address)
    }

    // It takes the chip's own program time, which the part's clauses leave open; 300 microseconds where the block is worn.
    fn burn(&mut self, address: u32, byte: u8) -> Result<(), PartFault>
        ensures { Burns (⟦<Driven<S> as Rigged>⟧.rig self.old) address byte result (⟦<Driven<S> as Rigged>⟧.rig self.new) }
    {
        self.seat.burn(address, byte)
    }

    // It begins with the window and the chip's own erase time, or with the window and 10,000,000 microseconds in a worn block.
    fn begin(&mut self, block: u32) -> Result<(), PartFault>
        ensures { Begins (⟦<Driven<S> as Rigged>⟧.rig self.old) block result (⟦<Driven<S> as Rigged>⟧.rig self.new) }
    {
        self.seat.begin(block)
    }

    // It takes the chip's own suspend time, or none where there is nothing to hold.
    fn hold(&mut self) -> Turn
        ensures { Holds (⟦<Driven<S> as Rigged>⟧.rig self.old) result (⟦<Driven<S> as Rigged>⟧.rig self.new) }
    {
        self.seat.hold()
    }

    fn go_on(&mut self) -> Turn
        ensures { GoesOn (⟦<Driven<S> as Rigged>⟧.rig self.old) result (⟦<Driven<S> as Rigged>⟧.rig self.new) }
    {
        self.seat.go_on()
    }

    fn pass(&mut self, n: u32) -> Result<Progress, PartFault>
        ensures { Waits (⟦<Driven<S> as Rigged>⟧.rig self.old) n result (⟦<Driven<S> as Rigged>⟧.rig self.new) }
    {
        self.seat.pass(n)
    }
}
