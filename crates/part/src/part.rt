ghost use Rattle.std.specs.Prelude.{◌≡◌};
ghost use Rattle.part.specs.Meaning.{Meaning, Lawful, cell, guarded, shape_of};
ghost use Rattle.part.specs.Calls.{answer, peek_no, burn_no, begin_no, time_no, Burnt, Begun, Held, can_hold, can_go, gone_on, progress, after_pass, block_at};

use crate::answers::{Progress, Shape, Turn};
use fault::PartFault;
use geometry::Block;

pub trait Part {
    ghost means: { Self → Meaning };

    /// How large the part is, and which erasure stands. It moves nothing.
    fn shape(&self) -> Shape
        ensures { result ≡ shape_of (means self.now) };

    /// Where a block begins and how many bytes it has; none where there is no such block.
    fn block(&self, number: u32) -> Option<Block>
        ensures { result ≡ block_at (means self.now) number };

    /// Whether a block is guarded: it can be neither burnt nor erased.
    fn guarded(&self, block: u32) -> bool
        ensures { result ≡ guarded (means self.now) block };

    /// The microseconds that have passed, modulo 4,294,967,296.
    fn clock(&self) -> u32
        ensures { result ≡ (means self.now).clock };

    /// Gives a cell. It is refused while an erasure runs, and in its block while it is suspended.
    fn peek(&mut self, address: u32) -> Result<u8, PartFault>
        ensures answer { result ≡ answer (peek_no (means self.old) address) address (cell (means self.old) address) }
        ensures same { means self.new ≡ means self.old };

    /// Burns a byte into a cell, which can only turn bits from 1 to 0.
    fn burn(&mut self, address: u32, byte: u8) -> Result<(), PartFault>
        ensures answer { result ≡ answer (burn_no (means self.old) address byte) address tt }
        ensures burnt { Burnt (means self.old) address byte (means self.new) };

    /// Begins the erasure of a block.
    fn begin(&mut self, block: u32) -> Result<(), PartFault>
        ensures answer { result ≡ answer (begin_no (means self.old) block) block tt }
        ensures begun { Begun (means self.old) block (means self.new) };

    /// Holds a running erasure: it stands still, and cells outside its block can be peeked.
    fn hold(&mut self) -> Turn
        ensures answer { result ≡ can_hold (means self.old).erasure }
        ensures held { Held (means self.old) (means self.new) };

    /// Lets a held erasure go on.
    fn go_on(&mut self) -> Turn
        ensures answer { result ≡ can_go (means self.old).erasure }
        ensures gone { means self.new ≡ gone_on (means self.old) };

    /// Lets n microseconds pass, and says what became of the erasure.
    fn pass(&mut self, n: u32) -> Result<Progress, PartFault>
        ensures answer { result ≡ answer (time_no n) n (progress (means self.old) n (means self.old).erasure) }
        ensures passed { means self.new ≡ after_pass (means self.old) n };

    ghost lawful: { (s : Self) → Lawful (means s) };
}
