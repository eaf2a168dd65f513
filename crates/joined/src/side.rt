// One side of a joined part.
ghost use Rattle.std.specs.Prelude.{◌≡◌};
ghost use Rattle.std.specs.Fn.{FnOnceReturnsAtMut};
ghost use Rattle.part.specs.Meaning.{shape_of};

use fault::PartFault;
use geometry::Block;
use part::{Part, Progress, Shape, Turn};

// A part, and what it told last of its shape and its clock, so that it need not be asked again: a side may be a pile itself.
#[derive(Drop)]
pub(crate) struct Side<P: Part> {
    pub(crate) part: P,
    shape: Shape,
    clock: u32,
    ghost told: { shape ≡ shape_of (P.Part.means part) },
    ghost read: { clock ≡ (P.Part.means part).clock },
}

impl<P: Part> Side<P> {
    pub(crate) fn new(part: P) -> Side<P>
        ensures { result.part ≡ part }
    {
        let (shape, clock) = (part.shape(), part.clock());
        Side { part, shape, clock }
    }

    pub(crate) fn into_part(self) -> P
        ensures { result ≡ self.part }
    {
        let Side {
            part,
            shape: _,
            clock: _,
        } = self;
        part
    }

    // Does something to the part, and keeps what it tells then.
    fn act<T, F: FnOnce(&mut P) -> T>(&mut self, act: F) -> T
        requires { F.IsAlwaysCallable act }
        ensures { FnOnceReturnsAtMut F.FnOnce act self.old.part result self.new.part }
    {
        let answer = act(&mut self.part);
        self.shape = self.part.shape();
        self.clock = self.part.clock();
        answer
    }
}

impl<P: Part> Part for Side<P> {
    ghost means = { λ s. P.Part.means s.part };

    ghost lawful = { λ s. P.Part.lawful s.part };

    fn shape(&self) -> Shape {
        self.shape
    }

    fn block(&self, number: u32) -> Option<Block> {
        self.part.block(number)
    }

    fn guarded(&self, block: u32) -> bool {
        self.part.guarded(block)
    }

    fn clock(&self) -> u32 {
        self.clock
    }

    fn peek(&mut self, address: u32) -> Result<u8, PartFault> {
        self.part.peek(address)
    }

    fn burn(&mut self, address: u32, byte: u8) -> Result<(), PartFault> {
        self.act(|part| part.burn(address, byte))
    }

    fn begin(&mut self, block: u32) -> Result<(), PartFault> {
        self.act(|part| part.begin(block))
    }

    fn hold(&mut self) -> Turn {
        self.act(|part| part.hold())
    }

    fn go_on(&mut self) -> Turn {
        self.act(|part| part.go_on())
    }

    fn pass(&mut self, n: u32) -> Result<Progress, PartFault> {
        self.act(|part| part.pass(n))
    }
}
