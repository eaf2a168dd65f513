use fault::PartFault;
use geometry::Block;
use part::{Part, Progress, Shape, Turn};

/// One of two kinds of part, again a part: each call is the call of the part that it is.
#[derive(Drop)]
pub enum OneOf<P, Q> {
    Left(P),
    Right(Q),
}

impl<P: Part + Drop, Q: Part + Drop> Part for OneOf<P, Q> {
    ghost use Rattle.pile.specs.declared.one_of.OneOf.TheVariants.{Left, Right};

    ghost means = { elim [ Left p ↦ P.Part.means p | Right q ↦ Q.Part.means q ] };

    ghost lawful = { elim [ Left p ↦ P.Part.lawful p | Right q ↦ Q.Part.lawful q ] };

    fn shape(&self) -> Shape {
        match self {
            OneOf::Left(part) => part.shape(),
            OneOf::Right(part) => part.shape(),
        }
    }

    fn block(&self, number: u32) -> Option<Block> {
        match self {
            OneOf::Left(part) => part.block(number),
            OneOf::Right(part) => part.block(number),
        }
    }

    fn guarded(&self, block: u32) -> bool {
        match self {
            OneOf::Left(part) => part.guarded(block),
            OneOf::Right(part) => part.guarded(block),
        }
    }

    fn clock(&self) -> u32 {
        match self {
            OneOf::Left(part) => part.clock(),
            OneOf::Right(part) => part.clock(),
        }
    }

    fn peek(&mut self, address: u32) -> Result<u8, PartFault> {
        match self {
            OneOf::Left(part) => part.peek(address),
            OneOf::Right(part) => part.peek(address),
        }
    }

    fn burn(&mut self, address: u32, byte: u8) -> Result<(), PartFault> {
        match self {
            OneOf::Left(part) => part.burn(address, byte),
            OneOf::Right(part) => part.burn(address, byte),
        }
    }

    fn begin(&mut self, block: u32) -> Result<(), PartFault> {
        match self {
            OneOf::Left(part) => part.begin(block),
            OneOf::Right(part) => part.begin(block),
        }
    }

    fn hold(&mut self) -> Turn {
        match self {
            OneOf::Left(part) => part.hold(),
            OneOf::Right(part) => part.hold(),
        }
    }

    fn go_on(&mut self) -> Turn {
        match self {
            OneOf::Left(part) => part.go_on(),
            OneOf::Right(part) => part.go_on(),
        }
    }

    fn pass(&mut self, n: u32) -> Result<Progress, PartFault> {
        match self {
            OneOf::Left(part) => part.pass(n),
            OneOf::Right(part) => part.pass(n),
        }
    }
}
