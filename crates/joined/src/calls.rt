// The joined part's calls as a part. Each says what it does to the whole, as every part does, and what it does to the two sides.
ghost use Rattle.std.specs.Prelude.{◌≡◌};
ghost use Rattle.part.specs.Meaning.{cell};
ghost use Rattle.part.specs.Calls.{answer, peek_no, burn_no, begin_no, time_no, Burnt, Begun, Held, can_hold, can_go, gone_on, progress, after_pass};
ghost use Rattle.part.specs.Laws.{look, burn, begin, hold, go_on, pass};
ghost use Rattle.joined.specs.Pile.{joined as meaning};
ghost use Rattle.joined.specs.Sides.{Called, whole_of};
ghost use Rattle.joined.specs.ProofOfLawful.{lawful_joined};

use crate::aim::Aim;
use crate::joined::{Joined, TwoSided};
use crate::sides::{beside, either, placed};
use fault::PartFault;
use geometry::Block;
use part::{Part, Progress, Shape, Standing, Turn};

impl<P: Part, Q: Part> Part for Joined<P, Q> {
    ghost means = { λ s. meaning s.live (P.Part.means s.first.part) (Q.Part.means s.second.part) };

    ghost lawful = { λ s. lawful_joined s.live (P.Part.means s.first.part) (Q.Part.means s.second.part) (P.Part.lawful s.first.part) (Q.Part.lawful s.second.part) s.fit };

    fn shape(&self) -> Shape {
        match self.shapes() {
            None => Shape {
                size: 0,
                blocks: 0,
                standing: Standing::Idle,
            },
            Some((first, second)) => Shape {
                size: first.size + second.size,
                blocks: first.blocks + second.blocks,
                standing: either(first.standing, second.standing, first.blocks),
            },
        }
    }

    fn block(&self, number: u32) -> Option<Block> {
        let (first, _) = self.shapes()?;
        if number < first.blocks {
            self.first.block(number)
        } else {
            self.second.block(number - first.blocks).map(|block| Block {
                start: first.size + block.start,
                ..block
            })
        }
    }

    fn guarded(&self, block: u32) -> bool {
        let Some((first, _)) = self.shapes() else {
            return false;
        };
        if block < first.blocks {
            self.first.guarded(block)
        } else {
            self.second.guarded(block - first.blocks)
        }
    }

    fn clock(&self) -> u32 {
        self.first.clock()
    }

    fn peek(&mut self, address: u32) -> Result<u8, PartFault>
        ensures answer { let m = whole_of (⟦<Self as TwoSided>⟧.sides self.old) in result ≡ answer (peek_no m address) address (cell m address) }
        ensures same { whole_of (⟦<Self as TwoSided>⟧.sides self.new) ≡ whole_of (⟦<Self as TwoSided>⟧.sides self.old) }
        ensures sides { Called (⟦<Self as TwoSided>⟧.sides self.old) look (⟦<Self as TwoSided>⟧.sides self.new) }
    {
        match self.peek_aim(address)? {
            Aim::First => self.first.peek(address),
            Aim::Second(inner) => placed(self.second.peek(inner), address),
        }
    }

    fn burn(&mut self, address: u32, byte: u8) -> Result<(), PartFault>
        ensures answer { result ≡ answer (burn_no (whole_of (⟦<Self as TwoSided>⟧.sides self.old)) address byte) address tt }
        ensures burnt { Burnt (whole_of (⟦<Self as TwoSided>⟧.sides self.old)) address byte (whole_of (⟦<Self as TwoSided>⟧.sides self.new)) }
        ensures sides { Called (⟦<Self as TwoSided>⟧.sides self.old) (burn address byte) (⟦<Self as TwoSided>⟧.sides self.new) }
    {
        match self.burn_aim(address)? {
            Aim::First => beside(
                &mut self.first,
                &mut self.second,
                |side| side.burn(address, byte),
            ),
            Aim::Second(inner) => beside(
                &mut self.second,
                &mut self.first,
                |side| placed(side.burn(inner, byte), address),
            ),
        }
    }

    fn begin(&mut self, block: u32) -> Result<(), PartFault>
        ensures answer { result ≡ answer (begin_no (whole_of (⟦<Self as TwoSided>⟧.sides self.old)) block) block tt }
        ensures begun { Begun (whole_of (⟦<Self as TwoSided>⟧.sides self.old)) block (whole_of (⟦<Self as TwoSided>⟧.sides self.new)) }
        ensures sides { Called (⟦<Self as TwoSided>⟧.sides self.old) (begin block) (⟦<Self as TwoSided>⟧.sides self.new) }
    {
        match self.begin_aim(block)? {
            Aim::First => self.first.begin(block),
            Aim::Second(inner) => placed(self.second.begin(inner), block),
        }
    }

    fn hold(&mut self) -> Turn
        ensures answer { result ≡ can_hold (whole_of (⟦<Self as TwoSided>⟧.sides self.old)).erasure }
        ensures held { Held (whole_of (⟦<Self as TwoSided>⟧.sides self.old)) (whole_of (⟦<Self as TwoSided>⟧.sides self.new)) }
        ensures sides { Called (⟦<Self as TwoSided>⟧.sides self.old) hold (⟦<Self as TwoSided>⟧.sides self.new) }
    {
        let Some((first, _)) = self.shapes() else {
            return Turn::Nothing;
        };
        if first.standing.stands() {
            beside(&mut self.first, &mut self.second, |side| side.hold())
        } else {
            beside(&mut self.second, &mut self.first, |side| side.hold())
        }
    }

    fn go_on(&mut self) -> Turn
        ensures answer { result ≡ can_go (whole_of (⟦<Self as TwoSided>⟧.sides self.old)).erasure }
        ensures gone { whole_of (⟦<Self as TwoSided>⟧.sides self.new) ≡ gone_on (whole_of (⟦<Self as TwoSided>⟧.sides self.old)) }
        ensures sides { Called (⟦<Self as TwoSided>⟧.sides self.old) go_on (⟦<Self as TwoSided>⟧.sides self.new) }
    {
        let Some((first, _)) = self.shapes() else {
            return Turn::Nothing;
        };
        if first.standing.stands() {
            self.first.go_on()
        } else {
            self.second.go_on()
        }
    }

    // Time passes on both sides of a dead one too.
    fn pass(&mut self, n: u32) -> Result<Progress, PartFault>
        ensures answer { let m = whole_of (⟦<Self as TwoSided>⟧.sides self.old) in result ≡ answer (time_no n) n (progress m n m.erasure) }
        ensures passed { whole_of (⟦<Self as TwoSided>⟧.sides self.new) ≡ after_pass (whole_of (⟦<Self as TwoSided>⟧.sides self.old)) n }
        ensures sides { Called (⟦<Self as TwoSided>⟧.sides self.old) (pass n) (⟦<Self as TwoSided>⟧.sides self.new) }
    {
        let asked = self.shapes();
        let before = self.first.pass(n)?;
        let behind = self.second.pass(n)?;
        Ok(match asked {
            None => Progress::Idle,
            Some((first, _)) if first.standing.stands() => before,
            Some(_) => behind,
        })
    }
}
