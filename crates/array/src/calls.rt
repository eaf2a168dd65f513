// The array's calls as a part.
ghost use Rattle.std.specs.Prelude.{◌≡◌, ◌+◌, ◌%◌, OnOk};
ghost use Rattle.array.specs.Means.{means as meaning};
ghost use Rattle.part.specs.Calls.{answer, burn_no, Burnt, can_hold, can_go, Held};
ghost use Rattle.array.specs.ProofOfLawful;

use crate::array::Array;
use fault::{PartFault, time_no};
use geometry::Block;
use part::{Part, Progress, Shape, Standing, Turn, granted};

// hold and go_on mirror one another, here and in the driver; one function for both would take what to do as a closure, and be no plainer.
impl Part for Array {
    ghost means = { meaning };

    ghost lawful = { λ s. ProofOfLawful.lawful s };

    #[tactic(auto, using(crate::proofs::Rules::array_rules))]
    fn shape(&self) -> Shape {
        Shape {
            size: self.size(),
            blocks: self.layout.count,
            standing: self.standing,
        }
    }

    #[tactic(auto, using(crate::proofs::Rules::array_rules))]
    fn block(&self, number: u32) -> Option<Block> {
        (number < self.layout.count).then(|| self.layout.block(number))
    }

    #[tactic(auto, using(crate::proofs::Rules::array_rules))]
    fn guarded(&self, _block: u32) -> bool {
        false
    }

    fn clock(&self) -> u32 {
        self.clock
    }

    fn peek(&mut self, address: u32) -> Result<u8, PartFault> {
        granted(self.peek_no(address), address)?;
        Ok(self.cell(address))
    }

    // An array burns in 1 microsecond, which the part's own clauses leave open.
    fn burn(&mut self, address: u32, byte: u8) -> Result<(), PartFault>
        ensures answer { result ≡ answer (burn_no (meaning self.old) address byte) address tt }
        ensures burnt { Burnt (meaning self.old) address byte (meaning self.new) }
        ensures time { OnOk result ((meaning self.new).clock ≡ ((meaning self.old).clock + 1) % 4294967296) }
    {
        granted(self.burn_no(address, byte), address)?;
        self.put(address, byte);
        self.count_time(1);
        Ok(())
    }

    #[tactic(auto, using(crate::proofs::Rules::array_rules, part::proofs::Standings::begin_no_is))]
    fn begin(&mut self, block: u32) -> Result<(), PartFault> {
        granted(self.shape().begin_no(block, false), block)?;
        self.stand(Standing::Running(block));
        Ok(())
    }

    // An array is held in no time.
    #[tactic(auto, using(crate::proofs::Facts::held_running))]
    fn hold(&mut self) -> Turn
        ensures answer { result ≡ can_hold (meaning self.old).erasure }
        ensures held { Held (meaning self.old) (meaning self.new) }
        ensures time { (meaning self.new).clock ≡ (meaning self.old).clock }
    {
        match self.standing {
            Standing::Running(block) => {
                self.stand(Standing::Suspended(block));
                Turn::Done
            }
            _ => Turn::Nothing,
        }
    }

    fn go_on(&mut self) -> Turn {
        match self.standing {
            Standing::Suspended(block) => {
                self.stand(Standing::Running(block));
                Turn::Done
            }
            _ => Turn::Nothing,
        }
    }

    fn pass(&mut self, n: u32) -> Result<Progress, PartFault> {
        granted(time_no(n), n)?;
        let progress = self.run(n);
        self.count_time(n);
        Ok(progress)
    }
}
