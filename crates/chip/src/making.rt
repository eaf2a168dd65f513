// The making of a chip.
ghost use Rattle.std.specs.Prelude.{◌≡◌, true, vec_len};
ghost use Rattle.geometry.specs.Plans.{plan_of};
ghost use Rattle.chip.specs.Setups.{in_limits};
ghost use Rattle.chip.specs.Flash.{view};
ghost use Rattle.chip.specs.Making.{fresh, made, MadeOn, MadeBlank};
ghost use Rattle.chip.specs.Laws.{AllSound};
ghost use Rattle.chip.specs.Runs.{RunLaws};
ghost use Rattle.chip.specs.Examples.{WorkedExamples, IdentityExamples};

use crate::chip::Chip;
use crate::setup::{NO_CHIP, Setup, fitting};
use crate::time::READ_MODE;
use crate::unmade::Unmade;
use fault::ChipFault;
use std::alloc::Global;

impl Chip {
    // A chip in read mode on which no time has passed.
    fn fresh(setup: Setup, cells: Vec<u8>) -> Chip
        requires { (in_limits setup ≡ true) × (vec_len cells ≡ (plan_of setup.kind).size) }
        ensures { view result ≡ fresh setup cells.items }
    {
        Chip {
            setup,
            cells,
            state: READ_MODE,
            clock: 0,
        }
    }

    /// A chip on this memory; a dead one, of size 0, where `Setup::check` refuses it.
    #[tactic(auto, using(crate::proofs::PassLaws::all_sound, crate::proofs::RunLaws::run_laws, crate::proofs::Worked::worked_examples, crate::proofs::Worked::identity_examples), unfolding(crate::specs::Making::made))]
    pub fn new(setup: Setup, mut memory: Vec<u8>) -> Chip
        ensures chip { view result ≡ made setup memory.items }
        ensures sound { AllSound }
        ensures runs { RunLaws }
        ensures examples { WorkedExamples }
        ensures codes { IdentityExamples }
    {
        if setup.fits(memory.len()) {
            return Chip::fresh(setup, memory);
        }
        memory.clear();
        Chip::fresh(NO_CHIP, memory)
    }

    /// A chip on this memory, or the refusal of `Setup::check`.
    #[tactic(auto, unfolding(crate::specs::Making::made))]
    pub fn on(setup: Setup, memory: Vec<u8>) -> Result<Chip, ChipFault>
        ensures { MadeOn setup memory.items result }
    {
        setup.check(memory.as_slice())?;
        Ok(Chip::new(setup, memory))
    }

    /// A chip as it comes from the factory, FFh throughout. Unfit numbers are refused before memory is asked for.
    #[tactic(auto, unfolding(crate::specs::Making::made))]
    pub fn blank(heap: Global, setup: Setup) -> Result<Chip, Unmade>
        ensures { MadeBlank setup result }
    {
        let size = setup.size();
        fitting(setup.fits(size))?;
        let memory = vec![in heap; 0xFFu8; size]?;
        Ok(Chip::new(setup, memory))
    }
}
