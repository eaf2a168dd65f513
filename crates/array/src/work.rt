// What a burn, an erasure and time do to an array.
ghost use Rattle.std.specs.Prelude.{◌≡◌, ◌<◌, true, slice_set};
ghost use Rattle.geometry.specs.Blocks.{wiped};
ghost use Rattle.part.specs.Meaning.{with_cells, with_erasure, ticked};
ghost use Rattle.part.specs.Calls.{run_on, progress};
ghost use Rattle.array.specs.Means.{erasure_of, means};
ghost use Rattle.array.specs.Limits.{in_blocks};

use crate::array::Array;
use part::{Progress, Standing};

impl Array {
    pub(crate) fn put(&mut self, address: u32, byte: u8)
        ensures { means self.new ≡ with_cells (means self.old) (slice_set self.old.cells.items address byte) }
    {
        if let Some(cell) = self.cells.get_mut(address as usize) {
            *cell = byte;
        }
    }

    // Moves the clock by n microseconds.
    pub(crate) fn count_time(&mut self, n: u32)
        ensures { means self.new ≡ ticked (means self.old) n }
    {
        self.clock = self.clock.wrapping_add(n);
    }

    // Another erasure stands, or none.
    pub(crate) fn stand(&mut self, standing: Standing)
        requires { in_blocks standing self.old.layout.count ≡ true }
        ensures { means self.new ≡ with_erasure (means self.old) (erasure_of standing) }
    {
        self.standing = standing;
    }

    // The block becomes FFh throughout.
    fn wipe(&mut self, block: u32)
        requires { block < self.old.layout.count }
        ensures { means self.new ≡ with_cells (means self.old) (wiped (means self.old).sizes block 0xFF self.old.cells.items) }
    {
        self.layout
            .block(block)
            .fill(self.cells.as_mut_slice(), 0xFF);
    }

    // Lets n microseconds pass on a running erasure, the clock aside.
    #[tactic(auto, using(crate::proofs::Facts::ended))]
    pub(crate) fn run(&mut self, n: u32) -> Progress
        ensures answer { result ≡ progress (means self.old) n (means self.old).erasure }
        ensures ran { means self.new ≡ run_on (means self.old) n (means self.old).erasure }
    {
        match self.standing {
            Standing::Idle => Progress::Idle,
            Standing::Suspended(_) => Progress::Suspended,
            Standing::Running(_) if n == 0 => Progress::Running,
            Standing::Running(block) => {
                self.wipe(block);
                self.stand(Standing::Idle);
                Progress::Finished
            }
        }
    }
}
