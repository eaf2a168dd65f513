// The calls of a list as one.
ghost use Rattle.console.specs.Calls.{Replies};

use crate::answers::Answer;
use crate::console::Console;
use book::Fetched;
use fault::ConsoleFault;
use part::Part;

/// The calls that a list may have.
#[derive(Clone, Copy, Debug, PartialEq, Eq)]
pub enum Call {
    Set { position: u32, stops: u64 },
    Clear { position: u32 },
    Recall { position: u32 },
    Next { position: u32 },
    Wait { us: u32 },
}

impl<P: Part + Drop> Console<P> {
    /// Makes one call of a list.
    pub fn perform(&mut self, call: Call) -> Result<Answer, ConsoleFault>
        ensures { Replies self.old call result self.new }
    {
        match call {
            Call::Set { position, stops } => self.set(position, stops),
            Call::Clear { position } => self.clear(position),
            Call::Recall { position } => self.recall(position, &mut Fetched::none()),
            Call::Next { position } => self.next(position, &mut Fetched::none()),
            Call::Wait { us } => self.wait(us),
        }
    }
}
