// A line of an account, and how it comes about.
ghost use Rattle.part.specs.Meaning.{Lawful};
ghost use Rattle.rehearsal.specs.Accounts.{Answers, Plays};

use crate::account::Seats;
use console::{Answer, Call, Console};
use fault::ConsoleFault;
use part::Part;

/// What a console answered when it was opened, or to a call, and the part's clock before and after it.
#[derive(Clone, Copy)]
pub struct Line {
    pub before: u32,
    pub after: u32,
    pub reply: Result<Answer, ConsoleFault>,
}

// What is made on a console in a rehearsal: its opening, or a call of the list.
#[derive(Clone, Copy)]
pub(crate) enum Act {
    Open(Seats),
    Call(Call),
}

impl Act {
    fn make<P: Part + Drop>(self, console: &mut Console<P>) -> Result<Answer, ConsoleFault>
        ensures { Answers console.old self result console.new }
    {
        match self {
            Act::Open(on) => console.open(on.first, on.second),
            Act::Call(call) => console.perform(call),
        }
    }

    // Makes it, and reads the clock before and after.
    pub(crate) fn play<P: Part + Drop>(self, console: &mut Console<P>) -> Line
        ensures plays { Plays console.old self result console.new }
        ensures lawful { Lawful console.old.part }
    {
        let before = console.clock();
        let reply = self.make(console);
        Line {
            before,
            after: console.clock(),
            reply,
        }
    }
}
