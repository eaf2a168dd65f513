// Waiting.
ghost use Rattle.std.specs.Prelude.{◌≡◌};
ghost use Rattle.part.specs.Calls.{progress, passed};
ghost use Rattle.console.specs.Waiting.{let_end, ends_worn, is_worn, Waits};

use crate::answers::{Answer, Said};
use crate::console::Console;
use crate::faults::refused;
use fault::{Cause, ConsoleFault};
use part::{Part, Progress, Standing};

// The microseconds of one pass in which an erasure is waited for.
const PASS: u32 = 1_000;

// Whether a pass ended an erasure as worn.
fn ended_worn(progress: Progress) -> bool
    ensures { result ≡ is_worn progress }
{
    matches!(progress, Progress::Worn)
}

// One pass in which an erasure is waited for. It is short enough never to be refused.
fn pass_once<P: Part>(part: &mut P) -> Progress
    ensures answer { result ≡ progress (P.Part.means part.old) 1000 (P.Part.means part.old).erasure }
    ensures passed { P.Part.means part.new ≡ passed (P.Part.means part.old) 1000 }
{
    part.pass(PASS).unwrap()
}

// Lets a running erasure end, and answers whether it ended as worn.
pub(crate) fn let_end<P: Part>(part: &mut P) -> bool
    ensures answer { result ≡ ends_worn (P.Part.means part.old) }
    ensures ended { P.Part.means part.new ≡ let_end (P.Part.means part.old) }
{
    let Standing::Running(_) = part.shape().standing else {
        return false;
    };
    loop {
        match pass_once(part) {
            Progress::Running => {}
            ended => return ended_worn(ended),
        }
    }
}

impl<P: Part + Drop> Console<P> {
    /// Lets n microseconds pass, and reports them. A book whose erasure ends as worn in this time is spoilt.
    pub fn wait(&mut self, us: u32) -> Result<Answer, ConsoleFault>
        ensures { Waits self.old us result self.new }
    {
        let books = self.books.ok_or(refused(Cause::OutOfTurn, 0))?;
        let before = self.part.clock();
        let progress = self.part.pass(us)?;
        self.books = Some(books.spoilt_if(ended_worn(progress)));
        Ok(Answer {
            said: Said::Done,
            us: self.since(before),
        })
    }
}
