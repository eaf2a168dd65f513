// Time on a part that is not busy itself, while another is: its neighbour in a joined part, or one on the same supply.
ghost use Rattle.std.specs.Prelude.{◌≡◌};
ghost use Rattle.part.specs.Calls.{passed, progress};
ghost use Rattle.part.specs.Neighbours.{elapsed, found_then};

use crate::answers::Progress;
use crate::part::Part;
use fault::LONGEST;

impl Progress {
    // What two passes in a row found, as one.
    fn then(self, later: Progress) -> Progress
        ensures { result ≡ found_then self later }
    {
        match self {
            Progress::Finished | Progress::Worn => self,
            _ => later,
        }
    }
}

/// Lets n microseconds pass on a part, however many they are, and says what became of its erasure. A time over the longest of one call goes by several.
pub fn let_pass<P: Part>(part: &mut P, n: u32) -> Progress
    ensures answer { result ≡ progress (P.Part.means part.old) n (P.Part.means part.old).erasure }
    ensures passed { P.Part.means part.new ≡ passed (P.Part.means part.old) n }
{
    let mut rest = n - n.min(LONGEST);
    let mut found = part.pass(n.min(LONGEST)).unwrap();
    while rest > 0 {
        let some = rest.min(LONGEST);
        found = found.then(part.pass(some).unwrap());
        rest -= some;
    }
    found
}

/// Lets pass on an idle part what the clock of a busy one has moved since it read `before`, and says what became of the idle one's erasure.
pub fn catch_up<P: Part, Q: Part>(idle: &mut Q, busy: &P, before: u32) -> Progress
    ensures answer { let n = elapsed before (P.Part.means busy.now).clock in result ≡ progress (Q.Part.means idle.old) n (Q.Part.means idle.old).erasure }
    ensures passed { Q.Part.means idle.new ≡ passed (Q.Part.means idle.old) (elapsed before (P.Part.means busy.now).clock) }
{
    let_pass(idle, busy.clock().wrapping_sub(before))
}
