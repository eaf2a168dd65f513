ghost use Rattle.std.specs.Prelude.{◌≡◌};
ghost use Rattle.driver.specs.Status.{judged};
ghost use Rattle.driver.specs.Steps.{progress_of, stands_after};

use part::{Progress, Standing};

/// What a status read says of an operation.
#[derive(Clone, Copy, Debug, PartialEq, Eq)]
pub enum Verdict {
    Busy,
    Done,
    Failed,
}

// Judges a read during an operation that is to leave `wanted` in the cell. Bits by division, as the definitions have them: with masks it is not found.
pub(crate) fn judge(seen: u8, wanted: u8) -> Verdict
    ensures { result ≡ judged seen wanted }
{
    if seen / 128 == wanted / 128 {
        Verdict::Done
    } else if seen / 32 % 2 == 1 {
        Verdict::Failed
    } else {
        Verdict::Busy
    }
}

// What a look at the end of a pass tells of the erasure.
impl From<Verdict> for Progress {
    ghost from_gives = { λ v r. r ≡ progress_of v };

    fn from(verdict: Verdict) -> Progress {
        match verdict {
            Verdict::Busy => Progress::Running,
            Verdict::Done => Progress::Finished,
            Verdict::Failed => Progress::Worn,
        }
    }
}

// What the driver knows of the erasure of a block after a look at it.
pub(crate) fn stands_after(block: u32, verdict: Verdict) -> Standing
    ensures { result ≡ stands_after block verdict }
{
    if verdict == Verdict::Busy {
        Standing::Running(block)
    } else {
        Standing::Idle
    }
}
