// A line of an account.
ghost use Rattle.std.specs.Prelude.{◌≡◌, ◌++◌, ◌↔◌, IsTrue, IfOk, OnOk};
ghost use Rattle.words.specs.Lines.{uncommented, words_of};
ghost use Rattle.script.specs.Account.{line_text, total_text};
ghost use Rattle.script.specs.Alike.{SameReply};

use crate::answers::Verdict;
use crate::replies::Reply;
use std::alloc::{AllocError, Global};
use std::fmt::Write;
use words::{push_words, uncommented};

// Room for the two answers of most lines, so that they are written without asking for more memory.
const ROOM: usize = 128;

/// Writes a line of an account: the words of a request as they are written, what both consoles answered, and whether it is the same,
/// which it gives back too.
pub fn push_line(
    heap: Global,
    out: &mut Vec<u8>,
    line: &[u8],
    quick: Reply,
    slow: Reply,
) -> Result<bool, AllocError>
    ensures same { IfOk result (λ same. IsTrue same ↔ SameReply quick slow) }
    ensures text { IfOk result (λ same. out.new.items ≡ out.old.items ++ line_text (words_of (uncommented line.now)) quick slow same) }
{
    push_words(out, uncommented(line))?;
    let same = quick.is_same(slow);
    let verdict = Verdict(same);
    let mut answers = String::with_capacity(heap, ROOM)?;
    write!(answers, ": {quick} | {slow} | {verdict}\n")?;
    out.extend_from_slice(answers.as_bytes())?;
    Ok(same)
}

/// Writes the last line of an account: how many calls there were, and how many of them were answered the same.
pub fn push_total(heap: Global, out: &mut Vec<u8>, calls: u64, same: u64) -> Result<(), AllocError>
    ensures { OnOk result (out.new.items ≡ out.old.items ++ total_text calls same) }
{
    let different = calls.saturating_sub(same);
    let total = format!(in heap; "{calls} calls, {same} same, {different} different\n")?;
    out.extend_from_slice(total.as_bytes())
}
