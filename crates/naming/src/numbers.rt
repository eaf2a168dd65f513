// Numbers of three sizes, and the end of a line.
ghost use Rattle.std.specs.Prelude.{◌≡◌, ◌≤◌, IfOk};
ghost use Rattle.words.specs.Lines.{words_of};
ghost use Rattle.naming.specs.Taking.{Gives, number_at, byte_at, small_at, large_at, ended};

use crate::wrong::Wrong;
use words::{next_word, number};

// A number up to a limit.
#[tactic(auto, unfolding(crate::specs::Taking::number_at))]
fn take_number(line: &[u8], most: u64) -> Result<(u64, &[u8]), Wrong>
    ensures value { Gives (λ x. (x.0, words_of x.1.now)) result (number_at most (words_of line.now)) }
    ensures within { IfOk result (λ x. x.0 ≤ most) }
{
    let (word, rest) = next_word(line).ok_or(Wrong::NoNumber)?;
    let n = number(word, most).ok_or(Wrong::BadNumber)?;
    Ok((n, rest))
}

/// The number that a line begins with, up to 255.
pub fn take_u8(line: &[u8]) -> Result<(u8, &[u8]), Wrong>
    ensures { Gives (λ x. (x.0, words_of x.1.now)) result (byte_at (words_of line.now)) }
{
    let (n, rest) = take_number(line, u64::from(u8::MAX))?;
    Ok((n as u8, rest))
}

/// The number that a line begins with, of 32 bits.
pub fn take_u32(line: &[u8]) -> Result<(u32, &[u8]), Wrong>
    ensures { Gives (λ x. (x.0, words_of x.1.now)) result (small_at (words_of line.now)) }
{
    let (n, rest) = take_number(line, u64::from(u32::MAX))?;
    Ok((n as u32, rest))
}

/// The number that a line begins with, of 64 bits.
pub fn take_u64(line: &[u8]) -> Result<(u64, &[u8]), Wrong>
    ensures { Gives (λ x. (x.0, words_of x.1.now)) result (large_at (words_of line.now)) }
{
    take_number(line, u64::MAX)
}

/// The value, if nothing is left of the line.
pub fn ended<T: Drop>(value: T, line: &[u8]) -> Result<T, Wrong>
    ensures { result ≡ ended value (words_of line.now) }
{
    match next_word(line) {
        None => Ok(value),
        Some(_) => Err(Wrong::TooManyWords),
    }
}
