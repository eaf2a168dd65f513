ghost use Rattle.std.specs.Prelude.{◌≡◌};
ghost use Rattle.words.specs.Lines.{words_of};
ghost use Rattle.wire.specs.Requests.{line_names, words_name};

use chip::Setup;
use naming::{Wrong, ended, take_setup};
use words::{is_printable, next_word};

#[tactic(auto, unfolding(crate::specs::Requests::words_name))]
fn named(line: &[u8]) -> Result<Setup, Wrong>
    ensures { result ≡ words_name (words_of line.now) }
{
    let (word, rest) = next_word(line).ok_or(Wrong::NoPiece)?;
    if word != b"chip".as_slice() {
        return Err(Wrong::UnknownWord);
    }
    let (setup, rest) = take_setup(rest)?;
    ended(setup, rest)
}

/// The chip that the first line names: `chip`, its geometry, its times and its masks; or the first thing that is wrong with the line.
#[tactic(auto, unfolding(crate::specs::Requests::line_names))]
pub fn chip_named(line: &[u8]) -> Result<Setup, Wrong>
    ensures { result ≡ line_names line.now }
{
    if is_printable(line) {
        named(line)
    } else {
        Err(Wrong::NotPrintable)
    }
}
