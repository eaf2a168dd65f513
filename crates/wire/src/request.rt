ghost use Rattle.std.specs.Prelude.{◌≡◌};
ghost use Rattle.words.specs.Lines.{words_of};
ghost use Rattle.wire.specs.Requests.{line_asks, words_ask, rest_asks};

use naming::{Wrong, ended, take_u8, take_u32};
use words::{is_printable, next_word};

/// What a client asks of the chip.
#[derive(Clone, Copy, Debug, PartialEq, Eq)]
pub enum Request {
    /// A write cycle.
    Write { address: u32, byte: u8 },
    /// A read cycle.
    Read { address: u32 },
    /// That time passes, in microseconds.
    Pass { us: u32 },
    /// The reset pin.
    Reset,
    /// The count of the microseconds that have passed.
    Count,
}

impl Request {
    // What the rest of a line asks, by its first word.
    #[tactic(auto, unfolding(crate::specs::Requests::rest_asks))]
    fn of_words(word: &[u8], line: &[u8]) -> Result<Request, Wrong>
        ensures { result ≡ rest_asks word.now (words_of line.now) }
    {
        if word == b"w".as_slice() {
            let (address, rest) = take_u32(line)?;
            let (byte, rest) = take_u8(rest)?;
            ended(Request::Write { address, byte }, rest)
        } else if word == b"r".as_slice() {
            let (address, rest) = take_u32(line)?;
            ended(Request::Read { address }, rest)
        } else if word == b"t".as_slice() {
            let (us, rest) = take_u32(line)?;
            ended(Request::Pass { us }, rest)
        } else if word == b"x".as_slice() {
            ended(Request::Reset, line)
        } else if word == b"c".as_slice() {
            ended(Request::Count, line)
        } else {
            Err(Wrong::UnknownWord)
        }
    }

    /// What a line asks, or the first thing that is wrong with it.
    #[tactic(auto, unfolding(crate::specs::Requests::line_asks, crate::specs::Requests::words_ask))]
    pub fn of_line(line: &[u8]) -> Result<Request, Wrong>
        ensures { result ≡ line_asks line.now }
    {
        if !is_printable(line) {
            return Err(Wrong::NotPrintable);
        }
        let (word, rest) = next_word(line).ok_or(Wrong::NoWord)?;
        Request::of_words(word, rest)
    }
}
