ghost use Rattle.std.specs.Prelude.{Some};
ghost use Rattle.wire.specs.Replies.{reply_text};

use fault::ChipFault;
use naming::Wrong;
use std::fmt;

/// What a client is answered.
#[derive(Clone, Copy, Debug, PartialEq, Eq)]
pub enum Reply {
    /// A write, time or a reset.
    Done,
    /// The byte of a read.
    Byte(u8),
    /// The count of microseconds.
    Count(u32),
    /// The chip refused it.
    Refused(ChipFault),
    /// The line cannot be read.
    Bad(Wrong),
}

impl fmt::Display for Reply {
    ghost output = { λ r. Some (reply_text r) };

    #[tactic(auto, using(std::proofs::lemmas::Fmt::hex_byte))]
    fn fmt<W: fmt::Write>(&self, f: &mut fmt::Formatter<W>) -> fmt::Result {
        match self {
            Reply::Done => f.write_str("ok"),
            Reply::Byte(byte) => {
                let byte = *byte;
                write!(f, "{byte:02X}")
            }
            Reply::Count(us) => write!(f, "{us}"),
            Reply::Refused(fault) => {
                let number = fault.cause.number();
                let place = fault.place;
                write!(f, "refused {number} place {place}")
            }
            Reply::Bad(wrong) => write!(f, "bad request: {wrong}"),
        }
    }
}
