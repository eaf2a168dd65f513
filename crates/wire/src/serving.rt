ghost use Rattle.std.specs.Prelude.{◌≡◌};
ghost use Rattle.chip.specs.Flash.{view};
ghost use Rattle.wire.specs.Requests.{line_asks};
ghost use Rattle.wire.specs.Replies.{done, told, Answers, Serves};

use crate::reply::Reply;
use crate::request::Request;
use chip::Chip;
use fault::ChipFault;

impl Reply {
    // ok, or the refusal.
    fn done(res: Result<(), ChipFault>) -> Reply
        ensures { result ≡ done res }
    {
        match res {
            Ok(()) => Reply::Done,
            Err(fault) => Reply::Refused(fault),
        }
    }

    // The byte, or the refusal.
    fn told(res: Result<u8, ChipFault>) -> Reply
        ensures { result ≡ told res }
    {
        match res {
            Ok(byte) => Reply::Byte(byte),
            Err(fault) => Reply::Refused(fault),
        }
    }
}

impl Request {
    // Does on the chip what is asked.
    fn made_on(self, chip: &mut Chip) -> Reply
        ensures { Answers self (view chip.old) result (view chip.new) }
    {
        match self {
            Request::Write { address, byte } => Reply::done(chip.write(address, byte)),
            Request::Read { address } => Reply::told(chip.read(address)),
            Request::Pass { us } => Reply::done(chip.pass(us)),
            Request::Reset => {
                chip.reset();
                Reply::Done
            }
            Request::Count => Reply::Count(chip.clock()),
        }
    }
}

/// Answers one line; a line that cannot be read does nothing to the chip.
pub fn serve(chip: &mut Chip, line: &[u8]) -> Reply
    ensures { Serves (line_asks line.now) (view chip.old) result (view chip.new) }
{
    match Request::of_line(line) {
        Ok(request) => request.made_on(chip),
        Err(wrong) => Reply::Bad(wrong),
    }
}
