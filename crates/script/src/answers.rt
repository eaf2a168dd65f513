// The text of the answers.
ghost use Rattle.std.specs.Prelude.{Some};
ghost use Rattle.script.specs.Answers.{said_text, refusal_text, answer_text, quiet_text, verdict_text};

use console::{Answer, Said};
use fault::ConsoleFault;
use std::fmt;

// What an accepted call says, but for the microseconds.
#[derive(Clone, Copy)]
struct SaidText(Said);

impl fmt::Display for SaidText {
    ghost output = { λ x. Some (said_text x.0) };

    fn fmt<W: fmt::Write>(&self, f: &mut fmt::Formatter<W>) -> fmt::Result {
        match self.0 {
            Said::Done => f.write_str("ok"),
            Said::Shows(None) => f.write_str("empty"),
            Said::Shows(Some(stops)) => write!(f, "{stops:016X}"),
            Said::Finds(None) => f.write_str("none"),
            Said::Finds(Some(position)) => write!(f, "{position}"),
        }
    }
}

// Why a console refused a call.
#[derive(Clone, Copy)]
struct Refusal(ConsoleFault);

impl fmt::Display for Refusal {
    ghost output = { λ x. Some (refusal_text x.0) };

    fn fmt<W: fmt::Write>(&self, f: &mut fmt::Formatter<W>) -> fmt::Result {
        let number = self.0.cause.number();
        let place = self.0.place;
        let position = self.0.position;
        write!(f, "refused {number} place {place} position {position}")
    }
}

// What a console answered to open, or to one of the five calls.
#[derive(Clone, Copy)]
pub(crate) struct AnswerText(pub(crate) Result<Answer, ConsoleFault>);

impl fmt::Display for AnswerText {
    ghost output = { λ x. Some (answer_text x.0) };

    fn fmt<W: fmt::Write>(&self, f: &mut fmt::Formatter<W>) -> fmt::Result {
        match self.0 {
            Ok(answer) => {
                let said = SaidText(answer.said);
                let us = answer.us;
                write!(f, "{said} +{us} us")
            }
            Err(fault) => Refusal(fault).fmt(f),
        }
    }
}

// Whether the power may go off.
#[derive(Clone, Copy)]
pub(crate) struct QuietText(pub(crate) bool);

impl fmt::Display for QuietText {
    ghost output = { λ x. Some (quiet_text x.0) };

    fn fmt<W: fmt::Write>(&self, f: &mut fmt::Formatter<W>) -> fmt::Result {
        f.write_str(if self.0 { "yes" } else { "no" })
    }
}

// Whether the two consoles answered alike, the microseconds aside.
#[derive(Clone, Copy)]
pub(crate) struct Verdict(pub(crate) bool);

impl fmt::Display for Verdict {
    ghost output = { λ x. Some (verdict_text x.0) };

    fn fmt<W: fmt::Write>(&self, f: &mut fmt::Formatter<W>) -> fmt::Result {
        f.write_str(if self.0 { "same" } else { "different" })
    }
}
