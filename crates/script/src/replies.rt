// What the two consoles answer, and whether it is the same.
ghost use Rattle.std.specs.Prelude.{◌≡◌, ◌↔◌, Some, IsTrue};
ghost use Rattle.script.specs.Answers.{text_of};
ghost use Rattle.script.specs.Alike.{SameReply};

use crate::alike::same_answer;
use crate::answers::{AnswerText, QuietText};
use console::Answer;
use fault::ConsoleFault;
use std::fmt;

/// What a console answers to a request.
#[derive(Clone, Copy)]
pub enum Reply {
    /// To open, or to one of the five calls.
    Answer(Result<Answer, ConsoleFault>),
    Quiet(bool),
    /// To be made anew, which nothing can refuse.
    Anew,
}

impl fmt::Display for Reply {
    ghost output = { λ r. Some (text_of r) };

    fn fmt<W: fmt::Write>(&self, f: &mut fmt::Formatter<W>) -> fmt::Result {
        match *self {
            Reply::Answer(answer) => AnswerText(answer).fmt(f),
            Reply::Quiet(quiet) => QuietText(quiet).fmt(f),
            Reply::Anew => f.write_str("ok"),
        }
    }
}

impl Reply {
    /// Whether two consoles answered the same, the microseconds aside.
    pub fn is_same(self, other: Reply) -> bool
        ensures { IsTrue result ↔ SameReply self other }
    {
        match (self, other) {
            (Reply::Answer(a), Reply::Answer(b)) => same_answer(a, b),
            (Reply::Quiet(a), Reply::Quiet(b)) => a == b,
            (Reply::Anew, Reply::Anew) => true,
            _ => false,
        }
    }
}
