// The room for the account of a rehearsal, which the caller lends: a row for each call.
ghost use Rattle.std.specs.Prelude.{◌≡◌};
ghost use Rattle.rehearsal.specs.Rows.{row_of, noted};

use crate::line::Line;
use console::Call;
use fault::{Cause, ConsoleFault};

/// A call of a rehearsal, and the line of each console.
#[derive(Clone, Copy)]
pub struct Row {
    pub call: Call,
    pub quick: Line,
    pub slow: Line,
}

// One of the two consoles of a rehearsal.
#[derive(Clone, Copy)]
pub(crate) enum Side {
    Quick,
    Slow,
}

impl Row {
    /// A row for a call, with nothing written in its lines yet.
    pub fn of(call: Call) -> Row
        ensures { result ≡ row_of call }
    {
        let unwritten = Line {
            before: 0,
            after: 0,
            reply: Err(ConsoleFault {
                cause: Cause::OutOfTurn,
                place: 0,
                position: 0,
            }),
        };
        Row {
            call,
            quick: unwritten,
            slow: unwritten,
        }
    }

    // The row with the line of one console.
    pub(crate) fn with(self, side: Side, line: Line) -> Row
        ensures { result ≡ noted side line self }
    {
        match side {
            Side::Quick => Row {
                quick: line,
                ..self
            },
            Side::Slow => Row { slow: line, ..self },
        }
    }
}
