ghost use Rattle.std.specs.Prelude.{Some};
ghost use Rattle.naming.specs.Complaints.{wrong_text};

use std::fmt;

/// What is wrong with a line, by itself or among the others.
#[derive(Clone, Copy, Debug, PartialEq, Eq)]
pub enum Wrong {
    /// A byte outside 20h to 7Eh.
    NotPrintable,
    /// No word where there has to be one.
    NoWord,
    /// The first word is none of those with which a line begins.
    UnknownWord,
    /// A part, or what follows a `+`, is not there.
    NoPiece,
    /// A piece that is neither a chip nor an array.
    UnknownPiece,
    /// A chip without its geometry.
    NoGeometry,
    /// A geometry that there is not.
    UnknownGeometry,
    /// Fewer numbers than the call or the piece has.
    NoNumber,
    /// A word where a number belongs that is none, or one that is too large.
    BadNumber,
    /// More words than the call or the piece has.
    TooManyWords,
    /// A fifth piece.
    TooManyPieces,
    /// The quick console's part for the second time.
    QuickTwice,
    /// The slow console's part for the second time.
    SlowTwice,
    /// A request before both parts.
    TooEarly,
    /// The script ends without the quick console's part.
    NoQuick,
    /// The script ends without the slow console's part.
    NoSlow,
    /// No word where a console has to be named.
    NoConsole,
    /// A word there that names none.
    UnknownConsole,
    /// Cells of a console whose part is not named yet, or behind a call.
    CellsOutOfPlace,
    /// A cell at an address that the part has not.
    OutsidePart,
}

impl fmt::Display for Wrong {
    ghost output = { λ w. Some (wrong_text w) };

    fn fmt<W: fmt::Write>(&self, f: &mut fmt::Formatter<W>) -> fmt::Result {
        f.write_str(match self {
            Wrong::NotPrintable => "not printable ASCII",
            Wrong::NoWord => "nothing is asked",
            Wrong::UnknownWord => "unknown word",
            Wrong::NoPiece => "a part is missing",
            Wrong::UnknownPiece => "a part is a chip or an array",
            Wrong::NoGeometry => "a geometry is missing",
            Wrong::UnknownGeometry => "unknown geometry",
            Wrong::NoNumber => "a number is missing",
            Wrong::BadNumber => "a number is too large or no number",
            Wrong::TooManyWords => "too many words",
            Wrong::TooManyPieces => "at most four parts",
            Wrong::QuickTwice => "quick is named twice",
            Wrong::SlowTwice => "slow is named twice",
            Wrong::TooEarly => "a call before quick and slow",
            Wrong::NoQuick => "quick is missing",
            Wrong::NoSlow => "slow is missing",
            Wrong::NoConsole => "quick or slow is missing",
            Wrong::UnknownConsole => "a console is quick or slow",
            Wrong::CellsOutOfPlace => "cells out of place",
            Wrong::OutsidePart => "an address outside the part",
        })
    }
}
