// A line of a script, word by word.
ghost use Rattle.std.specs.Prelude.{◌≡◌, ℕ};
ghost use Rattle.std.specs.Option.{option_map};
ghost use Rattle.words.specs.Lines.{words_of};
ghost use Rattle.naming.specs.Taking.{Gives};
ghost use Rattle.script.specs.Grammar.{layout_at, piece_at, joined_at, asked, pieces_of, seats_at, position_of, rest_of, words_read, line_read, chip_at, who_at, fill_at};
ghost use Rattle.script.specs.Sayings.{saying_of, fill, bytes_at, bytes_in};
ghost use Rattle.script.specs.Laws.{EntriesAgain, StopsAgain};

use crate::entry::{Cells, Entry, Pieces, Request, Who};
use crate::head::Head;
use array::Layout;
use console::Call;
use naming::{Wrong, ended, take_setup, take_u32, take_u64};
use pile::Kind;
use rehearsal::Seats;
use words::{is_printable, next_word, number, uncommented};

#[tactic(auto, unfolding(crate::specs::Grammar::chip_at))]
fn chip(line: &[u8]) -> Result<(Kind, &[u8]), Wrong>
    ensures { Gives (λ x. (x.0, words_of x.1.now)) result (chip_at (words_of line.now)) }
{
    let (setup, rest) = take_setup(line)?;
    Ok((Kind::Chip(setup), rest))
}

#[tactic(auto, unfolding(crate::specs::Grammar::layout_at))]
fn layout(line: &[u8]) -> Result<(Kind, &[u8]), Wrong>
    ensures { Gives (λ x. (x.0, words_of x.1.now)) result (layout_at (words_of line.now)) }
{
    let (count, rest) = take_u32(line)?;
    let (width, rest) = take_u32(rest)?;
    Ok((Kind::Array(Layout { count, width }), rest))
}

#[tactic(auto, unfolding(crate::specs::Grammar::piece_at))]
fn piece(line: &[u8]) -> Result<(Kind, &[u8]), Wrong>
    ensures { Gives (λ x. (x.0, words_of x.1.now)) result (piece_at (words_of line.now)) }
{
    let Some((word, rest)) = next_word(line) else {
        return Err(Wrong::NoPiece);
    };
    if word == b"chip".as_slice() {
        chip(rest)
    } else if word == b"array".as_slice() {
        layout(rest)
    } else {
        Err(Wrong::UnknownPiece)
    }
}

// A piece that a `+` joins to those before it; none where the line ends.
#[tactic(auto, unfolding(crate::specs::Grammar::joined_at))]
fn joined(line: &[u8]) -> Result<Option<(Kind, &[u8])>, Wrong>
    ensures { Gives (option_map (λ x. (x.0, words_of x.1.now))) result (joined_at (words_of line.now)) }
{
    let Some((word, rest)) = next_word(line) else {
        return Ok(None);
    };
    if word == b"+".as_slice() {
        Ok(Some(piece(rest)?))
    } else {
        Err(Wrong::TooManyWords)
    }
}

// A part, to the end of the line.
#[tactic(auto, unfolding(crate::specs::Grammar::pieces_of))]
fn pieces(line: &[u8]) -> Result<Pieces, Wrong>
    ensures { result ≡ pieces_of (words_of line.now) }
{
    let (a, rest) = piece(line)?;
    let Some((b, rest)) = joined(rest)? else {
        return Ok(Pieces::One(a));
    };
    let Some((c, rest)) = joined(rest)? else {
        return Ok(Pieces::Two(a, b));
    };
    let Some((d, rest)) = joined(rest)? else {
        return Ok(Pieces::Three(a, b, c));
    };
    match next_word(rest) {
        None => Ok(Pieces::Four(a, b, c, d)),
        Some((word, _)) if word == b"+".as_slice() => Err(Wrong::TooManyPieces),
        Some(_) => Err(Wrong::TooManyWords),
    }
}

#[tactic(auto, unfolding(crate::specs::Grammar::seats_at))]
fn seats(line: &[u8]) -> Result<(Seats, &[u8]), Wrong>
    ensures { Gives (λ x. (x.0, words_of x.1.now)) result (seats_at (words_of line.now)) }
{
    let (first, rest) = take_u32(line)?;
    let (second, rest) = take_u32(rest)?;
    Ok((Seats { first, second }, rest))
}

#[tactic(auto, unfolding(crate::specs::Grammar::who_at))]
fn who(line: &[u8]) -> Result<(Who, &[u8]), Wrong>
    ensures { Gives (λ x. (x.0, words_of x.1.now)) result (who_at (words_of line.now)) }
{
    let Some((word, rest)) = next_word(line) else {
        return Err(Wrong::NoConsole);
    };
    if word == b"quick".as_slice() {
        Ok((Who::Quick, rest))
    } else if word == b"slow".as_slice() {
        Ok((Who::Slow, rest))
    } else {
        Err(Wrong::UnknownConsole)
    }
}

// One byte or more, to the end of the line.
#[tactic(auto, using(crate::proofs::Bytes::one_byte, crate::proofs::Bytes::bad_byte, crate::proofs::Bytes::no_bytes, crate::proofs::Bytes::all_right, crate::proofs::Bytes::all_wrong, crate::proofs::Bytes::begins))]
fn bytes(line: &[u8]) -> Result<&[u8], Wrong>
    ensures { Gives (λ x. bytes_in x.now) result (bytes_at (words_of line.now)) }
{
    if next_word(line).is_none() {
        return Err(Wrong::NoNumber);
    }
    let mut rest = line;
    while let Some((word, after)) = next_word(rest) {
        if number(word, u64::from(u8::MAX)).is_none() {
            return Err(Wrong::BadNumber);
        }
        rest = after;
    }
    Ok(line)
}

#[tactic(auto, unfolding(crate::specs::Grammar::fill_at))]
fn cells(line: &[u8]) -> Result<Cells<'_>, Wrong>
    ensures { Gives (λ x. fill x) result (fill_at (words_of line.now)) }
{
    let (who, rest) = who(line)?;
    let (address, rest) = take_u32(rest)?;
    let bytes = bytes(rest)?;
    Ok(Cells {
        who,
        address,
        bytes,
    })
}

fn asked<'a>(call: Call) -> Entry<'a>
    ensures { saying_of result ≡ asked call }
{
    Entry::Request(Request::Call(call))
}

// What the rest of a line says, by its first word.
#[tactic(auto, using(crate::proofs::Bytes::ended_said), unfolding(crate::specs::Grammar::rest_of, crate::specs::Grammar::position_of))]
fn rest_of(head: Head, line: &[u8]) -> Result<Entry<'_>, Wrong>
    ensures { Gives (λ x. saying_of x) result (rest_of head (words_of line.now)) }
{
    match head {
        Head::Quick => Ok(Entry::Quick(pieces(line)?)),
        Head::Slow => Ok(Entry::Slow(pieces(line)?)),
        Head::Open => {
            let (quick, rest) = seats(line)?;
            let (slow, rest) = seats(rest)?;
            ended(Entry::Request(Request::Open(quick, slow)), rest)
        }
        Head::Set => {
            let (position, rest) = take_u32(line)?;
            let (stops, rest) = take_u64(rest)?;
            ended(asked(Call::Set { position, stops }), rest)
        }
        Head::Clear => {
            let (position, rest) = take_u32(line)?;
            ended(asked(Call::Clear { position }), rest)
        }
        Head::Recall => {
            let (position, rest) = take_u32(line)?;
            ended(asked(Call::Recall { position }), rest)
        }
        Head::Next => {
            let (position, rest) = take_u32(line)?;
            ended(asked(Call::Next { position }), rest)
        }
        Head::Wait => {
            let (us, rest) = take_u32(line)?;
            ended(asked(Call::Wait { us }), rest)
        }
        Head::Quiet => ended(Entry::Request(Request::Quiet), line),
        Head::Anew => ended(Entry::Request(Request::Anew), line),
        Head::Cells => Ok(Entry::Cells(cells(line)?)),
    }
}

#[tactic(auto, unfolding(crate::specs::Grammar::words_read))]
fn read_words(line: &[u8]) -> Result<Option<Entry<'_>>, Wrong>
    ensures { Gives (option_map saying_of) result (words_read (words_of line.now)) }
{
    let Some((word, rest)) = next_word(line) else {
        return Ok(None);
    };
    match Head::of(word) {
        None => Err(Wrong::UnknownWord),
        Some(head) => Ok(Some(rest_of(head, rest)?)),
    }
}

/// What a line of a script says; none where it has no word. The first thing that is wrong with it, from left to right.
#[tactic(auto, unfolding(crate::specs::Grammar::line_read), using(crate::proofs::Again::entries_again))]
pub fn parse(line: &[u8]) -> Result<Option<Entry<'_>>, Wrong>
    ensures value { Gives (option_map saying_of) result (line_read line.now) }
    // What is written is read again, and so are the stops that a recall shows.
    ensures again { EntriesAgain }
    ensures stops { StopsAgain }
{
    if is_printable(line) {
        read_words(uncommented(line))
    } else {
        Err(Wrong::NotPrintable)
    }
}
