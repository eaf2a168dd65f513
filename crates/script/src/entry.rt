use console::Call;
use pile::Kind;
use rehearsal::Seats;

/// The pieces of a part, from left to right: one to four.
#[derive(Clone, Copy)]
pub enum Pieces {
    One(Kind),
    Two(Kind, Kind),
    Three(Kind, Kind, Kind),
    Four(Kind, Kind, Kind, Kind),
}

/// What a script asks of both consoles.
#[derive(Clone, Copy)]
pub enum Request {
    /// To be opened: the quick console on the first seats, the slow one on the second.
    Open(Seats, Seats),
    Call(Call),
    /// Whether the power may go off.
    Quiet,
    /// To be made anew, closed, over their parts as they stand.
    Anew,
}

/// One of the two consoles.
#[derive(Clone, Copy)]
pub enum Who {
    Quick,
    Slow,
}

/// Bytes in the memory on which a console's part is made.
#[derive(Clone, Copy)]
pub struct Cells<'a> {
    pub who: Who,
    /// The address of the first.
    pub address: u32,
    /// The words that write them.
    pub bytes: &'a [u8],
}

/// What a line of a script says.
#[derive(Clone, Copy)]
pub enum Entry<'a> {
    /// The quick console's part.
    Quick(Pieces),
    /// The slow console's part.
    Slow(Pieces),
    Cells(Cells<'a>),
    Request(Request),
}
