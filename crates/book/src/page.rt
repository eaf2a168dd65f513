ghost use Rattle.std.specs.Prelude.{◌≡◌, ◌≤◌, nat_lt};
ghost use Rattle.book.specs.Pages.{Addressable, page_at, line_at, used};

/// What was read of a page.
#[derive(Clone, Copy, Debug, PartialEq, Eq)]
pub struct Page {
    pub tally: u8,
    /// The registration in the last used line; none where no line is used, or that line is empty.
    pub stops: Option<u64>,
}

impl Page {
    /// Whether a line is free.
    pub fn has_line(self) -> bool
        ensures { result ≡ nat_lt (used self.tally) 7 }
    {
        self.tally.trailing_zeros() < LAST_LINE
    }
}

// Which page of which book: where the book begins, and the position.
#[derive(Clone, Copy, Debug, PartialEq, Eq)]
pub(crate) struct PageAt {
    pub(crate) start: u32,
    pub(crate) position: u8,
    ghost fits: { Addressable (page_at start position) 64 },
}

impl PageAt {
    // The address of its tally, with which it begins.
    pub(crate) fn tally(self) -> u32
        ensures { result ≡ page_at self.start self.position }
    {
        self.start + PAGE * u32::from(self.position)
    }

    // The address at which line k begins; behind the last line the page ends.
    pub(crate) fn line_start(self, k: u32) -> u32
        requires { k ≤ 8 }
        ensures { result ≡ line_at (page_at self.start self.position) k }
    {
        self.tally() + LINE * k
    }
}

/// The first number that is more than 63 stops.
pub const STOPS: u64 = 1 << 63;

// How many bytes a page has: a line of them for its tally, and its lines.
pub(crate) const PAGE: u32 = 64;

// How many bytes a line has.
pub(crate) const LINE: u32 = 8;

// The last line of a page.
pub(crate) const LAST_LINE: u32 = 7;

// An erased cell.
pub(crate) const ERASED: u8 = 0xFF;

// An empty line: FFh throughout.
pub(crate) const EMPTY: u64 = u64::MAX;
