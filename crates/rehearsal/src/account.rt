use crate::line::Line;

/// The two blocks of a part on which a console is opened.
#[derive(Clone, Copy)]
pub struct Seats {
    pub first: u32,
    pub second: u32,
}

/// How the two consoles of a rehearsal were opened.
#[derive(Clone, Copy)]
pub struct Openings {
    pub quick: Line,
    pub slow: Line,
}
