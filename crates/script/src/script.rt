use crate::entry::{Cells, Pieces, Request};

/// A request of a script, and where its line stands in the text.
#[derive(Clone, Copy)]
pub struct Step {
    pub request: Request,
    /// The first byte of its line.
    pub start: usize,
    /// The byte behind the last one of its line.
    pub end: usize,
}

/// Cells of a part, and the number of their line, from 1.
#[derive(Clone, Copy)]
pub struct Patch<'a> {
    pub line: usize,
    pub cells: Cells<'a>,
}

/// A script: the two parts, what is in their memory when they are made, and what is asked of both consoles, each in order.
#[derive(Drop)]
pub struct Script<'a> {
    pub quick: Pieces,
    pub slow: Pieces,
    pub patches: Vec<Patch<'a>>,
    pub steps: Vec<Step>,
}
