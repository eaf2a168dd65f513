// What the console answers.

/// What an accepted call says.
#[derive(Clone, Copy, Debug, PartialEq, Eq)]
pub enum Said {
    /// open, set, clear and wait.
    Done,
    /// recall: the stops, or none where the position is empty.
    Shows(Option<u64>),
    /// next: the nearest filled position, if there is one.
    Finds(Option<u32>),
}

/// The answer of an accepted call, whichever it is.
#[derive(Clone, Copy, Debug, PartialEq, Eq)]
pub struct Answer {
    pub said: Said,
    /// The microseconds that the call took, or that were waited.
    pub us: u32,
}
