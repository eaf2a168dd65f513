ghost use Rattle.std.specs.Prelude.{◌≡◌, if◌then◌else◌};
ghost use Rattle.book.specs.declared.finding.Finding.TheVariants.{Neither};

// What two blocks hold.
#[derive(Clone, Copy, Debug, PartialEq, Eq)]
pub(crate) enum Finding {
    // Two blank books.
    Fresh,
    // A book in the first block.
    First,
    // A book in the second block.
    Second,
    // Not exactly one book that can be read.
    Neither,
}

impl Finding {
    // The finding, if it is one.
    pub(crate) fn only_if(self, is: bool) -> Finding
        ensures { result ≡ (if is then self else Neither) }
    {
        if is { self } else { Finding::Neither }
    }
}
