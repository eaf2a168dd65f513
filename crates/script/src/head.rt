// The first words of lines.
ghost use Rattle.std.specs.Prelude.{◌≡◌};
ghost use Rattle.script.specs.Grammar.{head_of};

// What the first word of a line names.
#[derive(Clone, Copy)]
pub(crate) enum Head {
    Quick,
    Slow,
    Open,
    Set,
    Clear,
    Recall,
    Next,
    Wait,
    Quiet,
    Anew,
    Cells,
}

impl Head {
    pub(crate) fn of(word: &[u8]) -> Option<Head>
        ensures { result ≡ head_of word.now }
    {
        if word == b"set".as_slice() {
            Some(Head::Set)
        } else if word == b"clear".as_slice() {
            Some(Head::Clear)
        } else if word == b"recall".as_slice() {
            Some(Head::Recall)
        } else if word == b"next".as_slice() {
            Some(Head::Next)
        } else if word == b"wait".as_slice() {
            Some(Head::Wait)
        } else if word == b"quiet".as_slice() {
            Some(Head::Quiet)
        } else if word == b"open".as_slice() {
            Some(Head::Open)
        } else if word == b"quick".as_slice() {
            Some(Head::Quick)
        } else if word == b"slow".as_slice() {
            Some(Head::Slow)
        } else if word == b"cells".as_slice() {
            Some(Head::Cells)
        } else if word == b"anew".as_slice() {
            Some(Head::Anew)
        } else {
            None
        }
    }
}
