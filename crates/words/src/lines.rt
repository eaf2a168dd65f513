// A line, and its words.
ghost use Rattle.std.specs.Prelude.{◌≡◌, ◌≢◌, ℕ, ◌<◌, ◌≤◌, [], ◌∷◌, ◌++◌, length, drop, slice_index, ◌==◌, IfSome, IfNone, OnOk};
ghost use Rattle.std.specs.List.{position_or_len};
ghost use Rattle.words.specs.Lines.{is_printable, uncommented, words_of, spaced, WordsAgain, CommentsSkipped};

use std::alloc::AllocError;

/// Whether a line has only the 95 printable characters of ASCII, 20h to 7Eh.
pub fn is_printable(line: &[u8]) -> bool
    ensures { result ≡ is_printable line.now }
{
    line.iter().all(|b| *b >= 0x20 && *b <= 0x7E)
}

/// Where a byte stands first; the number of bytes where it does not.
pub fn place_of(bytes: &[u8], byte: u8) -> usize
    ensures value { result ≡ position_or_len (λ b. b == byte) bytes.now }
    ensures within { result ≤ length bytes.now }
    ensures before { (k : ℕ) → k < result → slice_index bytes.now k ≢ byte }
    ensures there { result < length bytes.now → slice_index bytes.now result ≡ byte }
{
    for (i, b) in bytes.iter().enumerate() {
        if *b == byte {
            return i;
        }
    }
    bytes.len()
}

/// A line without its comment, which a `#` begins.
pub fn uncommented(line: &[u8]) -> &[u8]
    ensures value { result.now ≡ uncommented line.now }
    ensures law { CommentsSkipped }
{
    line.split_at(place_of(line, b'#')).0
}

// How many spaces a line begins with.
fn spaces(line: &[u8]) -> usize
    ensures within { result ≤ length line.now }
    ensures same { words_of (drop result line.now) ≡ words_of line.now }
    ensures ends { result < length line.now → slice_index line.now result ≢ 32 }
{
    for (i, b) in line.iter().enumerate() {
        if *b != b' ' {
            return i;
        }
    }
    line.len()
}

/// The first word of a line, and what stands after it; none where there is no word.
pub fn next_word(line: &[u8]) -> Option<(&[u8], &[u8])>
    ensures some { IfSome result (λ x. words_of line.now ≡ x.0.now ∷ words_of x.1.now) }
    ensures none { IfNone result (words_of line.now ≡ []) }
    ensures less { IfSome result (λ x. length x.1.now < length line.now) }
    ensures law { WordsAgain }
{
    let (_, begun) = line.split_at(spaces(line));
    let end = place_of(begun, b' ');
    if end == 0 {
        return None;
    }
    Some(begun.split_at(end))
}

/// Puts the words of a line behind what `out` holds, with one space between each and the next.
pub fn push_words(out: &mut Vec<u8>, line: &[u8]) -> Result<(), AllocError>
    ensures { OnOk result (out.new.items ≡ out.old.items ++ spaced (words_of line.now)) }
{
    let Some((first, after)) = next_word(line) else {
        return Ok(());
    };
    out.extend_from_slice(first)?;
    let mut rest = after;
    while let Some((word, after)) = next_word(rest) {
        out.push(b' ')?;
        out.extend_from_slice(word)?;
        rest = after;
    }
    Ok(())
}
