// The parts that a script names.
use crate::stopped::Stopped;
use pile::{Kind, Pile, Unmade, make, size};
use runner::memory_of;
use script::{Pieces, Script, Who};
use std::alloc::Global;
use words::{next_word, uncommented};

// The number of the first line that begins with a word, from 1; 0 where there is none.
fn line_with(text: &[u8], word: &[u8]) -> usize {
    let mut number = 0usize;
    for line in text.split(|byte| *byte == b'\n') {
        number = number.saturating_add(1);
        if next_word(uncommented(line)).is_some_and(|(first, _)| first == word) {
            return number;
        }
    }
    0
}

// The pieces behind the first, and how many of them there are.
fn behind(pieces: Pieces) -> ([Kind; 3], usize) {
    match pieces {
        Pieces::One(a) => ([a, a, a], 0),
        Pieces::Two(a, b) => ([b, a, a], 1),
        Pieces::Three(a, b, c) => ([b, c, a], 2),
        Pieces::Four(_, b, c, d) => ([b, c, d], 3),
    }
}

fn first(pieces: Pieces) -> Kind {
    match pieces {
        Pieces::One(a) => a,
        Pieces::Two(a, _) => a,
        Pieces::Three(a, _, _) => a,
        Pieces::Four(a, _, _, _) => a,
    }
}

// Why a part is not made, with the line that names it.
fn refused(text: &[u8], word: &[u8], unmade: Unmade) -> Stopped {
    let line = line_with(text, word);
    match unmade {
        Unmade::Refused { fault, .. } => Stopped::Refused { line, fault },
        _ => Stopped::TooLarge { line },
    }
}

/// The part of one of the consoles, with what is in its memory.
pub fn part_of(heap: Global, text: &[u8], script: &Script, who: Who) -> Result<Pile, Stopped> {
    let (word, pieces) = match who {
        Who::Quick => (b"quick".as_slice(), script.quick),
        Who::Slow => (b"slow".as_slice(), script.slow),
    };
    let (more, count) = behind(pieces);
    let more = more.get(..count).unwrap_or(&[]);
    let first = first(pieces);
    let size = size(&first, more).map_err(|unmade| refused(text, word, unmade))?;
    let memory = memory_of(heap, script.patches.as_slice(), who, size)?;
    make(heap, first, more, memory.as_slice()).map_err(|unmade| refused(text, word, unmade))
}
