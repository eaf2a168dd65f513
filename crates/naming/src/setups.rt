// How a chip is named.
ghost use Rattle.std.specs.Prelude.{◌≡◌};
ghost use Rattle.words.specs.Lines.{words_of};
ghost use Rattle.naming.specs.Taking.{Gives};
ghost use Rattle.naming.specs.Setups.{geometry_of, geometry_at, set_at, setup_at};

use crate::numbers::take_u32;
use crate::wrong::Wrong;
use chip::Setup;
use geometry::BlockSet;
use words::next_word;

// The number of a geometry.
fn geometry(word: &[u8]) -> Result<u8, Wrong>
    ensures { result ≡ geometry_of word.now }
{
    if word == b"t004".as_slice() {
        Ok(geometry::TOP)
    } else if word == b"b004".as_slice() {
        Ok(geometry::BOTTOM)
    } else if word == b"bench".as_slice() {
        Ok(geometry::BENCH)
    } else {
        Err(Wrong::UnknownGeometry)
    }
}

#[tactic(auto, unfolding(crate::specs::Setups::geometry_at))]
fn take_geometry(line: &[u8]) -> Result<(u8, &[u8]), Wrong>
    ensures { Gives (λ x. (x.0, words_of x.1.now)) result (geometry_at (words_of line.now)) }
{
    match next_word(line) {
        None => Err(Wrong::NoGeometry),
        Some((word, rest)) => Ok((geometry(word)?, rest)),
    }
}

// The blocks that the number behind their word names, bit b for block b, where that word is next, and else none.
#[tactic(auto, unfolding(crate::specs::Setups::set_at))]
fn take_set<'a>(name: &[u8], line: &'a [u8]) -> Result<(BlockSet, &'a [u8]), Wrong>
    ensures { Gives (λ x. (x.0, words_of x.1.now)) result (set_at name.now (words_of line.now)) }
{
    match next_word(line) {
        Some((word, rest)) if word == name => {
            let (mask, rest) = take_u32(rest)?;
            let set = BlockSet {
                mask: u128::from(mask),
            };
            Ok((set, rest))
        }
        _ => Ok((BlockSet::NONE, line)),
    }
}

/// The chip that a line begins with: its geometry and its three times, and its protected and its worn blocks where they are named.
#[tactic(auto, unfolding(crate::specs::Setups::setup_at))]
pub fn take_setup(line: &[u8]) -> Result<(Setup, &[u8]), Wrong>
    ensures { Gives (λ x. (x.0, words_of x.1.now)) result (setup_at (words_of line.now)) }
{
    let (kind, rest) = take_geometry(line)?;
    let (program, rest) = take_u32(rest)?;
    let (erase, rest) = take_u32(rest)?;
    let (suspend, rest) = take_u32(rest)?;
    let (protected, rest) = take_set(b"protect", rest)?;
    let (worn, rest) = take_set(b"worn", rest)?;
    let setup = Setup {
        kind,
        program,
        erase,
        suspend,
        protected,
        worn,
    };
    Ok((setup, rest))
}
