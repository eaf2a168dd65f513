ghost use Rattle.std.specs.Prelude.{◌≡◌, ◌≤◌, ◌++◌, true, length, drop, replicate, IfOk};
ghost use Rattle.part.specs.Meaning.{size, shape_of};
ghost use Rattle.pile.specs.Pieces.{fits, piece_of, begun_with};

use crate::one_of::OneOf;
use crate::pile::Piece;
use array::{Array, Layout};
use chip::{Chip, Setup};
use part::{Part, Shape, Standing};
use std::alloc::{AllocError, Global};
use tc58::driven;

/// A piece as it is named: the numbers of a chip, or how an array is laid out.
#[derive(Clone, Copy, Debug, PartialEq, Eq)]
pub enum Kind {
    Chip(Setup),
    Array(Layout),
}

impl Kind {
    // Whether a piece can be made of these numbers. No memory has been asked for yet.
    pub(crate) fn fits(&self) -> bool
        ensures { result ≡ fits self.now }
    {
        match self {
            Kind::Chip(setup) => setup.fits(setup.size()),
            Kind::Array(layout) => layout.is_possible(),
        }
    }

    // The shape of the new piece.
    pub(crate) fn shape(&self) -> Shape
        requires { fits self.now ≡ true }
        ensures { result ≡ shape_of (piece_of self.now) }
    {
        match self {
            Kind::Chip(setup) => Shape {
                size: geometry::size(setup.kind),
                blocks: geometry::count(setup.kind) as u32,
                standing: Standing::Idle,
            },
            Kind::Array(layout) => Shape {
                size: layout.count * layout.width,
                blocks: layout.count,
                standing: Standing::Idle,
            },
        }
    }

    // The new piece, with these cells in front and FFh behind them.
    #[tactic(auto, unfolding(chip::specs::Resets::after_reset, chip::specs::Making::made))]
    pub(crate) fn build(&self, heap: Global, cells: &[u8]) -> Result<Piece, AllocError>
        requires fits { fits self.now ≡ true }
        requires few { length cells.now ≤ size (piece_of self.now) }
        ensures { IfOk result (λ piece. ⟦<Piece as Part>⟧.means piece ≡ begun_with cells.now (piece_of self.now)) }
    {
        match self {
            Kind::Chip(setup) => {
                let memory = filled(heap, cells, setup.size())?;
                Ok(OneOf::Left(driven(Chip::new(*setup, memory))))
            }
            Kind::Array(layout) => {
                let memory = filled(heap, cells, layout.bytes())?;
                Ok(OneOf::Right(Array::new(*layout, memory)))
            }
        }
    }
}

// So much memory, with these bytes in front and FFh behind them.
fn filled(heap: Global, cells: &[u8], size: usize) -> Result<Vec<u8>, AllocError>
    requires { length cells.now ≤ size }
    ensures { IfOk result (λ memory. memory.items ≡ cells.now ++ drop (length cells.now) (replicate size 0xFF)) }
{
    let mut memory = vec![in heap; 0xFFu8; size]?;
    let (front, _) = memory.split_at_mut(cells.len());
    front.copy_from_slice(cells);
    Ok(memory)
}
