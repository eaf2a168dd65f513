// The making of a pile.
ghost use Rattle.std.specs.Prelude.{◌≡◌, ◌≤◌, true, not, [], ◌∷◌, length, take, drop, position, IfOk, OnOk};
ghost use Rattle.part.specs.Meaning.{size, shape_of};
ghost use Rattle.joined.specs.Pile.{made};
ghost use Rattle.pile.specs.Pieces.{fits, piece_of, piled, begun_with};
ghost use Rattle.pile.specs.Making.{objection, size_of, objection_to, beside, Checked, Answered, AllFit};

use crate::kind::Kind;
use crate::one_of::OneOf;
use crate::pile::{Four, Piece, Pile, Three, Two};
use crate::unmade::Unmade;
use array::UNFIT;
use joined::{Joined, small_together};
use part::{Part, Shape, Standing};
use std::alloc::{AllocError, Global};

// The most pieces that a pile has behind its first.
const MOST_MORE: usize = 3;

// The first of these pieces whose numbers do not fit.
fn unfit_in(kinds: &[Kind]) -> Option<usize>
    ensures { result ≡ position (λ k. not (fits k)) kinds.now }
{
    kinds.iter().position(|kind| !kind.fits())
}

// The first piece whose numbers do not fit, counted from 0.
fn first_unfit(first: &Kind, more: &[Kind]) -> Option<usize>
    ensures { result ≡ position (λ k. not (fits k)) (first.now ∷ more.now) }
{
    if !first.fits() {
        return Some(0);
    }
    let behind = unfit_in(more)?;
    Some(behind + 1)
}

// Refuses more than four pieces, and the first piece whose numbers do not fit.
fn check(first: &Kind, more: &[Kind]) -> Result<(), Unmade>
    ensures answered { Checked (objection first.now more.now) tt result }
    ensures few { OnOk result (length more.now ≤ 3) }
    ensures fit { OnOk result (AllFit (first.now ∷ more.now)) }
{
    if more.len() > MOST_MORE {
        return Err(Unmade::TooMany);
    }
    match first_unfit(first, more) {
        None => Ok(()),
        Some(piece) => Err(Unmade::Refused {
            piece,
            fault: UNFIT,
        }),
    }
}

// The shape of two new parts end to end.
fn beside(first: Shape, second: Shape) -> Shape
    ensures { result ≡ beside first second }
{
    if small_together(first, second) {
        Shape {
            size: first.size + second.size,
            blocks: first.blocks + second.blocks,
            standing: Standing::Idle,
        }
    } else {
        Shape {
            size: 0,
            blocks: 0,
            standing: Standing::Idle,
        }
    }
}

// The cells of two sides, the first of which has so many bytes.
fn shares(cells: &[u8], size: u32) -> (&[u8], &[u8])
    ensures first { result.0.now ≡ take size cells.now }
    ensures second { result.1.now ≡ drop size cells.now }
{
    cells.split_at(cells.len().min(size as usize))
}

// A part and a new piece behind it, which begins with these cells.
fn put<P: Part + Drop>(
    heap: Global,
    part: P,
    kind: &Kind,
    cells: &[u8],
) -> Result<Joined<P, Piece>, AllocError>
    requires fits { fits kind.now ≡ true }
    requires few { length cells.now ≤ size (piece_of kind.now) }
    ensures { IfOk result (λ both. ⟦<Joined<P, Piece> as Part>⟧.means both ≡ made (P.Part.means part) (begun_with cells.now (piece_of kind.now))) }
{
    Ok(Joined::new(part, kind.build(heap, cells)?))
}

// The shape of two new pieces end to end.
#[tactic(auto, using(crate::proofs::Sharing::shape_of_two))]
fn shape_of_two(a: &Kind, b: &Kind) -> Shape
    requires { AllFit (a.now ∷ b.now ∷ []) }
    ensures { result ≡ shape_of (piled (piece_of a.now) (b.now ∷ [])) }
{
    beside(a.shape(), b.shape())
}

// The shape of three.
#[tactic(auto, using(crate::proofs::Sharing::shape_of_three))]
fn shape_of_three(a: &Kind, b: &Kind, c: &Kind) -> Shape
    requires { AllFit (a.now ∷ b.now ∷ c.now ∷ []) }
    ensures { result ≡ shape_of (piled (piece_of a.now) (b.now ∷ c.now ∷ [])) }
{
    beside(shape_of_two(a, b), c.shape())
}

// The shape of four.
#[tactic(auto, using(crate::proofs::Sharing::shape_of_four))]
fn shape_of_four(a: &Kind, b: &Kind, c: &Kind, d: &Kind) -> Shape
    requires { AllFit (a.now ∷ b.now ∷ c.now ∷ d.now ∷ []) }
    ensures { result ≡ shape_of (piled (piece_of a.now) (b.now ∷ c.now ∷ d.now ∷ [])) }
{
    beside(shape_of_three(a, b, c), d.shape())
}

// Two new pieces end to end, which begin with these cells.
fn two(heap: Global, a: &Kind, b: &Kind, cells: &[u8]) -> Result<Two, AllocError>
    requires fit { AllFit (a.now ∷ b.now ∷ []) }
    requires few { length cells.now ≤ size_of a.now (b.now ∷ []) }
    ensures { IfOk result (λ two. ⟦<Two as Part>⟧.means two ≡ begun_with cells.now (piled (piece_of a.now) (b.now ∷ []))) }
{
    let (front, back) = shares(cells, a.shape().size);
    put(heap, a.build(heap, front)?, b, back)
}

// Three of them.
fn three(heap: Global, a: &Kind, b: &Kind, c: &Kind, cells: &[u8]) -> Result<Three, AllocError>
    requires fit { AllFit (a.now ∷ b.now ∷ c.now ∷ []) }
    requires few { length cells.now ≤ size_of a.now (b.now ∷ c.now ∷ []) }
    ensures { IfOk result (λ three. ⟦<Three as Part>⟧.means three ≡ begun_with cells.now (piled (piece_of a.now) (b.now ∷ c.now ∷ []))) }
{
    let (front, back) = shares(cells, shape_of_two(a, b).size);
    put(heap, two(heap, a, b, front)?, c, back)
}

// Four of them.
fn four(
    heap: Global,
    a: &Kind,
    b: &Kind,
    c: &Kind,
    d: &Kind,
    cells: &[u8],
) -> Result<Four, AllocError>
    requires fit { AllFit (a.now ∷ b.now ∷ c.now ∷ d.now ∷ []) }
    requires few { length cells.now ≤ size_of a.now (b.now ∷ c.now ∷ d.now ∷ []) }
    ensures { IfOk result (λ four. ⟦<Four as Part>⟧.means four ≡ begun_with cells.now (piled (piece_of a.now) (b.now ∷ c.now ∷ d.now ∷ []))) }
{
    let (front, back) = shares(cells, shape_of_three(a, b, c).size);
    put(heap, three(heap, a, b, c, front)?, d, back)
}

// The new pieces joined from left to right, with these cells in front and FFh behind them.
fn assemble(heap: Global, a: &Kind, more: &[Kind], cells: &[u8]) -> Result<Pile, AllocError>
    requires few { length more.now ≤ 3 }
    requires fit { AllFit (a.now ∷ more.now) }
    requires room { length cells.now ≤ size_of a.now more.now }
    ensures { IfOk result (λ pile. ⟦<Pile as Part>⟧.means pile ≡ begun_with cells.now (piled (piece_of a.now) more.now)) }
{
    let Some((b, more)) = more.split_first() else {
        return Ok(OneOf::Left(OneOf::Left(a.build(heap, cells)?)));
    };
    let Some((c, more)) = more.split_first() else {
        return Ok(OneOf::Left(OneOf::Right(two(heap, a, b, cells)?)));
    };
    let Some((d, _)) = more.split_first() else {
        return Ok(OneOf::Right(OneOf::Left(three(heap, a, b, c, cells)?)));
    };
    Ok(OneOf::Right(OneOf::Right(four(heap, a, b, c, d, cells)?)))
}

// The shape of the new pieces joined from left to right.
fn shape(a: &Kind, more: &[Kind]) -> Shape
    requires few { length more.now ≤ 3 }
    requires fit { AllFit (a.now ∷ more.now) }
    ensures { result ≡ shape_of (piled (piece_of a.now) more.now) }
{
    let Some((b, more)) = more.split_first() else {
        return a.shape();
    };
    let Some((c, more)) = more.split_first() else {
        return shape_of_two(a, b);
    };
    let Some((d, _)) = more.split_first() else {
        return shape_of_three(a, b, c);
    };
    shape_of_four(a, b, c, d)
}

/// How many bytes a pile of these pieces has, or why it cannot be made: the numbers of every piece are checked.
pub fn size(first: &Kind, more: &[Kind]) -> Result<usize, Unmade>
    ensures { Checked (objection first.now more.now) (size_of first.now more.now) result }
{
    check(first, more)?;
    Ok(shape(first, more).size as usize)
}

// Refuses what `check` refuses, and more cells than the pile has.
#[tactic(auto, unfolding(crate::specs::Making::objection_to))]
fn admit(first: &Kind, more: &[Kind], cells: usize) -> Result<(), Unmade>
    ensures answered { Checked (objection_to first.now more.now cells) tt result }
    ensures few { OnOk result (length more.now ≤ 3) }
    ensures fit { OnOk result (AllFit (first.now ∷ more.now)) }
    ensures room { OnOk result (cells ≤ size_of first.now more.now) }
{
    check(first, more)?;
    if cells > shape(first, more).size as usize {
        return Err(Unmade::TooLong);
    }
    Ok(())
}

/// Makes a pile of new pieces, joined from left to right, with these cells from address 0 on and FFh behind them; it is dead if the pieces are too
/// large together. The numbers of every piece and the number of the cells are checked before memory is asked for.
pub fn make(heap: Global, first: Kind, more: &[Kind], cells: &[u8]) -> Result<Pile, Unmade>
    ensures made { IfOk result (λ pile. ⟦<Pile as Part>⟧.means pile ≡ begun_with cells.now (piled (piece_of first) more.now)) }
    ensures answered { Answered (objection_to first more.now (length cells.now)) result }
{
    admit(&first, more, cells.len())?;
    Ok(assemble(heap, &first, more, cells)?)
}
