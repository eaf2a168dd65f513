ghost use Rattle.std.specs.Prelude.{◌≡◌, true};
ghost use Rattle.joined.specs.Pile.{fits, joinable as can_join, made, Asked};
ghost use Rattle.joined.specs.Sides.{Sides, whole_of};

use crate::side::Side;
use crate::sides::joinable;
use part::{Part, Shape};

/// The most bytes of a joined part.
pub const MOST_BYTES: u32 = 16_777_216;

/// The most blocks of a joined part.
pub const MOST_BLOCKS: u32 = 1024;

/// Two parts end to end. One that is not live is dead: it has no blocks, but time still passes on both sides, so it keeps them, and a flag is
/// plainer than an enum with the same two sides in each case. Which it is is settled when it is made.
// No `impl Model`: what it means is `means` of the trait `Part`.
#[derive(Drop)]
pub struct Joined<P: Part, Q: Part> {
    pub(crate) first: Side<P>,
    pub(crate) second: Side<Q>,
    pub(crate) live: bool,
    ghost fit: { live ≡ true → fits (P.Part.means first.part) (Q.Part.means second.part) ≡ true },
}

/// What a joined part is by its two sides, for the contracts of its calls.
pub trait TwoSided {
    ghost sides: { Self → Sides };
}

impl<P: Part, Q: Part> TwoSided for Joined<P, Q> {
    ghost sides = { λ s. record { live = s.live; first = P.Part.means s.first.part; second = Q.Part.means s.second.part } };
}

impl<P: Part, Q: Part> Joined<P, Q> {
    /// Puts the second part behind the first, and leaves both as they are. The joined part is dead over an erasure, or if the two are too large together.
    pub fn new(first: P, second: Q) -> Joined<P, Q>
        ensures made { whole_of (⟦<Self as TwoSided>⟧.sides result) ≡ made (P.Part.means first) (Q.Part.means second) }
        ensures sides { ⟦<Self as TwoSided>⟧.sides result ≡ record { live = can_join (P.Part.means first) (Q.Part.means second); first = P.Part.means first; second = Q.Part.means second } }
    {
        let (first, second) = (Side::new(first), Side::new(second));
        let live = joinable(first.shape(), second.shape());
        Joined {
            first,
            second,
            live,
        }
    }

    /// Whether it is live, and so has the blocks of both sides; one that is not is dead.
    pub fn is_live(&self) -> bool
        ensures { result ≡ (⟦<Self as TwoSided>⟧.sides self.now).live }
    {
        self.live
    }

    /// The first side.
    pub fn first(&self) -> &P
        ensures { P.Part.means result.now ≡ (⟦<Self as TwoSided>⟧.sides self.now).first }
    {
        &self.first.part
    }

    /// The second side.
    pub fn second(&self) -> &Q
        ensures { Q.Part.means result.now ≡ (⟦<Self as TwoSided>⟧.sides self.now).second }
    {
        &self.second.part
    }

    /// Takes the two apart again.
    pub fn into_sides(self) -> (P, Q)
        ensures first { P.Part.means result.0 ≡ (⟦<Self as TwoSided>⟧.sides self).first }
        ensures second { Q.Part.means result.1 ≡ (⟦<Self as TwoSided>⟧.sides self).second }
    {
        let Joined {
            first,
            second,
            live: _,
        } = self;
        (first.into_part(), second.into_part())
    }

    // The shapes of the two sides, or none where the joined part is dead.
    pub(crate) fn shapes(&self) -> Option<(Shape, Shape)>
        ensures { Asked self.now.live (P.Part.means self.now.first.part) (Q.Part.means self.now.second.part) result }
    {
        self.live
            .then_some((self.first.shape(), self.second.shape()))
    }
}
