use crate::one_of::OneOf;
use array::Array;
use joined::Joined;
use tc58::DrivenChip;

/// One piece: a chip under its driver, or an array.
pub type Piece = OneOf<DrivenChip, Array>;

/// Two pieces end to end.
pub type Two = Joined<Piece, Piece>;

/// Three pieces end to end.
pub type Three = Joined<Two, Piece>;

/// Four pieces end to end.
pub type Four = Joined<Three, Piece>;

/// One to four pieces end to end.
pub type Pile = OneOf<OneOf<Piece, Two>, OneOf<Three, Four>>;
