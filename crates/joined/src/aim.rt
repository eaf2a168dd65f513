// Where the calls of a joined part go.
ghost use Rattle.std.specs.Prelude.{◌≡◌};

use crate::joined::Joined;
use fault::{Cause, PartFault};
use part::Part;

// Which side of a joined part a call goes to.
#[derive(Clone, Copy)]
pub(crate) enum Aim {
    First,
    // The place, counted from where the second side begins.
    Second(u32),
}

impl Aim {
    ghost use Rattle.joined.specs.Sides.{aimed};

    // By the place, an address or a block, and how many of them each side has; none where an erasure of the other side is in the way.
    pub(crate) fn at(
        place: u32,
        first: u32,
        second: u32,
        by_first: bool,
        by_second: bool,
    ) -> Option<Aim>
        ensures { result ≡ aimed place first second by_first by_second }
    {
        match place.checked_sub(first) {
            None if by_second => None,
            None => Some(Aim::First),
            Some(inner) if inner < second && by_first => None,
            Some(inner) => Some(Aim::Second(inner)),
        }
    }
}

impl<P: Part, Q: Part> Joined<P, Q> {
    ghost use Rattle.fault.specs.declared.cause.Cause.TheVariants.{AddressOutside, NoSuchBlock};
    ghost use Rattle.joined.specs.Sides.{peek_aim, burn_aim, begin_aim, aim_or};

    // Which side a peek goes to. An erasure that runs hides the cells of the other side too.
    pub(crate) fn peek_aim(&self, address: u32) -> Result<Aim, PartFault>
        ensures { result ≡ aim_or self.now.live (peek_aim (P.Part.means self.now.first.part) (Q.Part.means self.now.second.part) address) AddressOutside address }
    {
        let (first, second) = self
            .shapes()
            .ok_or(refused(Cause::AddressOutside, address))?;
        let (by_first, by_second) = (
            first.standing.hides_beside(),
            second.standing.hides_beside(),
        );
        Aim::at(address, first.size, second.size, by_first, by_second).ok_or(refused(
            Cause::ErasureInTheWay,
            address,
        ))
    }

    // Which side a burn goes to. An erasure bars the other side too, whether it runs or is suspended.
    pub(crate) fn burn_aim(&self, address: u32) -> Result<Aim, PartFault>
        ensures { result ≡ aim_or self.now.live (burn_aim (P.Part.means self.now.first.part) (Q.Part.means self.now.second.part) address) AddressOutside address }
    {
        let (first, second) = self
            .shapes()
            .ok_or(refused(Cause::AddressOutside, address))?;
        let (by_first, by_second) = (first.standing.bars_beside(), second.standing.bars_beside());
        Aim::at(address, first.size, second.size, by_first, by_second).ok_or(refused(
            Cause::ErasureInTheWay,
            address,
        ))
    }

    // Which side the beginning of an erasure goes to.
    pub(crate) fn begin_aim(&self, block: u32) -> Result<Aim, PartFault>
        ensures { result ≡ aim_or self.now.live (begin_aim (P.Part.means self.now.first.part) (Q.Part.means self.now.second.part) block) NoSuchBlock block }
    {
        let (first, second) = self.shapes().ok_or(refused(Cause::NoSuchBlock, block))?;
        let (by_first, by_second) = (first.standing.stands(), second.standing.stands());
        Aim::at(block, first.blocks, second.blocks, by_first, by_second).ok_or(refused(
            Cause::ErasureInTheWay,
            block,
        ))
    }
}

// A refusal, with the place that the caller gave.
fn refused(cause: Cause, place: u32) -> PartFault
    ensures { result ≡ record { cause = cause; place = place } }
{
    PartFault { cause, place }
}
