// The command sequences: which write comes next, and what a write means.
ghost use Rattle.std.specs.Prelude.{◌≡◌};
ghost use Rattle.flash.specs.Sequences.{decided};

use geometry::Commands;

/// What a read sees where the chip is not busy.
#[derive(Clone, Copy, Debug, PartialEq, Eq)]
pub enum Mode {
    /// The cells.
    Read,
    /// The maker's code, the device code and the protected blocks.
    Id,
}

/// The place in a command sequence: which write comes next.
#[derive(Clone, Copy, Debug, PartialEq, Eq)]
pub enum Place {
    /// No sequence has begun: AAh at the first command address begins one.
    Start,
    /// 55h at the second command address.
    Second,
    /// The command at the first command address.
    Command,
    /// The data to program, at its address.
    Data,
    /// After 80h: AAh at the first command address.
    EraseStart,
    /// After 80h: 55h at the second command address.
    EraseSecond,
    /// After 80h: 30h in the block to erase.
    EraseBlock,
}

/// What a write of a sequence means.
#[derive(Clone, Copy, Debug, PartialEq, Eq)]
pub enum Decision {
    /// The sequence goes on.
    Next(Place),
    /// The sequence ends in a mode.
    Enter(Mode),
    /// The write's data is programmed at its address.
    Program,
    /// The block of the write's address is erased.
    Erase,
    /// The write does not fit: the sequence is given up.
    GiveUp,
}

impl Place {
    /// What a write means at this place of a sequence, where the chip takes its commands at these addresses. `low` is the address of the write in
    /// the low bits that count.
    pub fn decide(self, commands: Commands, low: u32, byte: u8) -> Decision
        ensures { result ≡ decided commands self low byte }
    {
        match (self, low, byte) {
            (Place::Data, _, _) => Decision::Program,
            (_, _, 0xF0) => Decision::Enter(Mode::Read),
            (Place::Start, at, 0xAA) if at == commands.first => Decision::Next(Place::Second),
            (Place::Second, at, 0x55) if at == commands.second => Decision::Next(Place::Command),
            (Place::Command, at, 0x90) if at == commands.first => Decision::Enter(Mode::Id),
            (Place::Command, at, 0xA0) if at == commands.first => Decision::Next(Place::Data),
            (Place::Command, at, 0x80) if at == commands.first => Decision::Next(Place::EraseStart),
            (Place::EraseStart, at, 0xAA) if at == commands.first => Decision::Next(
                Place::EraseSecond,
            ),
            (Place::EraseSecond, at, 0x55) if at == commands.second => Decision::Next(
                Place::EraseBlock,
            ),
            (Place::EraseBlock, _, 0x30) => Decision::Erase,
            _ => Decision::GiveUp,
        }
    }
}
