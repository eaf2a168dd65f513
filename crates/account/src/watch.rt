// The watching of status bits.
use crate::steps::Bench;
use fault::ChipFault;
use std::fmt;
use workbench::Trouble;

// DQ6, which toggles while the chip is busy.
const TOGGLE: u8 = 0x40;
// DQ5, which says that the chip has failed.
const FAILED: u8 = 0x20;

/// What was seen of an operation from its start to its end.
#[derive(Clone, Copy, Debug, PartialEq, Eq)]
pub struct Watch {
    /// The first two bytes read.
    pub first: u8,
    pub second: u8,
    /// The last byte read.
    pub last: u8,
    /// Whether DQ5 said that the chip failed.
    pub failed: bool,
    /// Microseconds from the start to the end.
    pub spent: u32,
}

impl fmt::Display for Watch {
    fn fmt<W: fmt::Write>(&self, f: &mut fmt::Formatter<W>) -> fmt::Result {
        write!(
            f,
            "status {:02X}h, {:02X}h while busy, then {:02X}h after {} us",
            self.first, self.second, self.last, self.spent
        )
    }
}

impl Bench<'_> {
    pub fn read_twice(&mut self, address: u32) -> Result<(u8, u8), ChipFault> {
        Ok((self.chip.read(address)?, self.chip.read(address)?))
    }

    /// Reads twice at each turn, with `pause` microseconds between turns, until DQ6 stops toggling or DQ5 says failed.
    pub fn follow(&mut self, address: u32, pause: u32) -> Result<Watch, Trouble> {
        let begun = self.chip.clock();
        let (first, second) = self.read_twice(address)?;
        let (mut before, mut last) = (first, second);
        for _ in 0..10_000u32 {
            // An erased cell has DQ5 set as well, so DQ5 counts only while DQ6 toggles.
            let busy = (before ^ last) & TOGGLE != 0;
            let failed = busy && last & FAILED != 0;
            if !busy || failed {
                return Ok(Watch {
                    first,
                    second,
                    last,
                    failed,
                    spent: self.chip.clock().wrapping_sub(begun),
                });
            }
            self.chip.pass(pause)?;
            (before, last) = self.read_twice(address)?;
        }
        Err(Trouble::Late)
    }

    /// Programs one byte and watches it to the end.
    pub fn program(&mut self, address: u32, byte: u8) -> Result<Watch, Trouble> {
        workbench::program(&mut self.chip, address, byte)?;
        self.follow(address, 1)
    }
}
