// The examples, cycle by cycle. Block 1 begins at 400h and block 2 at 600h.
use crate::cycle::Cycle;

/// An example: its name as it is printed, and its steps.
pub struct Example {
    pub name: &'static str,
    pub cycles: &'static [Cycle],
}

pub const EXAMPLES: &[Example] = &[
    // Two reads of the status, a third after 15 us, and 1 us later the cell.
    Example {
        name: "41h at 400h, then 15 us, then 1 us",
        cycles: &[
            Cycle::Program(0x0400, 0x41),
            Cycle::Read(0x0400, 0x80),
            Cycle::Read(0x0400, 0xC0),
            Cycle::Wait(15),
            Cycle::Read(0x0400, 0x80),
            Cycle::Wait(1),
            Cycle::Read(0x0400, 0x41),
        ],
    },
    // 41h has a 1 over a 0: it fails after 300 us, and F0h gives read mode.
    Example {
        name: "41h over 40h",
        cycles: &[
            Cycle::Program(0x0400, 0x40),
            Cycle::Wait(16),
            Cycle::Program(0x0400, 0x41),
            Cycle::Wait(300),
            Cycle::Read(0x0400, 0xA8),
            Cycle::Read(0x0400, 0xE8),
            Cycle::Write(0x0000, 0xF0),
            Cycle::Read(0x0400, 0x40),
        ],
    },
    // The window, the erasing, its last microsecond, and the erased cell.
    Example {
        name: "erase of block 1",
        cycles: &[
            Cycle::Program(0x0400, 0x41),
            Cycle::Wait(16),
            Cycle::Erase(0x0400),
            Cycle::Read(0x0400, 0x00),
            Cycle::Read(0x0400, 0x40),
            Cycle::Wait(50),
            Cycle::Read(0x0400, 0x08),
            Cycle::Wait(999),
            Cycle::Read(0x0400, 0x48),
            Cycle::Wait(1),
            Cycle::Read(0x0400, 0xFF),
        ],
    },
    // A second 30h, at 600h: the window starts over, and both blocks are erased.
    Example {
        name: "a second block after 49 us, 2,050 us later",
        cycles: &[
            Cycle::Program(0x0400, 0x41),
            Cycle::Wait(16),
            Cycle::Program(0x0600, 0x42),
            Cycle::Wait(16),
            Cycle::Erase(0x0400),
            Cycle::Wait(49),
            Cycle::Write(0x0600, 0x30),
            Cycle::Wait(2050),
            Cycle::Read(0x0400, 0xFF),
            Cycle::Read(0x0600, 0xFF),
        ],
    },
    // The same, 1 us too early: still the status.
    Example {
        name: "a second block after 49 us, 2,049 us later",
        cycles: &[
            Cycle::Program(0x0400, 0x41),
            Cycle::Wait(16),
            Cycle::Program(0x0600, 0x42),
            Cycle::Wait(16),
            Cycle::Erase(0x0400),
            Cycle::Wait(49),
            Cycle::Write(0x0600, 0x30),
            Cycle::Wait(2049),
            Cycle::Read(0x0400, 0x08),
            Cycle::Read(0x0600, 0x48),
        ],
    },
    // B0h: after 14 us two reads differ in the toggle bit, and 1 us later they agree.
    Example {
        name: "suspension at 14 us and at 15 us",
        cycles: &[
            Cycle::Erase(0x0400),
            Cycle::Write(0x0400, 0xB0),
            Cycle::Wait(14),
            Cycle::Read(0x0400, 0x00),
            Cycle::Read(0x0400, 0x40),
            Cycle::Wait(1),
            Cycle::Read(0x0400, 0x80),
            Cycle::Read(0x0400, 0x80),
        ],
    },
];
